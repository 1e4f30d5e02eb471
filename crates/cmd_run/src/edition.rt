// The command `run`: the plates of all sites of an edition.
ghost use Rattle.std.specs.Prelude.{◌≡◌};
ghost use Rattle.cmd_run.specs.Edition.{edition_told, Delivered, HasNumbers, none_further, run_makes, run_rules};
ghost use Rattle.cmd_run.specs.Report.{is_finished as is_finished_lem, status_of_ends};
ghost use Rattle.cmd_base.specs.Loads.{Lengths, Loads};
ghost use Rattle.cmd_base.specs.Seen.{AreReady, shelf_seen, sink_seen};
ghost use Rattle.cmd_base.specs.Status.{number_of};
ghost use Rattle.cmd_base.specs.Task.{Answers};
ghost use Rattle.cmd_base.specs.Writes.{Writes};

use crate::job_run::run_job;
use crate::report::report;
use cmd_base::{Paths, Status, Stop, Whose, load_job, put_text};
use pr_ports::{Shelf, Sink};
use pr_rack::Rack;
use press_feed::Job;
use ring_run::SiteEnd;
use std::alloc::Global;
use std::thread::Threads;
use std::time::Clock;

/// An edition to be run.
#[derive(Clone, Copy)]
pub struct Edition<'a> {
    /// The paths of its plan, its files and its plates.
    pub paths: Paths<'a>,
    /// The number of places of the ring, 1 to 1024.
    pub ring: u32,
    /// The number of times that a turn may look for a row without finding one, 1 to 65,536.
    pub patience: u32,
}

/// Runs an edition: delivers the plates of its sites to the racks, and prints the report. Returns the status.
pub fn run_edition<T: Threads + Clock + Sync, H: Shelf, R: Rack + Send, S: Sink>(
    rt: &T,
    alloc: Global,
    edition: Edition<'_>,
    shelf: &mut H,
    racks: &mut [R],
    out: &mut S,
) -> Result<u8, Stop>
    requires racks { AreReady R.Rack racks.old }
    requires numbers { HasNumbers edition }
    ensures answered { Answers
        (run_rules (edition_told edition.entry)) (run_makes R.Rack (edition_told edition.entry))
        (shelf_seen H.Shelf shelf.old shelf.new)
        racks.old racks.new (sink_seen S.Sink out.old out.new) result }
    ensures held { H.held shelf.new ≡ H.held shelf.old }
    ensures loads { Loads (shelf_seen H.Shelf shelf.old shelf.new) result }
    ensures lengths { Lengths (shelf_seen H.Shelf shelf.old shelf.new) result }
    ensures writes { Writes (sink_seen S.Sink out.old out.new) result }
{
    let paths = edition.paths;
    match load_job(rt, alloc, Whose::New, paths.plan, paths.files, shelf) {
        Ok(job) => deliver(rt, alloc, edition, &job, racks, out),
        Err(stop) => Err(stop),
    }
}

/// Runs a job over the racks, and prints the report.
fn deliver<T: Threads + Clock + Sync, R: Rack + Send, S: Sink>(
    rt: &T,
    alloc: Global,
    edition: Edition<'_>,
    job: &Job,
    racks: &mut [R],
    out: &mut S,
) -> Result<u8, Stop>
    requires racks { AreReady R.Rack racks.old }
    requires numbers { HasNumbers edition }
    ensures delivered { Delivered R.Rack (edition_told edition.entry) none_further job.now
        racks.old racks.new (sink_seen S.Sink out.old out.new) result }
    ensures writes { Writes (sink_seen S.Sink out.old out.new) result }
{
    let plan = job.plan();
    // Called for its contract, which states what holds of every plan that was read.
    let _files = plan.files();
    let outcome = run_job(
        rt,
        alloc,
        job,
        racks,
        edition.paths.out,
        edition.ring,
        edition.patience,
    )?;
    let ends = outcome.sites.as_slice();
    let text = report(alloc, plan, job.rows().total(), ends)?;
    put_text(text.as_bytes(), status_of(ends), out)
}

/// Returns the status of a run whose sites ended like this.
#[tactic(auto, unfolding(crate::specs::Report::status_of_ends))]
pub(crate) fn status_of(ends: &[SiteEnd]) -> Status
    ensures { number_of result ≡ status_of_ends ends.now }
{
    for end in ends {
        if !is_finished(end) {
            return Status::Left;
        }
    }
    Status::Done
}

/// Returns whether a site finished.
fn is_finished(end: &SiteEnd) -> bool
    ensures { result ≡ is_finished_lem end.now }
{
    matches!(end, SiteEnd::Finished { .. })
}
