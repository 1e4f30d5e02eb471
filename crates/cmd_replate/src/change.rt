// The command `replate`: makes the plates of an edition that changed, and only these.
ghost use Rattle.std.specs.Prelude.{◌≡◌, ◌≤◌, IfErr, IfOk, length, string_bytes};
ghost use Rattle.plan_json.specs.Plan.{IsPlan};
ghost use Rattle.plan_rows.specs.Groups.{groups_of};
ghost use Rattle.press_job.specs.Rows.{plate_frames};
ghost use Rattle.cmd_replate.specs.Change.{AnswersChange, change_told, ChangeRefused, IsLate};
ghost use Rattle.cmd_replate.specs.Change.{IsLoadedLate, Remakes, compared};
ghost use Rattle.cmd_replate.specs.Remade.{text_with};
ghost use Rattle.cmd_base.specs.Loads.{Lengths, Loads};
ghost use Rattle.cmd_base.specs.Seen.{AreReady, shelf_seen, sink_seen};
ghost use Rattle.cmd_base.specs.Writes.{Writes};

use crate::remade::{dropped_lines, remade_text, status_of};
use cmd_base::{Paths, Stop, Whose, load_job, put_text};
use pr_base::NoMemory;
use pr_feed::PassingFeed;
use pr_ports::{Shelf, Sink};
use pr_rack::Rack;
use press_feed::{BandMaker, ByThreads, Job, Wanted, WideFeed};
use replate::{Inputs, Picks, RemadeEnd, deliver, wanted_inks};
use std::alloc::Global;
use std::thread::Threads;

/// An edition whose changed plates are made.
#[derive(Clone, Copy)]
pub struct Change<'a> {
    /// The path of the plan made before this edition.
    pub old_plan: &'a str,
    /// The folder of that plan's files.
    pub old_files: &'a str,
    /// The paths of the edition itself.
    pub paths: Paths<'a>,
}

/// A new job, the picks of its plates that must be made given an old job, and the lines of dropped old
/// plates.
#[derive(Drop)]
pub(crate) struct Late {
    job: Job,
    picks: Picks,
    dropped: String,
}

/// Makes the changed plates of an edition, prints how its sites ended, and returns the exit status.
pub fn print_change<T: Threads + Sync, H: Shelf, R: Rack, S: Sink>(
    rt: &T,
    alloc: Global,
    change: Change<'_>,
    shelf: &mut H,
    racks: &mut [R],
    out: &mut S,
) -> Result<u8, Stop>
    requires racks { AreReady R.Rack racks.old }
    ensures answered { AnswersChange R.Rack (change_told change.entry)
        (shelf_seen H.Shelf shelf.old shelf.new)
        racks.old racks.new (sink_seen S.Sink out.old out.new) result }
    ensures held { H.held shelf.new ≡ H.held shelf.old }
    ensures loads { Loads (shelf_seen H.Shelf shelf.old shelf.new) result }
    ensures lengths { Lengths (shelf_seen H.Shelf shelf.old shelf.new) result }
    ensures writes { Writes (sink_seen S.Sink out.old out.new) result }
{
    let late = load_late(rt, alloc, change, shelf)?;
    let remade = make_late(&ByThreads { rt }, alloc, change, &late, racks)?;
    let ends = remade.as_slice();
    let text = late_text(alloc, late, ends)?;
    put_text(text.as_bytes(), status_of(ends), out)
}

/// Formats the text of a delivery with these ends of its sites, and frees its job.
fn late_text(alloc: Global, late: Late, ends: &[RemadeEnd]) -> Result<String, NoMemory>
    requires ends { length ends.now ≡ length late.job.plan.sites }
    requires few { length ends.now ≤ 16 }
    ensures { IfOk result (λ text.
        string_bytes text ≡ text_with late.job.plan.sites ends.now (string_bytes late.dropped)) }
{
    remade_text(alloc, late.job.plan(), ends, late.dropped.as_str())
}

/// Loads the old job and then the new one, and compares them. The old job is freed on return.
fn load_late<T: Threads + Sync, H: Shelf>(
    rt: &T,
    alloc: Global,
    change: Change<'_>,
    shelf: &mut H,
) -> Result<Late, Stop>
    ensures loaded { IfOk result (IsLoadedLate (change_told change.entry) (H.held shelf.old)) }
    ensures refused { IfErr result
        (ChangeRefused (change_told change.entry) (shelf_seen H.Shelf shelf.old shelf.new)) }
    ensures held { H.held shelf.new ≡ H.held shelf.old }
    ensures loads { Loads (shelf_seen H.Shelf shelf.old shelf.new) result }
    ensures lengths { Lengths (shelf_seen H.Shelf shelf.old shelf.new) result }
{
    let before = load_job(
        rt,
        alloc,
        Whose::Old,
        change.old_plan,
        change.old_files,
        shelf,
    )?;
    let paths = change.paths;
    let job = load_job(rt, alloc, Whose::New, paths.plan, paths.files, shelf)?;
    let late = compare(alloc, before, job, paths.out)?;
    Ok(late)
}

/// Compares an old job with a new one. Frees the old job.
fn compare(alloc: Global, before: Job, job: Job, out: &str) -> Result<Late, NoMemory>
    ensures late { IfOk result (IsLate before out.now) }
    ensures job { IfOk result (λ late. late.job ≡ job) }
{
    let (picks, dropped) = picks_of(alloc, before, &job, out)?;
    Ok(Late {
        job,
        picks,
        dropped,
    })
}

/// Returns the picks of a job's plates given an old job, and the lines of dropped old plates. Frees the old
/// job.
fn picks_of(alloc: Global, before: Job, job: &Job, out: &str) -> Result<(Picks, String), NoMemory>
    ensures { IfOk result (λ made.
        IsLate before out.now (record { job = job.now; picks = made.0; dropped = made.1 })) }
{
    compare_jobs(alloc, &before, job, out)
}

/// Does the same and keeps the old job.
fn compare_jobs(
    alloc: Global,
    before: &Job,
    job: &Job,
    out: &str,
) -> Result<(Picks, String), NoMemory>
    ensures { IfOk result (λ made.
        IsLate before.now out.now (record { job = job.now; picks = made.0; dropped = made.1 })) }
{
    let olds = inputs_of(before);
    let news = inputs_of(job);
    let picks = Picks::of(alloc, &olds, &news)?;
    let plates = picks.dropped();
    let dropped = dropped_lines(alloc, before, out, plates)?;
    Ok((picks, dropped))
}

/// Returns a job as the comparison takes it.
fn inputs_of(job: &Job) -> Inputs<'_>
    ensures job { result ≡ compared job.now }
    ensures plan { IsPlan job.now.plan }
{
    Inputs::new(job.plan(), job.rows(), job.files())
}

/// Makes the plates that must be made. `maker` makes the bands of their rows.
fn make_late<M: BandMaker, R: Rack>(
    maker: &M,
    alloc: Global,
    change: Change<'_>,
    late: &Late,
    racks: &mut [R],
) -> Result<Vec<RemadeEnd>, NoMemory>
    requires may { M.may }
    requires racks { AreReady R.Rack racks.old }
    requires groups { length late.now.picks.kept ≡ length (groups_of late.now.job.plan) }
    ensures { Remakes R.Rack (change_told change.entry) late.now.job late.now.picks
        racks.old racks.new result }
{
    let flags = wanted_inks(alloc, &inputs_of(&late.job), &late.picks)?;
    let wanted = Wanted {
        flags: Some(flags.as_slice()),
    };
    let feed = WideFeed::open_for(maker, alloc, &late.job, wanted)?;
    make_fed(alloc, change, late, feed, racks)
}

/// Does the same with a feed from which no row has been taken yet, and drops the feed: a function that is
/// generic over it is proved without the parts of one.
fn make_fed<F: PassingFeed + Drop, R: Rack>(
    alloc: Global,
    change: Change<'_>,
    late: &Late,
    feed: F,
    racks: &mut [R],
) -> Result<Vec<RemadeEnd>, NoMemory>
    requires feed { F.left feed ≡ plate_frames late.now.job.plan late.now.job.files }
    requires racks { AreReady R.Rack racks.old }
    requires groups { length late.now.picks.kept ≡ length (groups_of late.now.job.plan) }
    ensures { Remakes R.Rack (change_told change.entry) late.now.job late.now.picks
        racks.old racks.new result }
{
    let inputs = inputs_of(&late.job);
    let mut feed = feed;
    deliver(
        alloc,
        &late.job,
        &mut feed,
        &inputs,
        &late.picks,
        change.paths.out,
        racks,
    )
}
