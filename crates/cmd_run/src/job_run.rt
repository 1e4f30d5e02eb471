// A run: all plates of a job, stored on the racks of its sites.
ghost use Rattle.std.specs.Prelude.{◌≡◌, ◌≤◌, IfOk, OnErr, drop, length};
ghost use Rattle.pr_rack.specs.Told.{all_told};
ghost use Rattle.pr_base.specs.Number.{IsWithin};
ghost use Rattle.site_agent.specs.Racks.{AreIdle, KeepCounts};
ghost use Rattle.press_job.specs.Rows.{plate_frames};
ghost use Rattle.ring_run.specs.Fits.{RunFits, RunPart, by_job};
ghost use Rattle.ring_run.specs.JobRun.{JobLeaves, MayRun};

use ink_keys::{Counts, KeyReader};
use pr_base::NoMemory;
use pr_rack::Rack;
use press_feed::Feed;
use press_job::{BandFeed, Job};
use ring_run::{Outcome, Run, run_fed};
use std::alloc::Global;
use std::thread::Threads;
use std::time::Clock;

/// Delivers the plates of a job, those of each site to the rack with its number, with paths below the folder
/// `out`. A site whose rack fails drops out, and the others continue. The rows pass from one writer to the
/// sites through a ring of `ring` places. Writer and sites work concurrently, in rounds; in its turn of a
/// round each looks at most `patience` times for a row or a place without finding one. Sites that share a
/// thread do so together, but each of them at least once, even if they are more than `patience`.
pub fn run_job<T: Threads + Clock + Sync, R: Rack + Send>(
    rt: &T,
    alloc: Global,
    job: &Job,
    racks: &mut [R],
    out: &str,
    ring: u32,
    patience: u32,
) -> Result<Outcome, NoMemory>
    requires racks { length job.now.plan.sites ≤ length racks.old }
    requires idle { AreIdle (length job.now.plan.sites) (all_told R.Rack racks.old) }
    requires ring { IsWithin 1 1024 ring }
    requires patience { IsWithin 1 65536 patience }
    // Each site's end fits what its rack gained.
    ensures fits { IfOk result (λ outcome. RunFits
        (by_job job.now out.now (length job.now.plan.sites) ring)
        (all_told R.Rack racks.old) (all_told R.Rack racks.new) outcome.sites.items) }
    // Out of memory: each rack gained a prefix of its site's files, and a prefix of its site's rows.
    ensures part { OnErr result (RunPart
        (by_job job.now out.now (length job.now.plan.sites) ring)
        (all_told R.Rack racks.old) (all_told R.Rack racks.new)) }
    // Whatever the result: the racks' counts of failures never decrease, and the racks after the last site's
    // are unchanged.
    ensures counts { KeepCounts (all_told R.Rack racks.old) (all_told R.Rack racks.new) }
    ensures others { drop (length job.now.plan.sites) racks.new ≡ drop (length job.now.plan.sites) racks.old }
{
    let plan = job.plan();
    let run = Run {
        alloc,
        plan,
        rows: job.rows(),
        out,
        readers: plan.sites.len() as u32,
        ring,
        patience,
    };
    let (outcome, _counts) = run_all(rt, &run, job, racks, None)?;
    Ok(outcome)
}

/// Runs a job as `run_job` does, with a key reader that counts the rows, if there is one.
pub(crate) fn run_all<T: Threads + Clock + Sync, R: Rack + Send>(
    rt: &T,
    run: &Run<'_>,
    job: &Job,
    racks: &mut [R],
    keys: Option<KeyReader<'_>>,
) -> Result<(Outcome, Option<Counts>), NoMemory>
    requires may { MayRun R.Rack run.now keys racks.old }
    requires plan { run.now.plan.now ≡ job.now.plan }
    ensures leaves { JobLeaves R.Rack job.now run.now keys.entry racks.old racks.new result }
{
    let feed = Feed::open_wide(rt, run.alloc, job)?;
    run_owned(rt, run, job, feed, racks, keys)
}

/// Does the same with a feed from which no row has been taken yet, and drops the feed: a function that is
/// generic over it is proved without the parts of one.
fn run_owned<T: Threads + Clock + Sync, F: BandFeed + Send + Drop, R: Rack + Send>(
    rt: &T,
    run: &Run<'_>,
    job: &Job,
    feed: F,
    racks: &mut [R],
    keys: Option<KeyReader<'_>>,
) -> Result<(Outcome, Option<Counts>), NoMemory>
    requires may { MayRun R.Rack run.now keys racks.old }
    requires plan { run.now.plan.now ≡ job.now.plan }
    requires feed { F.left feed ≡ plate_frames job.now.plan job.now.files }
    ensures leaves { JobLeaves R.Rack job.now run.now keys.entry racks.old racks.new result }
{
    let mut feed = feed;
    run_fed(rt, run, job, &mut feed, racks, keys)
}
