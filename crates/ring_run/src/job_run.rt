// A run of a job over its ring, by a feed of the job's rows.
ghost use Rattle.std.specs.Prelude.{◌≡◌};
ghost use Rattle.press_job.specs.Rows.{plate_frames};
ghost use Rattle.ring_run.specs.JobRun.{JobLeaves, MayRun};

use crate::Outcome;
use crate::rows::Run;
use ink_keys::{Counts, KeyReader};
use pr_base::NoMemory;
use pr_rack::Rack;
use press_job::{BandFeed, Job};
use std::thread::Threads;
use std::time::Clock;

/// Delivers the plates of a job, each site's to the rack with its number, as described by `run`. The key
/// reader, if there is one, counts the rows, and its counts are returned too. All rows of the job are still
/// to come from the feed.
pub fn run_fed<T: Threads + Clock + Sync, F: BandFeed + Send, R: Rack + Send>(
    rt: &T,
    run: &Run<'_>,
    job: &Job,
    feed: &mut F,
    racks: &mut [R],
    keys: Option<KeyReader<'_>>,
) -> Result<(Outcome, Option<Counts>), NoMemory>
    requires may { MayRun R.Rack run.now keys racks.old }
    requires plan { run.now.plan.now ≡ job.now.plan }
    requires feed { F.left feed.old ≡ plate_frames job.now.plan job.now.files }
    ensures leaves { JobLeaves R.Rack job.now run.now keys.entry racks.old racks.new result }
{
    let plan = run.plan;
    let (racks, _others) = racks.split_at_mut(plan.sites.len());
    run.run_rows(rt, job, feed, racks, keys)
}
