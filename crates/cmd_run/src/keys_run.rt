// A run that also counts the ink keys of all plates, through one further reader of its ring.
ghost use Rattle.std.specs.Prelude.{◌≡◌, ◌+◌, ◌≤◌, IfOk, OnErr, drop, length};
ghost use Rattle.pr_rack.specs.Told.{all_told};
ghost use Rattle.pr_base.specs.Number.{IsWithin};
ghost use Rattle.press_job.specs.Rows.{plate_rows};
ghost use Rattle.site_agent.specs.Racks.{AreIdle, KeepCounts};
ghost use Rattle.ring_run.specs.Fits.{RunFits, RunPart, by_job};
ghost use Rattle.ring_run.specs.Keyed.{KeysFit};

use crate::job_run::run_all;
use ink_keys::{Counts, KeyReader};
use pr_base::NoMemory;
use pr_rack::Rack;
use press_job::Job;
use ring_run::{Outcome, Run};
use std::alloc::Global;
use std::thread::Threads;
use std::time::Clock;

/// Delivers the plates of a job as `run_job` does, and counts the printing pixels in each of the `keys` ink
/// keys of each plate. The counts come from the rows of the run's own ring, read by a reader whose number
/// follows that of the last site. They are complete even if every site drops out. All counts are allocated
/// before the first row.
pub fn run_keys<T: Threads + Clock + Sync, R: Rack + Send>(
    rt: &T,
    alloc: Global,
    job: &Job,
    racks: &mut [R],
    out: &str,
    keys: u32,
    ring: u32,
    patience: u32,
) -> Result<(Outcome, Counts), NoMemory>
    requires racks { length job.now.plan.sites ≤ length racks.old }
    requires idle { AreIdle (length job.now.plan.sites) (all_told R.Rack racks.old) }
    requires keys { IsWithin 1 64 keys }
    requires ring { IsWithin 1 1024 ring }
    requires patience { IsWithin 1 65536 patience }
    // Each site's end fits what its rack gained, over a ring with one further reader.
    ensures fits { IfOk result (λ pair. RunFits
        (by_job job.now out.now (length job.now.plan.sites + 1) ring)
        (all_told R.Rack racks.old) (all_told R.Rack racks.new) pair.0.sites.items) }
    // Each count is that of its plate's rows, taken over all rows of the job.
    ensures keys { IfOk result (λ pair.
        KeysFit job.now.plan (plate_rows job.now.plan job.now.files) keys pair.1) }
    // Out of memory: each rack gained a prefix of its site's files, and a prefix of its site's rows.
    ensures part { OnErr result (RunPart
        (by_job job.now out.now (length job.now.plan.sites + 1) ring)
        (all_told R.Rack racks.old) (all_told R.Rack racks.new)) }
    // Whatever the result: the racks' counts of failures never decrease, and the racks after the last site's
    // are unchanged.
    ensures counts { KeepCounts (all_told R.Rack racks.old) (all_told R.Rack racks.new) }
    ensures others { drop (length job.now.plan.sites) racks.new ≡ drop (length job.now.plan.sites) racks.old }
{
    let plan = job.plan();
    let rows = job.rows();
    let counts = Counts::new(alloc, rows, job.shape().width, keys)?;
    let run = Run {
        alloc,
        plan,
        rows,
        out,
        readers: plan.sites.len() as u32 + 1,
        ring,
        patience,
    };
    let reader = KeyReader::new(rows, counts);
    let (outcome, counts) = run_all(rt, &run, job, racks, Some(reader))?;
    let Some(counts) = counts else { unreachable!() };
    Ok((outcome, counts))
}
