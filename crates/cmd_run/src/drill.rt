// The command `drill`: a generated job, run in memory.
ghost use Rattle.std.specs.Prelude.{◌≡◌, All, IfOk, IsOk, None, Ok, OnOk, [], codes, length, map, nat_eq};
ghost use Rattle.std.specs.Prelude.{string_bytes};
ghost use Rattle.std.specs.Cmp.Lexicographic.{pointwise};
ghost use Rattle.std.specs.List.{IsDistinct};
ghost use Rattle.pr_ports.specs.Mem.{files_of};
ghost use Rattle.pr_rack.specs.Mem.{empty_slots};
ghost use Rattle.plan_json.specs.PlanOf.{plan_of};
ghost use Rattle.press_job.specs.Verdict.{files_in, verdict_on_files};
ghost use Rattle.cmd_run.specs.Drill.{HasTurns, HaveRun, IsDrilled, PrintsDrill, drill_job, drill_rules};
ghost use Rattle.cmd_run.specs.Drill.{finished_ends};
ghost use Rattle.cmd_base.specs.Seen.{ShelfSeen, sink_seen};
ghost use Rattle.cmd_base.specs.Task.{Told};
ghost use Rattle.cmd_base.specs.Writes.{Writes};

use crate::dots::told;
use crate::job_run::run_job;
use cmd_base::{Status, Stop, put_text};
use drill_mem::{SureRack, SureShelf};
use job_gen::make_job;
use plan_json::{Plan, PlanFault, read_plan};
use pr_base::{NoMemory, PathText};
use pr_ports::Sink;
use press_feed::{Job, prepare};
use ring_run::SiteEnd;
use std::alloc::Global;
use std::thread::Threads;
use std::time::Clock;

/// A generated job to be run in memory.
#[derive(Clone, Copy)]
pub struct Drill {
    /// The number of the generated job.
    pub number: u32,
    /// The number of places of the ring, 1 to 1024.
    pub ring: u32,
    /// The number of times that a turn may look for a row without finding one, 1 to 65,536.
    pub patience: u32,
}

/// A generated job that was run in memory.
#[derive(Drop)]
pub struct DrillRun {
    pub job: Job,
    /// How each site ended, in the plan's order.
    pub ends: Vec<SiteEnd>,
    /// The rack of each site, with its plates.
    pub racks: Vec<SureRack>,
}

/// The folder of the job's files.
const FILES: &str = "in";

/// The folder of the job's plates.
const PLATES: &str = "drill";

/// Runs a generated job in memory, and prints its report and the number of dots on its plates. Returns the
/// status.
pub fn print_drill<T: Threads + Clock + Sync, S: Sink>(
    rt: &T,
    alloc: Global,
    drill: Drill,
    out: &mut S,
) -> Result<u8, Stop>
    requires numbers { HasTurns drill }
    ensures told { (shelf : ShelfSeen) → Told drill_rules (PrintsDrill drill.number drill.ring)
        shelf (sink_seen S.Sink out.old out.new) result }
    ensures writes { Writes (sink_seen S.Sink out.old out.new) result }
{
    let text = drill_text(rt, alloc, drill)?;
    put_text(text.as_bytes(), Status::Done, out)
}

/// Returns the text that a drill prints.
fn drill_text<T: Threads + Clock + Sync>(
    rt: &T,
    alloc: Global,
    drill: Drill,
) -> Result<String, NoMemory>
    requires numbers { HasTurns drill }
    ensures { IfOk result (λ text. IsDrilled drill.number drill.ring (string_bytes text)) }
{
    let drilled = run_drill(rt, alloc, drill)?;
    tell_drill(alloc, drill, &drilled)
}

/// Returns the text of a drill that has run.
fn tell_drill(alloc: Global, drill: Drill, drilled: &DrillRun) -> Result<String, NoMemory>
    requires job { drilled.now.job ≡ drill_job drill.number }
    requires ends { drilled.now.ends.items ≡ finished_ends drilled.now.job.plan }
    requires racks { HaveRun drilled.now.job drill.ring drilled.now.racks.items }
    ensures { IfOk result (λ text. IsDrilled drill.number drill.ring (string_bytes text)) }
{
    told(
        alloc,
        &drilled.job,
        drilled.ends.as_slice(),
        drilled.racks.as_slice(),
    )
}

/// Runs the generated job of a drill in memory, and stores each site's plates on an empty rack of its own.
pub fn run_drill<T: Threads + Clock + Sync>(
    rt: &T,
    alloc: Global,
    drill: Drill,
) -> Result<DrillRun, NoMemory>
    requires numbers { HasTurns drill }
    ensures job { IfOk result (λ drilled. drilled.job ≡ drill_job drill.number) }
    ensures ends { IfOk result (λ drilled. drilled.ends.items ≡ finished_ends drilled.job.plan) }
    ensures racks { IfOk result (λ drilled. HaveRun drilled.job drill.ring drilled.racks.items) }
{
    let job = job_of(rt, alloc, drill.number)?;
    let (ends, racks) = run_in_memory(rt, alloc, &job, drill)?;
    Ok(DrillRun { job, ends, racks })
}

/// Runs a job over empty racks, and returns how each site ended, and the racks.
fn run_in_memory<T: Threads + Clock + Sync>(
    rt: &T,
    alloc: Global,
    job: &Job,
    drill: Drill,
) -> Result<(Vec<SiteEnd>, Vec<SureRack>), NoMemory>
    requires numbers { HasTurns drill }
    ensures ends { IfOk result (λ run. run.0.items ≡ finished_ends job.now.plan) }
    ensures racks { IfOk result (λ run. HaveRun job.now drill.ring run.1.items) }
{
    let mut racks = empty_racks(alloc, job.plan().sites.len())?;
    let ends = deliver_to(rt, alloc, job, racks.as_mut_slice(), drill)?;
    Ok((ends, racks))
}

/// Runs a job over empty racks, one for each of its sites, and returns how each site ended.
fn deliver_to<T: Threads + Clock + Sync>(
    rt: &T,
    alloc: Global,
    job: &Job,
    racks: &mut [SureRack],
    drill: Drill,
) -> Result<Vec<SiteEnd>, NoMemory>
    requires numbers { HasTurns drill }
    requires count { length racks.old ≡ length job.now.plan.sites }
    requires slots { All (λ rack. rack.slots ≡ empty_slots) racks.old }
    requires files { All (λ rack. rack.files ≡ []) racks.old }
    requires taken { All (λ rack. rack.taken ≡ []) racks.old }
    ensures ends { IfOk result (λ ends. ends.items ≡ finished_ends job.now.plan) }
    ensures racks { OnOk result (HaveRun job.now drill.ring racks.new) }
{
    let outcome = run_job(rt, alloc, job, racks, PLATES, drill.ring, drill.patience)?;
    Ok(outcome.sites)
}

/// Returns the generated job with this number, prepared.
fn job_of<T: Threads + Sync>(rt: &T, alloc: Global, number: u32) -> Result<Job, NoMemory>
    ensures { IfOk result (λ job. job ≡ drill_job number) }
{
    let made = make_job(alloc, number)?;
    let plan = plan_in(alloc, made.plan.as_slice())?;
    prepare_job(rt, alloc, plan, made.files)
}

/// Parses a plan that is known to be valid.
fn plan_in(alloc: Global, text: &[u8]) -> Result<Plan, NoMemory>
    requires { IsOk (plan_of text.now) }
    ensures { IfOk result (λ plan. plan_of text.now ≡ Ok plan) }
{
    match read_plan(alloc, text) {
        Ok(plan) => Ok(plan),
        Err(PlanFault::Memory) => Err(NoMemory),
        Err(_) => unreachable!(),
    }
}

/// Prepares the job of a plan with files that pass all tests. Only an allocation failure can stop it.
fn prepare_job<T: Threads + Sync>(
    rt: &T,
    alloc: Global,
    plan: Plan,
    files: Vec<(PathText, Vec<u8>)>,
) -> Result<Job, NoMemory>
    requires paths { IsDistinct (pointwise nat_eq) (map (λ file. file.0) (files_of files.items)) }
    requires passes { verdict_on_files plan (codes "in") (files_of files.items) ≡ None }
    ensures { IfOk result (λ job. job
        ≡ record { plan = plan; files = files_in plan (codes "in") (files_of files.items) }) }
{
    let mut shelf = SureShelf::new(alloc, files);
    match prepare(rt, alloc, plan, FILES, &mut shelf) {
        Ok(job) => Ok(job),
        Err(press_feed::Refusal::Memory) => Err(NoMemory),
        Err(press_feed::Refusal::File(_fault)) => unreachable!(),
        Err(press_feed::Refusal::Shelf(_path)) => {
            shelf.lacks_what_it_missed();
            unreachable!()
        }
    }
}

/// Returns `count` empty racks.
fn empty_racks(alloc: Global, count: usize) -> Result<Vec<SureRack>, NoMemory>
    ensures count { IfOk result (λ racks. length racks.items ≡ count) }
    ensures slots { IfOk result (λ racks. All (λ rack. rack.slots ≡ empty_slots) racks.items) }
    ensures files { IfOk result (λ racks. All (λ rack. rack.files ≡ []) racks.items) }
    ensures taken { IfOk result (λ racks. All (λ rack. rack.taken ≡ []) racks.items) }
{
    let mut racks = Vec::new(alloc);
    for _index in 0..count {
        racks.push(SureRack::new(alloc))?;
    }
    Ok(racks)
}
