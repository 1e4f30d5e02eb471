// Loading a job: its plan, and then the files that the plan names.
ghost use Rattle.std.specs.Prelude.{◌≡◌, ◌≤◌, ℕ, List, IfErr, IfOk};
ghost use Rattle.cmd_base.specs.Job.{JobRefused, IsPlanned, IsPrepared};
ghost use Rattle.cmd_base.specs.Loads.{Lengths, Loads};
ghost use Rattle.cmd_base.specs.Seen.{shelf_seen};

use crate::refusal::{Refusal, Stop, Whose};
use plan_json::{Plan, PlanFault, read_plan};
use pr_base::PathText;
use pr_ports::{LoadFault, Shelf};
use press_job::{Job, prepare};
use std::alloc::Global;
use std::thread::Threads;

/// Largest plan that is read, in bytes.
const PLAN_LIMIT: u64 = 16_777_216;

/// Loads the plan at `path` and its files in `folder`, and checks them all.
pub fn load_job<T: Threads + Sync, H: Shelf>(
    rt: &T,
    alloc: Global,
    whose: Whose,
    path: &str,
    folder: &str,
    shelf: &mut H,
) -> Result<Job, Stop>
    ensures prepared { IfOk result (IsPrepared (H.held shelf.old) path.now folder.now) }
    ensures refused { IfErr result
        (JobRefused whose path.now folder.now (shelf_seen H.Shelf shelf.old shelf.new)) }
    ensures held { H.held shelf.new ≡ H.held shelf.old }
    ensures loads { Loads (shelf_seen H.Shelf shelf.old shelf.new) result }
    ensures lengths { Lengths (shelf_seen H.Shelf shelf.old shelf.new) result }
    ensures faults_stay { H.faults shelf.old ≤ H.faults shelf.new }
    ensures longs_stay { H.longs shelf.old ≤ H.longs shelf.new }
{
    let plan = match load_plan(alloc, whose, path, shelf) {
        Ok(plan) => plan,
        Err(stop) => return Err(stop),
    };
    match prepare(rt, alloc, plan, folder, shelf) {
        Ok(job) => Ok(job),
        Err(press_job::Refusal::File(fault)) => Err(Stop::Refused(Refusal::File(whose, fault))),
        Err(press_job::Refusal::Shelf(path)) => Err(Stop::Refused(Refusal::Shelf(path))),
        Err(press_job::Refusal::Memory) => Err(Stop::Memory),
    }
}

/// Loads the plan at `path` and parses it.
fn load_plan<H: Shelf>(alloc: Global, whose: Whose, path: &str, shelf: &mut H) -> Result<Plan, Stop>
    ensures planned { IfOk result (IsPlanned (H.held shelf.old) path.now) }
    ensures refused { IfErr result (λ stop. (folder : List ℕ) →
        JobRefused whose path.now folder (shelf_seen H.Shelf shelf.old shelf.new) stop) }
    ensures held { H.held shelf.new ≡ H.held shelf.old }
    ensures loads { Loads (shelf_seen H.Shelf shelf.old shelf.new) result }
    ensures lengths { Lengths (shelf_seen H.Shelf shelf.old shelf.new) result }
    ensures faults_stay { H.faults shelf.old ≤ H.faults shelf.new }
    ensures longs_stay { H.longs shelf.old ≤ H.longs shelf.new }
{
    let name = PathText::of(alloc, path)?;
    let bytes = match shelf.load(path, PLAN_LIMIT) {
        Ok(bytes) => bytes,
        Err(LoadFault::TooLong { .. }) => return Err(Stop::Refused(Refusal::LongPlan(whose))),
        Err(LoadFault::Failed) => return Err(Stop::Refused(Refusal::Shelf(name))),
        Err(LoadFault::Memory) => return Err(Stop::Memory),
    };
    match read_plan(alloc, bytes.as_slice()) {
        Ok(plan) => Ok(plan),
        Err(PlanFault::Memory) => Err(Stop::Memory),
        Err(fault) => Err(Stop::Refused(Refusal::Plan(whose, fault))),
    }
}
