// Reasons why a command does not complete.
ghost use Rattle.std.specs.Prelude.{◌≡◌};
ghost use Rattle.cmd_base.specs.Refusal.{status_of as status_of_lem};
ghost use Rattle.cmd_base.specs.declared.refusal.Stop.TheVariants.{Memory};

use crate::status::Status;
use plan_json::PlanFault;
use pr_base::{FileFault, NoMemory, PathText};

/// Which of two jobs a line is about: the current one, or the one made before it.
#[derive(Clone, Copy, PartialEq, Eq)]
pub enum Whose {
    New,
    Old,
}

/// Why a command is refused.
#[derive(Drop)]
pub enum Refusal {
    /// The arguments are not a command.
    Words,
    /// The plan is longer than the limit for plans.
    LongPlan(Whose),
    /// The plan is refused.
    Plan(Whose, PlanFault),
    /// A file is refused; its name is as given in the arguments or the plan.
    File(Whose, FileFault),
    /// The shelf failed at this path.
    Shelf(PathText),
}

impl Refusal {
    /// Returns the exit status of this refusal.
    pub(crate) fn status(&self) -> u8
        ensures { result ≡ status_of_lem self.now }
    {
        match self {
            Refusal::Words => Status::Words.number(),
            Refusal::LongPlan(_) | Refusal::Plan(_, _) => Status::Plan.number(),
            Refusal::File(_, _) => Status::File.number(),
            Refusal::Shelf(_) => Status::Shelf.number(),
        }
    }
}

/// Why a command did not complete.
#[derive(Drop)]
pub enum Stop {
    Refused(Refusal),
    /// Out of memory.
    Memory,
    /// The output failed.
    Printing,
}

impl From<NoMemory> for Stop {
    ghost from_gives = { λ _ stop. stop ≡ Memory };

    fn from(_error: NoMemory) -> Stop {
        Stop::Memory
    }
}
