// Why a plan is rejected: the kind of the first fault, and the path to it.
ghost use Rattle.std.specs.Prelude.{◌≡◌};
ghost use Rattle.plan_parts.specs.declared.fault.PlanFault.TheVariants.{Memory};

use pr_base::{NoMemory, PathText};
use std::alloc::{AllocError, AllocFailed};
use thiserror::Error;

/// What is wrong with a plan, or that memory ran out while it was read. A path leads from the top to the
/// fault: each step is `/` and a key or an index from 0, and the path of the whole plan is empty.
#[derive(Debug, PartialEq, Eq, Drop, Error)]
pub enum PlanFault {
    /// The bytes are not a JSON text.
    #[error("not JSON")]
    NotJson,
    /// A required key is absent.
    #[error("{0}: missing")]
    Missing(PathText),
    /// The value has the wrong kind: it is not the object, list, text or whole number that is required.
    #[error("{0}: kind")]
    Kind(PathText),
    /// The value is out of range, or does not have the required form.
    #[error("{0}: range")]
    Range(PathText),
    /// The key is not one of the object's keys, or the name is not defined.
    #[error("{0}: unknown")]
    Unknown(PathText),
    /// An earlier item of the list has the same name, or replaces the same page.
    #[error("{0}: repeat")]
    Repeat(PathText),
    /// Out of memory.
    #[error("out of memory")]
    Memory,
}

impl From<NoMemory> for PlanFault {
    ghost from_gives = { λ _ fault. fault ≡ Memory };

    fn from(_error: NoMemory) -> PlanFault {
        PlanFault::Memory
    }
}

impl From<AllocError> for PlanFault {
    ghost from_gives = { λ _ fault. fault ≡ Memory };

    fn from(_error: AllocError) -> PlanFault {
        PlanFault::Memory
    }
}

impl<T: Drop> From<AllocFailed<T>> for PlanFault {
    ghost from_gives = { λ _ fault. fault ≡ Memory };

    fn from(_error: AllocFailed<T>) -> PlanFault {
        PlanFault::Memory
    }
}
