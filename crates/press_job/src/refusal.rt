// Why a job was not prepared.
ghost use Rattle.std.specs.Prelude.{◌≡◌};
ghost use Rattle.press_job.specs.declared.refusal.Refusal.TheVariants.{Memory};

use pr_base::{FileFault, NoMemory, PathText};
use thiserror::Error;

/// Why a plan and its files do not make a job.
#[derive(Debug, Drop, Error)]
pub enum Refusal {
    /// A file is refused, or a crop or a mask does not fit its image.
    #[error("{0}")]
    File(FileFault),
    /// The shelf failed to load this path, and counted the failure.
    #[error("shelf: {0}")]
    Shelf(PathText),
    #[error("out of memory")]
    Memory,
}

impl From<NoMemory> for Refusal {
    ghost from_gives = { λ _ refusal. refusal ≡ Memory };

    fn from(_error: NoMemory) -> Refusal {
        Refusal::Memory
    }
}
