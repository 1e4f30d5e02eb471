// The result of verifying the plates of an edition.
ghost use Rattle.std.specs.Prelude.{◌≡◌};
ghost use Rattle.plate_verify.specs.declared.checked.VerifyFault.TheVariants.{Memory};

use pr_base::{NoMemory, PathText};
use thiserror::Error;

/// The state of the held plates.
#[derive(Drop, PartialEq, Eq)]
pub enum Checked {
    /// The plates of all sites are held with the right bytes.
    Same {
        plates: u32,
    },
    /// The first plate that does not match differs at offset `at`: another byte, a missing byte or an extra
    /// byte. `row` is the packed row of the right plate that contains the offset, if any does.
    Differs {
        path: PathText,
        at: u64,
        row: Option<u32>,
    },
    /// The first plate that does not match has more bytes than any plate.
    Long {
        path: PathText,
    },
}

/// Why plates could not be verified.
#[derive(Debug, Drop, PartialEq, Eq, Error)]
pub enum VerifyFault {
    /// The plate at this path could not be loaded. The shelf has counted the failure.
    #[error("the shelf failed at {0}")]
    Shelf(PathText),
    #[error("out of memory")]
    Memory,
}

impl From<NoMemory> for VerifyFault {
    ghost from_gives = { λ _ fault. fault ≡ Memory };

    fn from(_error: NoMemory) -> VerifyFault {
        VerifyFault::Memory
    }
}
