// What the tests of a file found, for each of its uses.
ghost use Rattle.std.specs.Prelude.{◌≡◌};
ghost use Rattle.press_job.specs.Findings.{found_of, with_found};
ghost use Rattle.tif_image.specs.Found.{nothing};

use std::alloc::Global;
use tif_image::{BilevelUse, Found, Usage};

/// What the tests found for each use that a file has passed; a record of nothing for any other use.
#[derive(Drop)]
pub(crate) struct Findings {
    contone: Found,
    line: Found,
    mask: Found,
}

impl Findings {
    /// Returns the findings of a file that was not tested yet.
    pub(crate) fn nothing(alloc: Global) -> Findings
        ensures { result ≡ record { contone = nothing; line = nothing; mask = nothing } }
    {
        Findings {
            contone: Found::nothing(alloc),
            line: Found::nothing(alloc),
            mask: Found::nothing(alloc),
        }
    }

    /// Lends what was found for a use.
    pub(crate) fn of(&self, usage: Usage) -> &Found
        ensures { result.now ≡ found_of self.now usage }
    {
        match usage {
            Usage::Contone => &self.contone,
            Usage::Bilevel(BilevelUse::Line) => &self.line,
            Usage::Bilevel(BilevelUse::Mask) => &self.mask,
        }
    }

    /// Keeps what was found for a use.
    pub(crate) fn note(&mut self, usage: Usage, found: Found)
        ensures { self.new ≡ with_found self.old usage found }
    {
        match usage {
            Usage::Contone => self.contone = found,
            Usage::Bilevel(BilevelUse::Line) => self.line = found,
            Usage::Bilevel(BilevelUse::Mask) => self.mask = found,
        }
    }
}
