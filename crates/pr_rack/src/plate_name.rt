// The final name and the temporary name of a plate's file.
ghost use Rattle.std.specs.Prelude.{◌≡◌, IfOk};
ghost use Rattle.pr_rack.specs.Delivery.{part_of};

use pr_base::{NoMemory, PathText};
use std::alloc::Global;
use std::marker::Model;

/// The path of a plate, and the name under which its file is written until it is complete.
#[derive(Drop)]
pub(crate) struct PlateName {
    plate: PathText,
    part: String,
}

impl Model for PlateName {
    ghost use Rattle.std.specs.Prelude.{◌≡◌, List, ℕ, string_bytes};
    ghost use Rattle.pr_rack.specs.Delivery.{part_of};

    ghost Value = { List ℕ };

    ghost view = { λ n. n.plate };

    ghost invariant = { λ n. string_bytes n.part ≡ part_of n.plate };
}

impl PlateName {
    /// Returns the names of the plate at `path`.
    pub(crate) fn of(alloc: Global, path: &str) -> Result<PlateName, NoMemory>
        ensures { IfOk result (λ name. name ≡ path.now) }
    {
        let plate = PathText::of(alloc, path)?;
        let part = format!(in alloc; "{path}.part")?;
        Ok(PlateName { plate, part })
    }

    /// Lends the plate's path.
    pub(crate) fn plate(&self) -> &str
        ensures { result.now ≡ self.now }
    {
        self.plate.as_str()
    }

    /// Lends the name under which the file is written.
    pub(crate) fn part(&self) -> &str
        ensures { result.now ≡ part_of self.now }
    {
        self.part.as_str()
    }
}
