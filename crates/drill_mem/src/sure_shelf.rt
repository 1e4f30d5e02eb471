// A shelf in memory that fails only for paths it does not hold.
ghost use Rattle.std.specs.Prelude.{◌≡◌, [], None, Some, map, nat_eq};
ghost use Rattle.std.specs.Cmp.Lexicographic.{pointwise};
ghost use Rattle.std.specs.List.{IsDistinct};
ghost use Rattle.std.specs.Option.{ForSome};
ghost use Rattle.pr_ports.specs.Mem.{files_of};
ghost use Rattle.pr_ports.specs.Shelf.{held_at};

use pr_base::PathText;
use pr_ports::{LoadFault, MemShelf, Shelf};
use std::alloc::Global;
use std::marker::Model;

/// A shelf in memory on which a load fails only if the path is not held.
#[derive(Drop)]
pub struct SureShelf {
    shelf: MemShelf,
}

impl Model for SureShelf {
    ghost use Rattle.pr_ports.specs.Mem.{ShelfState};
    ghost use Rattle.drill_mem.specs.Sure.{IsSureShelf};

    ghost Value = { ShelfState };

    ghost view = { λ s. s.shelf };

    ghost invariant = { λ s. IsSureShelf s.shelf };
}

impl SureShelf {
    /// Returns a shelf of these files.
    pub fn new(alloc: Global, files: Vec<(PathText, Vec<u8>)>) -> SureShelf
        requires { IsDistinct (pointwise nat_eq) (map (λ file. file.0) (files_of files.items)) }
        ensures files { result.files ≡ files_of files.items }
    {
        SureShelf {
            shelf: MemShelf::new(alloc, files, Vec::new(alloc)),
        }
    }

    /// States that the path of the last failed load is not held.
    pub fn lacks_what_it_missed(&self)
        ensures { ForSome self.now.missed (λ path. held_at self.now.files path ≡ None) }
    {
        // Reading the field makes the invariant available to the proof.
        let _shelf = &self.shelf;
    }
}

impl Shelf for SureShelf {
    ghost held = { λ s. Some s.files };

    ghost missed = { λ s. Some s.missed };

    ghost faults = { λ s. s.faults };

    ghost longs = { λ s. s.longs };

    fn load(&mut self, path: &str, limit: u64) -> Result<Vec<u8>, LoadFault> {
        self.shelf.load(path, limit)
    }
}
