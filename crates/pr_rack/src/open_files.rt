// The open files of a rack on the machine.
ghost use Rattle.std.specs.Prelude.{◌≡◌, ◌<◌, true, false, Some, length, slice_get, slice_set};
ghost use Rattle.pr_rack.specs.Rack.{none_begun};

use crate::begun_plate::BegunPlate;
use std::marker::Model;

/// The plate of each begun slot. Contracts see which slots are begun.
#[derive(Drop)]
pub(crate) struct OpenFiles {
    files: [Option<BegunPlate>; 5],
}

impl Model for OpenFiles {
    ghost use Rattle.std.specs.Prelude.{Bool, List, is_some, map};

    ghost Value = { List Bool };

    ghost view = { λ o. map is_some o.files };
}

impl OpenFiles {
    /// Returns five empty slots.
    pub(crate) fn new() -> OpenFiles
        ensures { result ≡ none_begun }
    {
        OpenFiles {
            files: [None, None, None, None, None],
        }
    }

    /// Takes the plate out of a slot.
    pub(crate) fn take(&mut self, slot: usize) -> BegunPlate
        requires { slice_get self.old slot ≡ Some true }
        ensures { self.new ≡ slice_set self.old slot false }
    {
        let files = &mut self.files[..];
        match files[slot].take() {
            Some(file) => file,
            None => unreachable!(),
        }
    }

    /// Puts a plate into a slot.
    pub(crate) fn put(&mut self, slot: usize, file: BegunPlate)
        requires { slot < length self.old }
        ensures { self.new ≡ slice_set self.old slot true }
    {
        let files = &mut self.files[..];
        files[slot] = Some(file);
    }
}
