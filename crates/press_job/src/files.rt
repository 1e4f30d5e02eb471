// The files of a plan in memory, with what their tests found.
ghost use Rattle.std.specs.Prelude.{◌≡◌, ◌++◌, ◌∷◌, [], OnOk, length, map};
ghost use Rattle.press_job.specs.Findings.{HasFound};
ghost use Rattle.press_job.specs.Layers.{bytes_at};
ghost use Rattle.tif_image.specs.Found.{IsFound};

use crate::findings::Findings;
use pr_base::NoMemory;
use std::alloc::Global;
use std::marker::Model;
use tif_image::{Found, Usage};

/// Files, each loaded whole, and what the tests of each found. Contracts see the lists of their bytes and of
/// their findings.
#[derive(Drop)]
pub(crate) struct Files {
    files: Vec<Vec<u8>>,
    found: Vec<Findings>,
}

impl Model for Files {
    ghost use Rattle.std.specs.Prelude.{map};
    ghost use Rattle.press_job.specs.Findings.{FilesData};

    ghost Value = { FilesData };

    ghost view = { λ f. record { bytes = map (λ file. file.items) f.files.items; found = f.found.items } };
}

impl Files {
    /// Returns an empty list of files.
    pub(crate) fn new(alloc: Global) -> Files
        ensures { result ≡ record { bytes = []; found = [] } }
    {
        Files {
            files: Vec::new(alloc),
            found: Vec::new(alloc),
        }
    }

    /// Appends a file.
    pub(crate) fn push(&mut self, bytes: Vec<u8>, found: Findings) -> Result<(), NoMemory>
        ensures { OnOk result (self.new
            ≡ record { bytes = self.old.bytes ++ bytes.items ∷ []; found = self.old.found ++ found ∷ [] }) }
    {
        self.files.push(bytes)?;
        self.found.push(found)?;
        Ok(())
    }

    /// Lends the bytes of each file, in order.
    pub(crate) fn each(&self) -> &[Vec<u8>]
        ensures { map (λ file. file.items) result.now ≡ self.now.bytes }
    {
        self.files.as_slice()
    }

    /// Lends the bytes of the file with this index; no bytes if the index is out of range.
    pub(crate) fn bytes(&self, file: usize) -> &[u8]
        ensures { result.now ≡ bytes_at self.now.bytes file }
    {
        match self.files.get(file) {
            Some(bytes) => bytes.as_slice(),
            None => &[],
        }
    }

    /// Lends what the tests of a file found for a use that it has passed.
    pub(crate) fn found(&self, file: usize, usage: Usage) -> &Found
        requires { HasFound self.now file usage }
        ensures { IsFound usage (bytes_at self.now.bytes file) result.now }
    {
        self.found[file].of(usage)
    }
}
