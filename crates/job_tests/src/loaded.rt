// A shelf that lends files to jobs.
ghost use Rattle.std.specs.Prelude.{None};

use pr_base::{PathText, raised};
use pr_ports::{LoadFault, Shelf};
use std::alloc::Global;

/// A shelf with these files. Its contracts report nothing of them.
#[derive(Drop)]
pub struct Loaded<'a> {
    pub alloc: Global,
    pub files: &'a [(PathText, Vec<u8>)],
    pub faults: u64,
    pub longs: u64,
}

impl<'a> Shelf for Loaded<'a> {
    ghost held = { λ _. None };

    ghost missed = { λ _. None };

    ghost faults = { λ s. s.faults };

    ghost longs = { λ s. s.longs };

    fn load(&mut self, path: &str, limit: u64) -> Result<Vec<u8>, LoadFault> {
        let Some(file) = self.files.iter().find(|file| file.0.as_str() == path) else {
            self.faults = raised(self.faults);
            return Err(LoadFault::Failed);
        };
        if file.1.len() as u64 > limit {
            self.longs = raised(self.longs);
            return Err(LoadFault::TooLong { limit });
        }
        match file.1.as_slice().to_vec(self.alloc) {
            Ok(bytes) => Ok(bytes),
            Err(_) => Err(LoadFault::Memory),
        }
    }
}
