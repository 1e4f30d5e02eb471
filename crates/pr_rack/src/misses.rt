// The failures of a rack in memory.
ghost use Rattle.std.specs.Prelude.{◌≡◌, ◌≤◌, None};
ghost use Rattle.pr_rack.specs.Mem.{Misses as IsMissed, MissState};

use crate::{RackCall, RackFault};
use pr_base::{PathText, raised};
use std::alloc::Global;
use std::marker::Model;

/// The number of failed calls, and the last of them with the path of its plate.
#[derive(Drop)]
pub(crate) struct Misses {
    faults: u64,
    missed: Option<(RackCall, PathText)>,
}

impl Model for Misses {
    ghost use Rattle.pr_rack.specs.Mem.{MissState};

    ghost Value = { MissState };

    ghost view = { λ m. record { faults = m.faults; missed = m.missed } };
}

impl Misses {
    /// Returns the state before any failure.
    pub(crate) fn new() -> Misses
        ensures { result ≡ record { faults = 0; missed = None } }
    {
        Misses {
            faults: 0,
            missed: None,
        }
    }

    /// Counts a failure of `call` for the plate at `path`. Returns `Memory`, and counts nothing, if the path
    /// cannot be copied.
    pub(crate) fn miss(&mut self, alloc: Global, call: RackCall, path: &str) -> RackFault
        ensures cases { IsMissed self.old self.new call path.now result }
        ensures faults_stay { self.old.faults ≤ self.new.faults }
    {
        match PathText::of(alloc, path) {
            Ok(path) => {
                self.missed = Some((call, path));
                self.faults = raised(self.faults);
                RackFault::Failed
            }
            Err(_) => RackFault::Memory,
        }
    }
}
