// A rack in memory that never fails.
ghost use Rattle.std.specs.Prelude.{◌≡◌, [], None, Some, is_some, map, refl};
ghost use Rattle.pr_rack.specs.Mem.{empty_slots, files_of as plates_of};

use pr_base::PathText;
use pr_rack::{MemRack, Rack, RackFault};
use ring_lanes::Held;
use std::alloc::Global;
use std::marker::Model;

/// A rack in memory on which no call fails, except for lack of memory.
#[derive(Drop)]
pub struct SureRack {
    rack: MemRack,
}

impl Model for SureRack {
    ghost use Rattle.pr_rack.specs.Mem.{MemState};
    ghost use Rattle.drill_mem.specs.Sure.{IsSureRack};

    ghost Value = { MemState };

    ghost view = { λ r. r.rack };

    ghost invariant = { λ r. IsSureRack r.rack };
}

impl SureRack {
    /// Returns an empty rack.
    pub fn new(alloc: Global) -> SureRack
        ensures slots { result.slots ≡ empty_slots }
        ensures files { result.files ≡ [] }
        ensures taken { result.taken ≡ [] }
    {
        SureRack {
            rack: MemRack::new(alloc, Vec::new(alloc)),
        }
    }

    /// Lends the finished plates, each with its path and its bytes.
    pub fn files(&self) -> &[(PathText, Vec<u8>)]
        ensures { plates_of result.now ≡ self.now.files }
    {
        self.rack.files()
    }
}

impl Rack for SureRack {
    ghost finished = { λ r. Some r.files };

    ghost working = { λ r. Some r.slots };

    ghost begun = { λ r. map is_some r.slots };

    ghost taken = { λ r. Some r.taken };

    ghost missed = { λ r. Some r.misses.missed };

    ghost faults = { λ r. 0 };

    ghost finished_told = { λ r h. Prim.cc };

    ghost missed_told = { λ r h. Prim.cc };

    ghost begun_told = { λ r. refl };

    fn begin(&mut self, slot: usize, path: &str, head: &[u8]) -> Result<(), RackFault> {
        self.rack.begin(slot, path, head)
    }

    fn row(&mut self, slot: usize, held: &Held) -> Result<(), RackFault> {
        self.rack.row(slot, held)
    }

    fn finish(&mut self, slot: usize, tail: &[u8], at: u32) -> Result<(), RackFault> {
        self.rack.finish(slot, tail, at)
    }
}
