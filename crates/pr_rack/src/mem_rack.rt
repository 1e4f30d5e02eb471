// A transparent rack in memory, which fails at chosen calls.
ghost use Rattle.std.specs.Prelude.{refl, ◌≡◌, ◌≤◌, ◌⊎◌, [], true, false, None, Some, Contains, IsTrue, OnOk};
ghost use Rattle.std.specs.Prelude.{OnErr, IfOk, IfErr, IfSome, IsErrOf, is_some, length, map, slice_get};
ghost use Rattle.std.specs.Prelude.{slice_set};
ghost use Rattle.tif_packbits.specs.Frame.{IsFrame, packed_in};
ghost use Rattle.pr_base.specs.Count.{Rose, count_after};
ghost use Rattle.pr_rack.specs.Mem.{IsAfter, after_begin, after_finish, after_row, empty_slots, files_of};
ghost use Rattle.pr_rack.specs.Mem.{plate_of};
ghost use Rattle.pr_rack.specs.Rack.{IsBehind, OthersBegun, OthersStand, finished_with, has_failed};
ghost use Rattle.pr_rack.specs.Rack.{missed_after, path_in, plate_in, with_more, with_plate, with_row};

use crate::misses::Misses;
use crate::slots::{Plate, Slots};
use crate::{Rack, RackCall, RackFault};
use byteorder::{ByteOrder, LittleEndian};
use pr_base::{PathText, raised};
use ring_lanes::{Held, Source};
use std::alloc::Global;
use std::marker::Model;
use tif_packbits::framed;

/// A rack in memory. Calls are numbered from 0; the calls whose numbers are in `failing` fail. Numbers above
/// 2^64 - 1 count as 2^64 - 1.
#[derive(Drop)]
pub struct MemRack {
    alloc: Global,
    slots: Slots,
    files: Vec<Plate>,
    taken: Vec<(u64, Source)>,
    failing: Vec<u64>,
    calls: u64,
    misses: Misses,
}

impl Model for MemRack {
    ghost use Rattle.pr_rack.specs.Mem.{MemState, files_of};

    ghost Value = { MemState };

    ghost view = { λ r. record {
      slots = r.slots;
      files = files_of r.files.items;
      taken = r.taken.items;
      failing = r.failing.items;
      calls = r.calls;
      misses = r.misses;
    } };
}

impl MemRack {
    /// Returns an empty rack that fails at the calls with these numbers.
    pub fn new(alloc: Global, failing: Vec<u64>) -> MemRack
        ensures { result ≡ record {
          slots = empty_slots;
          files = [];
          taken = [];
          failing = failing.items;
          calls = 0;
          misses = record { faults = 0; missed = None };
        } }
    {
        MemRack {
            alloc,
            slots: Slots::new(),
            files: Vec::new(alloc),
            taken: Vec::new(alloc),
            failing,
            calls: 0,
            misses: Misses::new(),
        }
    }

    /// Lends the finished plates, each with its path and its bytes.
    pub fn files(&self) -> &[(PathText, Vec<u8>)]
        ensures { files_of result.now ≡ self.now.files }
    {
        self.files.as_slice()
    }

    /// Lends the number and the source of each row taken.
    pub fn taken(&self) -> &[(u64, Source)]
        ensures { result.now ≡ self.now.taken }
    {
        self.taken.as_slice()
    }

    /// Counts a call. Returns whether it is one that fails.
    fn fails(&mut self) -> bool
        ensures listed { IsTrue result → Contains self.old.failing self.old.calls }
        ensures unlisted { Contains self.old.failing self.old.calls → IsTrue result }
        ensures counted { self.new ≡ record self.old { calls = count_after self.old.calls } }
    {
        let fails = self.failing.contains(&self.calls);
        self.calls = raised(self.calls);
        fails
    }
}

/// Returns a plate at `path` that begins with `head`.
fn begun(alloc: Global, path: &str, head: &[u8]) -> Result<Plate, RackFault>
    ensures plate { IfOk result (λ plate. plate_of plate ≡ (path.now, head.now)) }
    ensures memory { IfErr result (λ fault. fault ≡ RackFault.Memory) }
{
    let path = PathText::of(alloc, path).map_err(|_| RackFault::Memory)?;
    let bytes = head.to_vec(alloc).map_err(|_| RackFault::Memory)?;
    Ok((path, bytes))
}

impl Rack for MemRack {
    ghost finished = { λ r. Some r.files };

    ghost working = { λ r. Some r.slots };

    ghost begun = { λ r. map is_some r.slots };

    ghost taken = { λ r. Some r.taken };

    ghost missed = { λ r. Some r.misses.missed };

    ghost faults = { λ r. r.misses.faults };

    ghost finished_told = { λ r h. Prim.cc };

    ghost missed_told = { λ r h. Prim.cc };

    ghost begun_told = { λ r. refl };

    fn begin(&mut self, slot: usize, path: &str, head: &[u8]) -> Result<(), RackFault>
        requires empty { slice_get (map is_some self.old.slots) slot ≡ Some false }
        requires head { length head.now ≡ 8 }
        ensures begun { OnOk result
            (map is_some self.new.slots ≡ slice_set (map is_some self.old.slots) slot true) }
        ensures working { OnOk result
            (Some self.new.slots ≡ with_plate slot (Some (path.now, head.now)) (Some self.old.slots)) }
        ensures others_begun { OnErr result
            (OthersBegun slot (map is_some self.old.slots) (map is_some self.new.slots)) }
        ensures others_stand { OnErr result (OthersStand slot (Some self.old.slots) (Some self.new.slots)) }
        ensures finished { Some self.new.files ≡ Some self.old.files }
        ensures taken { Some self.new.taken ≡ Some self.old.taken }
        ensures missed { Some self.new.misses.missed
            ≡ missed_after (has_failed result) RackCall.Begin path.now (Some self.old.misses.missed) }
        ensures counted { IsErrOf result RackFault.Failed
            → Rose self.old.misses.faults self.new.misses.faults }
        ensures faults_stay { self.old.misses.faults ≤ self.new.misses.faults }

        ensures fails { IsErrOf result RackFault.Failed → Contains self.old.failing self.old.calls }
        ensures fails_there { Contains self.old.failing self.old.calls
            → IsErrOf result RackFault.Failed ⊎ IsErrOf result RackFault.Memory }
        ensures after { IsAfter self.old self.new RackCall.Begin path.now
            (after_begin self.old slot path.now head.now) result }
    {
        if self.fails() {
            return Err(self.misses.miss(self.alloc, RackCall::Begin, path));
        }
        let plate = begun(self.alloc, path, head)?;
        self.slots.put(slot, plate);
        Ok(())
    }

    #[tactic(auto, using(crate::proofs::OneSlot::others_begun, crate::proofs::OneSlot::others_stand))]
    fn row(&mut self, slot: usize, held: &Held) -> Result<(), RackFault>
        requires begun { slice_get (map is_some self.old.slots) slot ≡ Some true }
        requires frame { IsFrame held.now.bytes }
        ensures begun { OnOk result (map is_some self.new.slots ≡ map is_some self.old.slots) }
        ensures working { OnOk result
            (Some self.new.slots ≡ with_more slot (packed_in held.now.bytes) (Some self.old.slots)) }
        ensures taken { OnOk result
            (Some self.new.taken ≡ with_row held.now.number held.now.source (Some self.old.taken)) }
        ensures others_begun { OnErr result
            (OthersBegun slot (map is_some self.old.slots) (map is_some self.new.slots)) }
        ensures others_stand { OnErr result (OthersStand slot (Some self.old.slots) (Some self.new.slots)) }
        ensures untaken { OnErr result (Some self.new.taken ≡ Some self.old.taken) }
        ensures finished { Some self.new.files ≡ Some self.old.files }
        ensures missed { Some self.new.misses.missed
            ≡ missed_after (has_failed result) RackCall.Row (path_in (Some self.old.slots) slot)
            (Some self.old.misses.missed) }
        ensures counted { IsErrOf result RackFault.Failed
            → Rose self.old.misses.faults self.new.misses.faults }
        ensures faults_stay { self.old.misses.faults ≤ self.new.misses.faults }

        ensures fails { IsErrOf result RackFault.Failed → Contains self.old.failing self.old.calls }
        ensures fails_there { Contains self.old.failing self.old.calls
            → IsErrOf result RackFault.Failed ⊎ IsErrOf result RackFault.Memory }
        ensures after { IsAfter self.old self.new RackCall.Row (path_in (Some self.old.slots) slot)
            (after_row self.old slot held.now) result }
    {
        if self.fails() {
            let path = self.slots.path(slot);
            return Err(self.misses.miss(self.alloc, RackCall::Row, path));
        }
        let (path, mut bytes) = self.slots.take(slot);
        if bytes.extend_from_slice(framed(held.bytes())).is_err() {
            return Err(RackFault::Memory);
        }
        if self.taken.push((held.number(), held.source())).is_err() {
            return Err(RackFault::Memory);
        }
        self.slots.put(slot, (path, bytes));
        Ok(())
    }

    #[tactic(auto, using(crate::proofs::OneSlot::others_begun, crate::proofs::OneSlot::others_stand))]
    fn finish(&mut self, slot: usize, tail: &[u8], at: u32) -> Result<(), RackFault>
        requires begun { slice_get (map is_some self.old.slots) slot ≡ Some true }
        requires place { IfSome (plate_in (Some self.old.slots) slot)
            (λ plate. IsBehind (length plate.1) at) }
        ensures begun { OnOk result
            (map is_some self.new.slots ≡ slice_set (map is_some self.old.slots) slot false) }
        ensures working { OnOk result (Some self.new.slots ≡ with_plate slot None (Some self.old.slots)) }
        ensures finished { OnOk result
            (Some self.new.files
            ≡ finished_with (Some self.old.slots) slot tail.now at (Some self.old.files)) }
        ensures others_begun { OnErr result
            (OthersBegun slot (map is_some self.old.slots) (map is_some self.new.slots)) }
        ensures others_stand { OnErr result (OthersStand slot (Some self.old.slots) (Some self.new.slots)) }
        ensures unfinished { OnErr result (Some self.new.files ≡ Some self.old.files) }
        ensures taken { Some self.new.taken ≡ Some self.old.taken }
        ensures missed { Some self.new.misses.missed
            ≡ missed_after (has_failed result) RackCall.Finish (path_in (Some self.old.slots) slot)
            (Some self.old.misses.missed) }
        ensures counted { IsErrOf result RackFault.Failed
            → Rose self.old.misses.faults self.new.misses.faults }
        ensures faults_stay { self.old.misses.faults ≤ self.new.misses.faults }

        ensures fails { IsErrOf result RackFault.Failed → Contains self.old.failing self.old.calls }
        ensures fails_there { Contains self.old.failing self.old.calls
            → IsErrOf result RackFault.Failed ⊎ IsErrOf result RackFault.Memory }
        ensures after { IsAfter self.old self.new RackCall.Finish (path_in (Some self.old.slots) slot)
            (after_finish self.old slot tail.now at) result }
    {
        if self.fails() {
            let path = self.slots.path(slot);
            return Err(self.misses.miss(self.alloc, RackCall::Finish, path));
        }
        let (path, mut bytes) = self.slots.take(slot);
        if bytes.extend_from_slice(tail).is_err() {
            return Err(RackFault::Memory);
        }
        LittleEndian::write_u32(&mut bytes.as_mut_slice()[4..8], at);
        if self.files.push((path, bytes)).is_err() {
            return Err(RackFault::Memory);
        }
        Ok(())
    }
}
