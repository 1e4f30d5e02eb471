// The slots of a rack in memory.
ghost use Rattle.std.specs.Prelude.{◌≡◌, ◌<◌, ◌≤◌, true, None, Some, is_some, length, map, slice_get};
ghost use Rattle.std.specs.Prelude.{slice_index_or, slice_set};
ghost use Rattle.pr_rack.specs.Mem.{empty_slots, plate_of};
ghost use Rattle.pr_rack.specs.Rack.{path_in};

use pr_base::PathText;
use std::marker::Model;

/// A plate: its path and its bytes.
pub(crate) type Plate = (PathText, Vec<u8>);

/// The plates under construction, each in its slot. A plate has at least the eight bytes before its rows.
#[derive(Drop)]
pub(crate) struct Slots {
    plates: [Option<Plate>; 5],
}

impl Model for Slots {
    ghost use Rattle.pr_rack.specs.Mem.{AreBegun, slots_of};
    ghost use Rattle.pr_rack.specs.Rack.{Slots as SlotsData};

    ghost Value = { SlotsData };

    ghost view = { λ s. slots_of s.plates };

    ghost invariant = { λ s. AreBegun s.plates };
}

impl Slots {
    /// Returns five empty slots.
    pub(crate) fn new() -> Slots
        ensures { result ≡ empty_slots }
    {
        Slots {
            plates: [None, None, None, None, None],
        }
    }

    /// Lends the path of the plate in a slot.
    pub(crate) fn path(&self, slot: usize) -> &str
        requires { slice_get (map is_some self.now) slot ≡ Some true }
        ensures { result.now ≡ path_in (Some self.now) slot }
    {
        let plates = &self.plates[..];
        match &plates[slot] {
            Some(plate) => plate.0.as_str(),
            None => unreachable!(),
        }
    }

    /// Takes the plate out of a slot, leaving the slot empty.
    pub(crate) fn take(&mut self, slot: usize) -> Plate
        requires { slice_get (map is_some self.old) slot ≡ Some true }
        ensures plate { slice_index_or self.old slot None ≡ Some (plate_of result) }
        ensures head { 8 ≤ length result.1.items }
        ensures after { self.new ≡ slice_set self.old slot None }
    {
        let plates = &mut self.plates[..];
        match plates[slot].take() {
            Some(plate) => plate,
            None => unreachable!(),
        }
    }

    /// Puts a plate into a slot.
    pub(crate) fn put(&mut self, slot: usize, plate: Plate)
        requires slot { slot < length self.old }
        requires head { 8 ≤ length plate.1.items }
        ensures { self.new ≡ slice_set self.old slot (Some (plate_of plate)) }
    {
        let plates = &mut self.plates[..];
        plates[slot] = Some(plate);
    }
}
