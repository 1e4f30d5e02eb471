// The trait of the racks, on which a site's plates are built and kept.
ghost use Rattle.std.specs.Prelude.{◌≡◌, ◌≤◌, ℕ, List, Bool, true, false, None, Option, Some, IfSome, OnOk};
ghost use Rattle.std.specs.Prelude.{OnErr, IsErrOf, is_some, length, map, slice_get, slice_set};
ghost use Rattle.tif_packbits.specs.Frame.{IsFrame, packed_in};
ghost use Rattle.ring_lanes.specs.declared.source.Source.{Source as SourceData};
ghost use Rattle.pr_base.specs.Count.{Rose};
ghost use Rattle.pr_rack.specs.declared.rack.RackCall.{RackCall as CallData};
ghost use Rattle.pr_rack.specs.Rack.{IsBehind, OthersBegun, OthersStand, Plate, Slots, finished_with};
ghost use Rattle.pr_rack.specs.Rack.{has_failed, missed_after, path_in, plate_in, with_more, with_plate};
ghost use Rattle.pr_rack.specs.Rack.{with_row};

use ring_lanes::Held;
use thiserror::Error;

/// Why a rack refused a call.
#[derive(Clone, Copy, Debug, PartialEq, Eq, Error)]
pub enum RackFault {
    /// The call failed. The rack has counted the failure.
    #[error("the plate could not be kept")]
    Failed,
    #[error("out of memory")]
    Memory,
}

/// The calls of a rack.
#[derive(Clone, Copy, PartialEq, Eq)]
pub enum RackCall {
    Begin,
    Row,
    Finish,
}

/// The rack of a site: five slots, numbered from 0, in which plates are built, and the finished plates. A
/// plate takes its rows only from rows that were taken out of a deck or a ring.
///
/// Implementers define what contracts see of the rack. `finished` lists the finished plates, each with its
/// path and its bytes; `working` is the content of each slot; `taken` is the number and the source of each
/// row; `missed` is the last call that failed, if any, with the path of its plate. Each may be unknown
/// (`None`); `finished` and `missed` are unknown wherever `working` is. `begun` is whether each slot is
/// begun, and `faults` counts the calls that returned `Failed`, up to 2^64 - 1.
///
/// To callers, a refusal means that `faults` rose in that call, which they cannot bring about themselves, or
/// that the rack ran out of memory. They do not use that slot again. No call changes another slot.
pub trait Rack {
    /// The path and the bytes of each finished plate, in order, where known.
    ghost finished: { Self → Option (List Plate) };

    /// The path and the bytes of the plate in each begun slot, where known.
    ghost working: { Self → Option Slots };

    /// Whether each slot is begun.
    ghost begun: { Self → List Bool };

    /// The number and the source of each row taken, in order, where known.
    ghost taken: { Self → Option (List (ℕ × SourceData)) };

    /// The last call that returned `Failed`, if any, and the path of its plate, where known.
    ghost missed: { Self → Option (Option (CallData × List ℕ)) };

    /// The number of calls that returned `Failed`.
    ghost faults: { Self → ℕ };

    /// Begins the plate at `path` in an empty slot, with the eight bytes before its rows.
    fn begin(&mut self, slot: usize, path: &str, head: &[u8]) -> Result<(), RackFault>
        requires empty { slice_get (begun self.old) slot ≡ Some false }
        requires head { length head.now ≡ 8 }
        ensures begun { OnOk result (begun self.new ≡ slice_set (begun self.old) slot true) }
        ensures working { OnOk result
            (working self.new ≡ with_plate slot (Some (path.now, head.now)) (working self.old)) }
        ensures others_begun { OnErr result (OthersBegun slot (begun self.old) (begun self.new)) }
        ensures others_stand { OnErr result (OthersStand slot (working self.old) (working self.new)) }
        ensures finished { finished self.new ≡ finished self.old }
        ensures taken { taken self.new ≡ taken self.old }
        ensures missed { missed self.new
            ≡ missed_after (has_failed result) RackCall.Begin path.now (missed self.old) }
        ensures counted { IsErrOf result RackFault.Failed → Rose (faults self.old) (faults self.new) }
        ensures faults_stay { faults self.old ≤ faults self.new };

    /// Appends the packed bytes of a row, which was taken as a frame, to the plate in a slot.
    fn row(&mut self, slot: usize, held: &Held) -> Result<(), RackFault>
        requires begun { slice_get (begun self.old) slot ≡ Some true }
        requires frame { IsFrame held.now.bytes }
        ensures begun { OnOk result (begun self.new ≡ begun self.old) }
        ensures working { OnOk result
            (working self.new ≡ with_more slot (packed_in held.now.bytes) (working self.old)) }
        ensures taken { OnOk result
            (taken self.new ≡ with_row held.now.number held.now.source (taken self.old)) }
        ensures others_begun { OnErr result (OthersBegun slot (begun self.old) (begun self.new)) }
        ensures others_stand { OnErr result (OthersStand slot (working self.old) (working self.new)) }
        ensures untaken { OnErr result (taken self.new ≡ taken self.old) }
        ensures finished { finished self.new ≡ finished self.old }
        ensures missed { missed self.new
            ≡ missed_after (has_failed result) RackCall.Row (path_in (working self.old) slot)
            (missed self.old) }
        ensures counted { IsErrOf result RackFault.Failed → Rose (faults self.old) (faults self.new) }
        ensures faults_stay { faults self.old ≤ faults self.new };

    /// Finishes the plate in a slot: appends `tail` to its rows, and writes the offset `at` of its directory
    /// to bytes 4 to 7, least significant byte first. The directory directly follows the rows, so `tail`
    /// contains no row.
    fn finish(&mut self, slot: usize, tail: &[u8], at: u32) -> Result<(), RackFault>
        requires begun { slice_get (begun self.old) slot ≡ Some true }
        requires place { IfSome (plate_in (working self.old) slot) (λ plate. IsBehind (length plate.1) at) }
        ensures begun { OnOk result (begun self.new ≡ slice_set (begun self.old) slot false) }
        ensures working { OnOk result (working self.new ≡ with_plate slot None (working self.old)) }
        ensures finished { OnOk result
            (finished self.new ≡ finished_with (working self.old) slot tail.now at (finished self.old)) }
        ensures others_begun { OnErr result (OthersBegun slot (begun self.old) (begun self.new)) }
        ensures others_stand { OnErr result (OthersStand slot (working self.old) (working self.new)) }
        ensures unfinished { OnErr result (finished self.new ≡ finished self.old) }
        ensures taken { taken self.new ≡ taken self.old }
        ensures missed { missed self.new
            ≡ missed_after (has_failed result) RackCall.Finish (path_in (working self.old) slot)
            (missed self.old) }
        ensures counted { IsErrOf result RackFault.Failed → Rose (faults self.old) (faults self.new) }
        ensures faults_stay { faults self.old ≤ faults self.new };

    /// The finished plates are known only where the slots are.
    ghost finished_told: { (rack : Self) → working rack ≡ None → finished rack ≡ None };

    /// The call that failed is known only where the slots are.
    ghost missed_told: { (rack : Self) → working rack ≡ None → missed rack ≡ None };

    /// Where the slots are known, a slot is begun exactly if it holds a plate.
    ghost begun_told: { (rack : Self) → IfSome (working rack) (λ slots. begun rack ≡ map is_some slots) };
}
