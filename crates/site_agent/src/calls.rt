// The calls of the rack for one row of a plate.
ghost use Rattle.std.specs.Prelude.{◌≡◌, ◌+◌, ◌-◌, ◌<◌, ◌≤◌, None, Some, IfErr, IfSome, OnErr, OnOk, length};
ghost use Rattle.std.specs.Prelude.{nat_lt, slice_get, slice_index_or, sum, true};
ghost use Rattle.std.specs.Option.{option_map};
ghost use Rattle.tif_packbits.specs.Frame.{IsFrame, packed_in};
ghost use Rattle.tif_plate.specs.Tail.{strips_end};
ghost use Rattle.pr_rack.specs.Rack.{IsBehind, path_in, plate_in};
ghost use Rattle.pr_rack.specs.Told.{told};
ghost use Rattle.site_agent.specs.Refused.{AnswersCall, IsStopped, OthersStay};
ghost use Rattle.site_agent.specs.Stands.{IsAsLong};
ghost use Rattle.site_agent.specs.Tells.{after_row, begun_at, finished_at, with_closed, with_taken};

use crate::plate::SitePlate;
use plate_bytes::PlateStrips;
use pr_rack::{Rack, RackCall, RackFault};
use ring_lanes::Held;
use tif_plate::plate_front;

/// A call that the rack refused, and the fault it returned.
#[derive(Clone, Copy)]
pub(crate) struct Refusal {
    pub(crate) call: RackCall,
    pub(crate) fault: RackFault,
}

/// Begins a plate if `y` is its first row.
fn begin<R: Rack>(plate: &SitePlate, y: u32, rack: &mut R) -> Result<(), Refusal>
    requires { slice_get (R.begun rack.old) plate.now.slot ≡ Some (nat_lt 0 y) }
    ensures ok { OnOk result (
        (told R.Rack rack.new).tells
        ≡ begun_at y plate.now
        (told R.Rack rack.old).tells) }
    ensures first { IfErr result (λ _. y ≡ 0) }
    ensures answers { AnswersCall RackCall.Begin plate.now.path plate.now.slot
        (told R.Rack rack.old) (told R.Rack rack.new) result }
{
    if y > 0 {
        return Ok(());
    }
    match rack.begin(plate.slot, plate.path.as_str(), &plate_front()) {
        Ok(()) => Ok(()),
        Err(fault) => Err(Refusal {
            call: RackCall::Begin,
            fault,
        }),
    }
}

/// Appends a row to the begun plate.
fn take<R: Rack>(plate: &SitePlate, held: &Held, rack: &mut R) -> Result<(), Refusal>
    requires begun { slice_get (R.begun rack.old) plate.now.slot ≡ Some true }
    requires frame { IsFrame held.now.bytes }
    requires path { IfSome (R.working rack.old) (λ slots.
        path_in (Some slots) plate.now.slot ≡ plate.now.path) }
    ensures ok { OnOk result (
        (told R.Rack rack.new).tells
        ≡ with_taken plate.now.slot held.now.number held.now.bytes held.now.source
        (told R.Rack rack.old).tells) }
    ensures answers { AnswersCall RackCall.Row plate.now.path plate.now.slot
        (told R.Rack rack.old) (told R.Rack rack.new) result }
{
    match rack.row(plate.slot, held) {
        Ok(()) => Ok(()),
        Err(fault) => Err(Refusal {
            call: RackCall::Row,
            fault,
        }),
    }
}

/// Finishes the begun plate with this tail and this offset of its directory.
fn finish<R: Rack>(plate: &SitePlate, tail: &[u8], at: u32, rack: &mut R) -> Result<(), Refusal>
    requires begun { slice_get (R.begun rack.old) plate.now.slot ≡ Some true }
    requires path { IfSome (R.working rack.old) (λ slots.
        path_in (Some slots) plate.now.slot ≡ plate.now.path) }
    requires place { IfSome (plate_in (R.working rack.old) plate.now.slot) (λ held.
        IsBehind (length held.1) at) }
    ensures ok { OnOk result (
        (told R.Rack rack.new).tells
        ≡ with_closed plate.now.slot tail.now at
        (told R.Rack rack.old).tells) }
    ensures answers { AnswersCall RackCall.Finish plate.now.path plate.now.slot
        (told R.Rack rack.old) (told R.Rack rack.new) result }
{
    match rack.finish(plate.slot, tail, at) {
        Ok(()) => Ok(()),
        Err(fault) => Err(Refusal {
            call: RackCall::Finish,
            fault,
        }),
    }
}

/// Finishes the begun plate, whose strips are these, if `y` is its last row.
fn end<R: Rack>(
    plate: &SitePlate,
    y: u32,
    strips: &mut PlateStrips,
    rack: &mut R,
) -> Result<(), Refusal>
    requires y { y < strips.old.sides.height }
    requires begun { slice_get (R.begun rack.old) plate.now.slot ≡ Some true }
    requires stands { IfSome (R.working rack.old) (IsAsLong plate.now (strips_end strips.old.counts)) }
    ensures ok { OnOk result (
        (told R.Rack rack.new).tells
        ≡ finished_at strips.old.sides y plate.now strips.old.counts
        (told R.Rack rack.old).tells) }
    ensures last { IfErr result (λ _. y + 1 ≡ strips.old.sides.height) }
    ensures answers { AnswersCall RackCall.Finish plate.now.path plate.now.slot
        (told R.Rack rack.old) (told R.Rack rack.new) result }
    ensures strips { strips.new ≡ record strips.old { room = strips.new.room } }
{
    if y < strips.sides().height - 1 {
        return Ok(());
    }
    let tail = strips.write_tail();
    finish(plate, strips.tail(tail.len), tail.at, rack)
}

/// Processes row `y` of a plate: begins the plate if this is its first row, appends the row, and finishes the
/// plate if this is its last. `strips` has counted the row.
pub(crate) fn deliver<R: Rack>(
    plate: &SitePlate,
    y: u32,
    strips: &mut PlateStrips,
    held: &Held,
    rack: &mut R,
) -> Result<(), Refusal>
    requires y { y < strips.old.sides.height }
    requires frame { IsFrame held.now.bytes }
    requires begun { slice_get (R.begun rack.old) plate.now.slot ≡ Some (nat_lt 0 y) }
    requires fits { length (packed_in held.now.bytes) ≤ sum strips.old.counts }
    requires first { y ≡ 0 → sum strips.old.counts ≡ length (packed_in held.now.bytes) }
    requires stands { 0 < y → IfSome (R.working rack.old)
        (IsAsLong plate.now (strips_end strips.old.counts - length (packed_in held.now.bytes))) }
    ensures ok { OnOk result (
        (told R.Rack rack.new).tells
        ≡ after_row strips.old.sides plate.now y held.now.number held.now.bytes held.now.source
        strips.old.counts
        (told R.Rack rack.old).tells) }
    ensures err { IfErr result (
        IsStopped strips.old.sides.height y held.now.number held.now.source plate.now.path
        (told R.Rack rack.old) (told R.Rack rack.new)) }
    ensures others_stay { OnErr result (OthersStay plate.now.slot
        (told R.Rack rack.old).tells (told R.Rack rack.new).tells) }
    ensures missed_stay { OnOk result (R.missed rack.new ≡ R.missed rack.old) }
    ensures faults_stay { R.faults rack.old ≤ R.faults rack.new }
    ensures strips { strips.new ≡ record strips.old { room = strips.new.room } }
{
    begin(plate, y, rack)?;
    take(plate, held, rack)?;
    end(plate, y, strips, rack)
}
