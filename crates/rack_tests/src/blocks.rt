// The rack on the machine, with plates longer than its write buffer.
ghost use Rattle.std.specs.Prelude.{◌≡◌, true, OnOk, Some, slice_get};
ghost use Rattle.tif_packbits.specs.Frame.{IsFrame};
ghost use Rattle.pr_rack.specs.Rack.{none_begun};

use crate::folder::{folder_of, paths_in};
use crate::machine::{HEAD, OneRow};
use pr_rack::{HostRack, Rack, RackFault};
use ring_lanes::{Deck, Held};
use std::fs;
use tif_packbits::frame_row;

// The rows of a plate: a block ends within a row, and the rest does not fill a block.
const ROWS: usize = 30_000;

const PACKED: [u8; 3] = [1, 0xAB, 0];

// The offset of the directory after 8 + 3 * 30,000 bytes: 90,008.
const PLACE: [u8; 4] = [0x98, 0x5F, 1, 0];

// Appends all rows to two plates, in turn.
fn put_rows(rack: &mut HostRack<HostRuntime>, held: &Held) -> Result<(), RackFault>
    requires first { slice_get rack.old.begun 0 ≡ Some true }
    requires second { slice_get rack.old.begun 1 ≡ Some true }
    requires frame { IsFrame held.now.bytes }
    ensures { OnOk result (rack.new.begun ≡ rack.old.begun) }
{
    for _row in 0..ROWS {
        rack.row(0, held)?;
        rack.row(1, held)?;
    }
    Ok(())
}

// Begins two plates and appends their rows. The first is finished, the second is not.
fn build(
    rack: &mut HostRack<HostRuntime>,
    held: &Held,
    first: &str,
    second: &str,
) -> Result<(), RackFault>
    requires empty { rack.old.begun ≡ none_begun }
    requires frame { IsFrame held.now.bytes }
{
    rack.begin(0, first, &HEAD)?;
    rack.begin(1, second, &HEAD)?;
    put_rows(rack, held)?;
    rack.finish(0, &[0, 7], 90_008)
}

// Whether that succeeds. The rack is dropped afterwards.
fn is_built(rt: &HostRuntime, held: &Held, first: &str, second: &str) -> bool
    requires { IsFrame held.now.bytes }
{
    let Ok(rt) = rt.clone() else {
        return false;
    };
    build(&mut HostRack::new(rt), held, first, second).is_ok()
}

// Whether the file has this offset in its head, all rows and this tail.
fn has_plate(rt: &HostRuntime, path: &str, place: &[u8], tail: &[u8]) -> bool {
    match fs::read(rt, path) {
        Ok(bytes) => is_plate(&bytes, place, tail),
        Err(_) => false,
    }
}

fn is_plate(bytes: &[u8], place: &[u8], tail: &[u8]) -> bool {
    let Some((head, behind)) = bytes.split_at_checked(8) else {
        return false;
    };
    let Some((rows, rest)) = behind.split_at_checked(3 * ROWS) else {
        return false;
    };
    head.starts_with(&HEAD[..4]) && head.ends_with(place) && rest == tail && are_rows(rows)
}

fn are_rows(bytes: &[u8]) -> bool {
    let (rows, rest) = bytes.as_chunks::<3>();
    rest.is_empty() && rows.iter().all(|row| *row == PACKED)
}

#[test]
fn long_files_are_whole(rt: HostRuntime) {
    let folder = folder_of(&rt, "blocks").expect(&rt, "no folder");
    let (first, second) = paths_in(&rt, folder.as_str()).expect(&rt, "no paths");
    let whole = are_whole(&rt, first.as_str(), second.as_str());
    fs::remove_dir_all(&rt, folder).expect(&rt, "folder");
    assert!(rt; whole);
}

// Builds both plates from the row of a deck. One is finished. All rows of the other, unfinished one are on
// disk once the rack is dropped.
fn are_whole(rt: &HostRuntime, first: &str, second: &str) -> bool {
    let mut frame = [0u8; 5];
    frame_row(&[0xAB, 0], &mut frame);
    let deal = OneRow;
    let Ok(mut deck) = Deck::open(rt.alloc(), &deal) else {
        return false;
    };
    deck.put(&frame);
    let held = deck.take();
    let built = is_built(rt, &held, first, second);
    deck.give(held);
    built && has_plate(rt, first, &PLACE, &[0, 7]) && has_part(rt, second)
}

// Whether the partial file of the unfinished plate has its rows.
fn has_part(rt: &HostRuntime, path: &str) -> bool {
    match format!(in rt.alloc(); "{path}.part") {
        Ok(part) => has_plate(rt, part.as_str(), &[0; 4], &[]),
        Err(_) => false,
    }
}
