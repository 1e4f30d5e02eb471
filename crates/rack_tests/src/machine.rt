// The rack on the machine, whose files are read back.
ghost use Rattle.std.specs.Prelude.{◌≡◌};
ghost use Rattle.tif_packbits.specs.Frame.{IsFrame};
ghost use Rattle.pr_rack.specs.Rack.{none_begun};

use crate::folder::{folder_of, paths_in};
use pr_base::Deal;
use pr_rack::{HostRack, Rack, RackFault};
use ring_lanes::{Deck, Held};
use std::fs;
use tif_packbits::frame_row;

/// One row of two bytes, as a frame of five. Its packing has three bytes.
#[derive(Drop)]
pub struct OneRow;

impl Deal for OneRow {
    ghost use Rattle.std.specs.Prelude.{[], ◌∷◌};
    ghost use Rattle.tif_packbits.specs.Frame.{frame_of};

    ghost rows = { λ _. frame_of (171 ∷ 0 ∷ []) ∷ [] };

    ghost size = { λ _. 5 };

    fn total(&self) -> u64 {
        1
    }

    fn row_len(&self) -> usize {
        5
    }
}

/// The first bytes of a plate.
pub const HEAD: [u8; 8] = [0x49, 0x49, 0x2A, 0, 0, 0, 0, 0];

// A plate of one such row, closed by a tail of two bytes.
const SHORT: [u8; 13] = [0x49, 0x49, 0x2A, 0, 12, 0, 0, 0, 1, 0xAB, 0, 0, 7];

// A plate of two such rows, closed by a tail of two bytes.
const LONG: [u8; 16] = [
    0x49, 0x49, 0x2A, 0, 14, 0, 0, 0, 1, 0xAB, 0, 1, 0xAB, 0, 9, 9,
];

// The contents of a plate that was abandoned after its first row.
const PART: [u8; 11] = [0x49, 0x49, 0x2A, 0, 0, 0, 0, 0, 1, 0xAB, 0];

// Builds two files at the same time, and finishes the second first.
fn build_files(
    rack: &mut HostRack<HostRuntime>,
    held: &Held,
    first: &str,
    second: &str,
) -> Result<(), RackFault>
    requires empty { rack.old.begun ≡ none_begun }
    requires frame { IsFrame held.now.bytes }
{
    rack.begin(0, first, &HEAD)?;
    rack.begin(1, second, &HEAD)?;
    rack.row(0, held)?;
    rack.row(1, held)?;
    rack.row(1, held)?;
    rack.finish(1, &[9, 9], 14)?;
    rack.finish(0, &[0, 7], 12)
}

// Begins a file and abandons it after a row.
fn leave_file(rack: &mut HostRack<HostRuntime>, held: &Held, path: &str) -> Result<(), RackFault>
    requires empty { rack.old.begun ≡ none_begun }
    requires frame { IsFrame held.now.bytes }
{
    rack.begin(2, path, &HEAD)?;
    rack.row(2, held)
}

// Whether that succeeds. The rack is dropped afterwards.
fn are_built(rt: &HostRuntime, held: &Held, first: &str, second: &str) -> bool
    requires { IsFrame held.now.bytes }
{
    let Ok(rt) = rt.clone() else {
        return false;
    };
    build_files(&mut HostRack::new(rt), held, first, second).is_ok()
}

fn is_left(rt: &HostRuntime, held: &Held, path: &str) -> bool
    requires { IsFrame held.now.bytes }
{
    let Ok(rt) = rt.clone() else {
        return false;
    };
    leave_file(&mut HostRack::new(rt), held, path).is_ok()
}

#[test]
fn writes_files_of_the_machine(rt: HostRuntime) {
    let folder = folder_of(&rt, "rack").expect(&rt, "no folder");
    let (first, second) = paths_in(&rt, folder.as_str()).expect(&rt, "no paths");
    let written = write_row(&rt, first.as_str(), second.as_str());
    fs::remove_dir_all(&rt, folder).expect(&rt, "folder");
    assert!(rt; written);
}

// Writes both files from the row of a deck.
fn write_row(rt: &HostRuntime, first: &str, second: &str) -> bool {
    let mut frame = [0u8; 5];
    frame_row(&[0xAB, 0], &mut frame);
    let deal = OneRow;
    let Ok(mut deck) = Deck::open(rt.alloc(), &deal) else {
        return false;
    };
    deck.put(&frame);
    let held = deck.take();
    let written = write(rt, &held, first, second);
    deck.give(held);
    written
}

// An unfinished plate stays under its temporary name, and the existing plate is unchanged.
fn write(rt: &HostRuntime, held: &Held, first: &str, second: &str) -> bool
    requires { IsFrame held.now.bytes }
{
    are_built(rt, held, first, second)
        && has(rt, first, &SHORT)
        && has(rt, second, &LONG)
        && is_left(rt, held, second)
        && has(rt, second, &LONG)
        && has_part(rt, second, &PART)
        && are_built(rt, held, second, first)
        && has(rt, first, &LONG)
        && has(rt, second, &SHORT)
        && !has_part(rt, second, &PART)
}

// Whether a file has these bytes.
fn has(rt: &HostRuntime, path: &str, bytes: &[u8]) -> bool {
    match fs::read(rt, path) {
        Ok(read) => read.as_slice() == bytes,
        Err(_) => false,
    }
}

// Whether the partial file of a plate has these bytes.
fn has_part(rt: &HostRuntime, path: &str, bytes: &[u8]) -> bool {
    match format!(in rt.alloc(); "{path}.part") {
        Ok(part) => has(rt, part.as_str(), bytes),
        Err(_) => false,
    }
}
