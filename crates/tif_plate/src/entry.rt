// The directory of a plate: entries of twelve bytes, least significant byte first.
//   0  tag     2 bytes
//   2  type    2 bytes
//   4  count   4 bytes
//   8  value   4 bytes, or the offset of the values
ghost use Rattle.std.specs.Prelude.{◌≡◌, ◌+◌, ◌-◌, ◌*◌, ◌≤◌, nat_lt, if◌then◌else◌, length};
ghost use Rattle.std.specs.List.{flat_map};
ghost use Rattle.tif_plate.specs.Plate.{IsSide, entry_bytes, plate_directory, plate_entries};
ghost use Rattle.tif_plate.specs.Put.{Puts};

use crate::put::{put_all, put_u16};
use crate::shape::{rows_per_strip, strips};
use tif_dir::tag::{
    BITS_PER_SAMPLE, COMPRESSION, IMAGE_LENGTH, IMAGE_WIDTH, PHOTOMETRIC_INTERPRETATION,
    RESOLUTION_UNIT, ROWS_PER_STRIP, SAMPLES_PER_PIXEL, STRIP_BYTE_COUNTS, STRIP_OFFSETS,
    X_RESOLUTION, Y_RESOLUTION,
};

/// The types of a plate's fields (TIFF 6.0, Section 2).
const SHORT: u16 = 3;

const LONG: u16 = 4;

const RATIONAL: u16 = 5;

/// The offset of the first strip, after the front.
const FIRST_STRIP: u32 = 8;

/// Offsets from the directory to XResolution, to YResolution, and to the table of strips.
const X_PLACE: u32 = 150;

const Y_PLACE: u32 = 158;

const TABLE: u32 = 166;

/// One entry of a directory.
#[derive(Clone, Copy)]
struct Entry {
    tag: u16,
    kind: u16,
    count: u32,
    value: u32,
}

/// Writes the directory of a plate whose rows end at offset `end`, and returns the offset after it: the
/// number of entries, the twelve entries, and 0 for no next directory.
#[tactic(auto, unfolding(crate::specs::Plate::plate_directory))]
pub(crate) fn put_directory(into: &mut [u8], at: usize, width: u32, height: u32, end: u32) -> usize
    requires width { IsSide width }
    requires height { IsSide height }
    requires rows { 8 ≤ end }
    requires end { end ≤ 4000000008 }
    requires room { at + 150 ≤ length into.old }
    ensures at { result ≡ at + 150 }
    ensures put { Puts at (plate_directory width height end) into.old into.new }
{
    let at = put_u16(into, at, 12);
    let at = put_entries(into, at, &entries(width, height, end));
    put_all(into, at, &[0])
}

/// Writes entries in order and returns the offset after them.
fn put_entries(into: &mut [u8], at: usize, entries: &[Entry]) -> usize
    requires { at + 12 * length entries.now ≤ length into.old }
    ensures at { result ≡ at + 12 * length entries.now }
    ensures put { Puts at (flat_map entry_bytes entries.now) into.old into.new }
{
    let mut place = at;
    for entry in entries {
        place = put_entry(into, place, *entry);
    }
    place
}

/// Writes an entry and returns the offset after it.
fn put_entry(into: &mut [u8], at: usize, entry: Entry) -> usize
    requires { at + 12 ≤ length into.old }
    ensures at { result ≡ at + 12 }
    ensures put { Puts at (entry_bytes entry) into.old into.new }
{
    let at = put_u16(into, at, entry.tag);
    let at = put_u16(into, at, entry.kind);
    put_all(into, at, &[entry.count, entry.value])
}

/// Returns the twelve entries of a plate whose rows end at offset `end`.
#[tactic(auto, unfolding(crate::specs::Plate::plate_entries))]
#[rattlefmt::skip]
fn entries(width: u32, height: u32, end: u32) -> [Entry; 12]
    requires width { IsSide width }
    requires height { IsSide height }
    requires rows { 8 ≤ end }
    requires end { end ≤ 4000000008 }
    ensures { result ≡ plate_entries width height end }
{
    let strips = strips(width, height);
    let place = end + end % 2;
    [
        Entry { tag: IMAGE_WIDTH, kind: LONG, count: 1, value: width },
        Entry { tag: IMAGE_LENGTH, kind: LONG, count: 1, value: height },
        Entry { tag: BITS_PER_SAMPLE, kind: SHORT, count: 1, value: 1 },
        Entry { tag: COMPRESSION, kind: SHORT, count: 1, value: 32773 },
        Entry { tag: PHOTOMETRIC_INTERPRETATION, kind: SHORT, count: 1, value: 0 },
        Entry { tag: STRIP_OFFSETS, kind: LONG, count: strips, value: offsets_value(strips, place) },
        Entry { tag: SAMPLES_PER_PIXEL, kind: SHORT, count: 1, value: 1 },
        Entry { tag: ROWS_PER_STRIP, kind: LONG, count: 1, value: rows_per_strip(width) },
        Entry { tag: STRIP_BYTE_COUNTS, kind: LONG, count: strips, value: counts_value(strips, place, end) },
        Entry { tag: X_RESOLUTION, kind: RATIONAL, count: 1, value: place + X_PLACE },
        Entry { tag: Y_RESOLUTION, kind: RATIONAL, count: 1, value: place + Y_PLACE },
        Entry { tag: RESOLUTION_UNIT, kind: SHORT, count: 1, value: 2 },
    ]
}

/// Returns the value of StripOffsets: the offset of the only strip, or that of the table after the
/// directory at offset `place`.
fn offsets_value(strips: u32, place: u32) -> u32
    requires { place ≤ 4000000009 }
    ensures { result ≡ (if nat_lt strips 2 then 8 else place + 166) }
{
    if strips < 2 {
        FIRST_STRIP
    } else {
        place + TABLE
    }
}

/// Returns the value of StripByteCounts: the byte count of the only strip, which ends at offset `end`, or
/// the offset of the counts in the table.
fn counts_value(strips: u32, place: u32, end: u32) -> u32
    requires strips { strips ≤ 65535 }
    requires rows { 8 ≤ end }
    requires place { place ≤ 4000000009 }
    ensures { result ≡ (if nat_lt strips 2 then end - 8 else place + 166 + 4 * strips) }
{
    if strips < 2 {
        end - FIRST_STRIP
    } else {
        place + TABLE + 4 * strips
    }
}
