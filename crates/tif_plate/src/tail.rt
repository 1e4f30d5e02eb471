// The tail of a plate, after its packed rows.
//        a zero byte if the rows end at an odd offset
//   0    the directory of twelve entries, and 0 for no next directory
//   150  XResolution and YResolution
//   166  the table of strips, if there are two or more: their offsets, then their byte counts
ghost use Rattle.std.specs.Prelude.{◌≡◌, ◌+◌, ◌*◌, ◌≤◌, ◌++◌, length, drop, map, sum, take};
ghost use Rattle.std.specs.List.{flat_map, range_with_len};
ghost use Rattle.byteorder.specs.Endian.{little_bytes};
ghost use Rattle.tif_plate.specs.Plate.{IsSide, IsDpi, strip_count, strip_table, bytes_behind};
ghost use Rattle.tif_plate.specs.Put.{Puts};
ghost use Rattle.tif_plate.specs.Tail.{IsPlaceable, begin_of, begins, strips_end as strips_end_of};
ghost use Rattle.tif_plate.specs.Tail.{tail_bytes, tail_offset, tail_room};

use crate::entry::put_directory;
use crate::put::{put_all, put_whole, put_zeros};

/// The offset of the first strip, after the front.
const FIRST_STRIP: u32 = 8;

/// The length of a plate's tail in bytes, and the offset of the directory in the plate.
#[derive(Clone, Copy, PartialEq, Eq)]
pub struct Tail {
    pub len: usize,
    pub at: u32,
}

/// Writes all bytes after the rows of a plate to the start of `into`. `counts` holds the byte count of each
/// strip. Returns the number of bytes written, and the offset to store in bytes 4 to 7 of the plate.
pub fn plate_tail(width: u32, height: u32, dpi: u32, counts: &[u32], into: &mut [u8]) -> Tail
    requires width { IsSide width }
    requires height { IsSide height }
    requires dpi { IsDpi dpi }
    requires counts { length counts.now ≡ strip_count width height }
    requires sum { IsPlaceable counts.now }
    requires room { tail_room width height ≤ length into.old }
    ensures at { result.at ≡ tail_offset counts.now }
    ensures len { result.len ≡ length (tail_bytes width height dpi counts.now) }
    ensures written { into.new ≡ tail_bytes width height dpi counts.now ++ drop result.len into.old }
{
    let end = strips_end(counts);
    let odd = end % 2;
    let at = put_zeros(into, 0, odd as usize);
    let at = put_directory(into, at, width, height, end);
    let at = put_whole(into, at, dpi);
    let at = put_whole(into, at, dpi);
    let len = put_table(into, at, counts);
    Tail { len, at: end + odd }
}

/// Returns the offset of the end of the strips.
fn strips_end(counts: &[u32]) -> u32
    requires { IsPlaceable counts.now }
    ensures { result ≡ strips_end_of counts.now }
{
    FIRST_STRIP + counts.iter().sum::<u32>()
}

/// Writes the table of strips, if there are two or more, and returns the offset after it.
fn put_table(into: &mut [u8], at: usize, counts: &[u32]) -> usize
    requires sum { IsPlaceable counts.now }
    requires room { at + 8 * length counts.now ≤ length into.old }
    ensures at { result ≡ at + length (strip_table (begins counts.now) counts.now) }
    ensures put { Puts at (strip_table (begins counts.now) counts.now) into.old into.new }
{
    if counts.len() < 2 {
        return at;
    }
    let at = put_offsets(into, at, counts);
    put_all(into, at, counts)
}

/// Writes the offset of each strip and returns the offset after them.
fn put_offsets(into: &mut [u8], at: usize, counts: &[u32]) -> usize
    requires sum { IsPlaceable counts.now }
    requires room { at + 4 * length counts.now ≤ length into.old }
    ensures at { result ≡ at + 4 * length counts.now }
    ensures put { Puts at (flat_map (little_bytes 4) (begins counts.now)) into.old into.new }
{
    let mut behind = at;
    let mut place = FIRST_STRIP;
    for count in counts {
        behind = put_all(into, behind, &[place]);
        place += *count;
    }
    behind
}
