// The marked pixels of a bilevel image as bytes.
ghost use Rattle.std.specs.Prelude.{◌≡◌, ℕ, ◌+◌, ◌-◌, ◌*◌, ◌%◌, ◌<◌, ◌≤◌, if◌then◌else◌, length};
ghost use Rattle.tif_image.specs.Image.{pixel_marked};
ghost use Rattle.page_layers.specs.Reader.{Holds};
ghost use Rattle.page_layers.specs.Rows.{IsMarked, Marks, bit_is, held};

use crate::layer::Crop;
use crate::row_reader::RowReader;
use std::simd::prelude::*;
use tif_image::Bilevel;

/// How many pixels are handled in one step: the bits of eight bytes.
const BLOCK: usize = 64;

/// For each pixel of a block, which of the block's eight bytes has its bit.
const BYTE_OF: [usize; BLOCK] = [
    0, 0, 0, 0, 0, 0, 0, 0, 1, 1, 1, 1, 1, 1, 1, 1, 2, 2, 2, 2, 2, 2, 2, 2, 3, 3, 3, 3, 3, 3, 3, 3,
    4, 4, 4, 4, 4, 4, 4, 4, 5, 5, 5, 5, 5, 5, 5, 5, 6, 6, 6, 6, 6, 6, 6, 6, 7, 7, 7, 7, 7, 7, 7, 7,
];

/// The bit of each pixel within its byte: the first pixel is the highest bit.
const BIT_OF: [u8; BLOCK] = [
    128, 64, 32, 16, 8, 4, 2, 1, 128, 64, 32, 16, 8, 4, 2, 1, 128, 64, 32, 16, 8, 4, 2, 1, 128, 64,
    32, 16, 8, 4, 2, 1, 128, 64, 32, 16, 8, 4, 2, 1, 128, 64, 32, 16, 8, 4, 2, 1, 128, 64, 32, 16,
    8, 4, 2, 1, 128, 64, 32, 16, 8, 4, 2, 1,
];

/// How the marks of a row are written.
#[derive(Clone, Copy)]
struct Marking {
    /// Whether a marked byte becomes 255, or else keeps its value.
    fresh: bool,
    /// Whether the marked pixels are those whose bit is 0, or else those whose bit is 1.
    zeros: bool,
}

/// Writes the marks of a row of pixels, from the first column of a crop on. A byte becomes 0 where the pixel
/// is not marked. Elsewhere it becomes 255 if the marks are `fresh`, or else it keeps its value.
pub(crate) fn mark_pixels(
    fresh: bool,
    image: &Bilevel<'_>,
    reader: &RowReader<'_>,
    crop: Crop,
    room: &[u8],
    into: &mut [u8],
)
    requires shape { reader.now.shape ≡ image.now.shape }
    requires bytes { reader.now.bytes ≡ image.now.bytes }
    requires part { Holds reader.now crop room.now }
    requires within { length into.old ≤ crop.width }
    ensures { IsMarked
        (λ n. pixel_marked image.now.shape image.now.bytes (crop.x + n) (reader.now.next - 1))
        (held fresh into.old) (length into.old) into.new }
{
    // Called for its clause: one sample a pixel.
    let _shape = image.shape();
    let marking = Marking {
        fresh,
        zeros: image.marks_zeros(),
    };
    // The first byte holds the crop's first column.
    let first = crop.x as usize % 8;
    mark(marking, reader.part(crop, room), first, into);
}

// Marks the bytes of a row's pixels. The pixels before a byte boundary of the row come first, then whole
// blocks, then the rest.
fn mark(marking: Marking, row: &[u8], first: usize, into: &mut [u8])
    requires small { first + length into.old ≤ 65535 }
    requires within { first + length into.old ≤ 8 * length row.now }
    ensures { IsMarked (λ j. bit_is marking.zeros row.now (first + j))
        (held marking.fresh into.old) (length into.old) into.new }
{
    let all = into.len();
    let ragged = ((8 - first % 8) % 8).min(all);
    let done = ragged + (all - ragged) / BLOCK * BLOCK;
    mark_bits(marking, row, first, into, 0, ragged);
    mark_blocks(marking, row, first, into, ragged, done);
    mark_bits(marking, row, first, into, done, all);
}

// The loop multiplies by 0 or 1, since a branch on the bit would often be mispredicted.
fn mark_bits(marking: Marking, row: &[u8], first: usize, into: &mut [u8], from: usize, to: usize)
    requires order { (from ≤ to) × (to ≤ length into.old) }
    requires small { first + to ≤ 65535 }
    requires within { first + to ≤ 8 * length row.now }
    ensures { Marks (λ j. bit_is marking.zeros row.now (first + j)) (held marking.fresh into.old) from to
        into.old into.new }
{
    for j in from..to {
        into[j] = held_byte(marking.fresh, into[j])
            * u8::from(has_bit(marking.zeros, row, first + j));
    }
}

// Returns what a marked byte holds afterwards: 255 if the marks are fresh, or else what it held.
#[inline(always)]
fn held_byte(fresh: bool, byte: u8) -> u8
    ensures { result ≡ (if fresh then 255 else byte) }
{
    if fresh { 255 } else { byte }
}

// Returns whether pixel `x` of a row has the bit 0, or else the bit 1.
#[inline(always)]
fn has_bit(zeros: bool, row: &[u8], x: usize) -> bool
    requires within { x < 8 * length row.now }
    ensures { result ≡ bit_is zeros row.now x }
{
    let bit = row[x / 8] >> (7 - x % 8) & 1;
    (bit == 1) != zeros
}

// Does the same for whole blocks, the first of which starts at a byte of the row.
fn mark_blocks(marking: Marking, row: &[u8], first: usize, into: &mut [u8], from: usize, to: usize)
    requires order { (from ≤ to) × (to ≤ length into.old) }
    requires small { first + to ≤ 65535 }
    requires within { first + to ≤ 8 * length row.now }
    requires begins { from < to → (first + from) % 8 ≡ 0 }
    requires whole { (to - from) % BLOCK ≡ 0 }
    ensures { Marks (λ j. bit_is marking.zeros row.now (first + j)) (held marking.fresh into.old) from to
        into.old into.new }
{
    let byte = (first + from) / 8;
    for k in 0..(to - from) / BLOCK {
        let bits = &row[byte + 8 * k..byte + 8 * k + 8];
        let at = from + BLOCK * k;
        mark_block(
            marking.fresh,
            marking.zeros,
            bits,
            &mut into[at..at + BLOCK],
        );
    }
}

// Does the same for one block. Each pixel's bit is isolated in a lane, and compared with the value sought.
fn mark_block(fresh: bool, zeros: bool, bits: &[u8], into: &mut [u8])
    requires bits { length bits.now ≡ 8 }
    requires into { length into.old ≡ BLOCK }
    ensures { IsMarked (bit_is zeros bits.now) (held fresh into.old) BLOCK into.new }
{
    let none = u8x64::splat(0);
    let each = u8x64::from_array(BIT_OF);
    let wanted = if zeros { none } else { each };
    let values = if fresh {
        u8x64::splat(255)
    } else {
        u8x64::from_slice(into)
    };
    let bit = u8x8::from_slice(bits).swizzle(BYTE_OF) & each;
    bit.simd_eq(wanted).select(values, none).copy_to_slice(into);
}
