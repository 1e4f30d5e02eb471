// Screening: a row of ink values becomes a row of packed pixels.
ghost use Rattle.std.specs.Prelude.{◌≡◌, ℕ, ◌+◌, ◌*◌, ◌-◌, ◌/◌, ◌%◌, ◌^◌, ◌<◌, ◌≤◌, ◌==◌, IsTrue, length};
ghost use Rattle.std.specs.Prelude.{slice_index};
ghost use Rattle.scr_tile.specs.AnyTile.{threshold_of};
ghost use Rattle.pr_base.specs.Bits.{bit_at, SetsBits};
ghost use Rattle.scr_tile.specs.Tile.{IsSide, Repeats, tile_bit};

use crate::AnyTile;
use crate::bits::set_bits;
use std::simd::prelude::*;

/// The number of pixels screened in one step: the lanes of the widest vector, and eight whole bytes.
const BLOCK: usize = 64;

/// The lanes of a block, reversed within each byte: lane 0 is the lowest bit of a mask, but the first pixel
/// is the highest bit of a packed byte.
const EIGHTS: [usize; BLOCK] = [
    7, 6, 5, 4, 3, 2, 1, 0, 15, 14, 13, 12, 11, 10, 9, 8, 23, 22, 21, 20, 19, 18, 17, 16, 31, 30,
    29, 28, 27, 26, 25, 24, 39, 38, 37, 36, 35, 34, 33, 32, 47, 46, 45, 44, 43, 42, 41, 40, 55, 54,
    53, 52, 51, 50, 49, 48, 63, 62, 61, 60, 59, 58, 57, 56,
];

/// The length of the repeated row of thresholds: the widest row of a tile and one block, so that the
/// thresholds of a block are contiguous at every column.
const ROOM: usize = 128;

/// Screens row `y` of a page: sets pixel `from + x` of `bits` where value `x` is above its threshold, and
/// clears it elsewhere.
pub fn screen_row(tile: &AnyTile, y: u32, values: &[u8], bits: &mut [u8], from: u32)
    requires { from + length values.now ≤ 8 * length bits.old }
    ensures screened { (x : ℕ) → x < length values.now →
        bit_at bits.new (from + x) ≡ tile_bit (slice_index values.now x) (threshold_of tile.now x y) }
    ensures before { (k : ℕ) → k < from → bit_at bits.new k ≡ bit_at bits.old k }
    ensures behind { (k : ℕ) → from + length values.now ≤ k → bit_at bits.new k ≡ bit_at bits.old k }
{
    match tile {
        AnyTile::B2(tile) => screen(tile.row(y), values, bits, from),
        AnyTile::B4(tile) => screen(tile.row(y), values, bits, from),
        AnyTile::B8(tile) => screen(tile.row(y), values, bits, from),
        AnyTile::B16(tile) => screen(tile.row(y), values, bits, from),
        AnyTile::Own(tile) => screen(tile.row(y), values, bits, from),
    }
}

/// Screens with one row of a tile: first the pixels before a byte boundary, then whole blocks, then the rest.
fn screen(row: &[u8], values: &[u8], bits: &mut [u8], from: u32)
    requires side { IsSide (length row.now) }
    requires room { from + length values.now ≤ 8 * length bits.old }
    ensures { SetsBits
        (λ x. tile_bit (slice_index values.now x) (slice_index row.now (x % length row.now)))
        from (length values.now) bits.old bits.new }
{
    let from = from as usize;
    let repeated = repeat(row);
    let ragged = ((8 - from % 8) % 8).min(values.len());
    let whole = (values.len() - ragged) / BLOCK;
    let done = ragged + BLOCK * whole;
    set_bits(&repeated[..], &values[..ragged], bits, from);
    set_blocks(
        row,
        &repeated,
        ragged,
        &values[ragged..done],
        bits,
        (from + ragged) / 8,
    );
    set_bits(
        &repeated[done % row.len()..],
        &values[done..],
        bits,
        from + done,
    );
}

/// Returns a row of thresholds, repeated to fill the array.
fn repeat(row: &[u8]) -> [u8; ROOM]
    requires { IsSide (length row.now) }
    ensures { Repeats row.now ROOM result }
{
    let mut repeated = [0; ROOM];
    let mut column = 0;
    for threshold in repeated.iter_mut() {
        *threshold = row[column];
        column += 1;
        if column == row.len() {
            column = 0;
        }
    }
    repeated
}

/// Screens whole blocks of values into the bytes from `first` on. The first pixel has the threshold of column
/// `start` of the repeated row.
fn set_blocks(
    row: &[u8],
    repeated: &[u8; ROOM],
    start: usize,
    values: &[u8],
    bits: &mut [u8],
    first: usize,
)
    requires side { IsSide (length row.now) }
    requires repeated { Repeats row.now ROOM repeated.now }
    requires start { start < 8 }
    requires whole { length values.now % BLOCK ≡ 0 }
    requires room { 8 * first + length values.now ≤ 8 * length bits.old }
    ensures { SetsBits
        (λ x. tile_bit (slice_index values.now x) (slice_index row.now ((start + x) % length row.now)))
        (8 * first) (length values.now) bits.old bits.new }
{
    let width = row.len();
    let step = BLOCK % width;
    let mut column = start % width;
    for k in 0..values.len() / BLOCK {
        let at = BLOCK * k;
        let block = block_of(&values[at..at + BLOCK], &repeated[column..column + BLOCK]);
        let byte = first + 8 * k;
        bits[byte..byte + 8].copy_from_slice(&block[..]);
        column += step;
        if column >= width {
            column -= width;
        }
    }
}

/// Returns the packed pixels of a block: each is set where its value is above its threshold. A block without
/// ink, as most blocks of paper are, compares no thresholds.
#[tactic(auto, using(crate::proofs::BlockLemmas::bare_shows))]
fn block_of(values: &[u8], thresholds: &[u8]) -> [u8; 8]
    requires values { length values.now ≡ BLOCK }
    requires thresholds { length thresholds.now ≡ BLOCK }
    ensures { (x : ℕ) → x < BLOCK →
        bit_at result x ≡ tile_bit (slice_index values.now x) (slice_index thresholds.now x) }
{
    if is_bare(values) {
        return [0; 8];
    }
    inked_block(values, thresholds)
}

/// Returns true only if no pixel of a block has ink.
#[tactic(auto, using(crate::proofs::BlockLemmas::bare_by_mask))]
fn is_bare(values: &[u8]) -> bool
    requires { length values.now ≡ BLOCK }
    ensures { IsTrue result → (x : ℕ) → x < BLOCK → slice_index values.now x ≡ 0 }
{
    let inked = u8x64::from_slice(values).simd_ne(u8x64::splat(0));
    inked.to_bitmask() == 0
}

/// Returns the packed pixels of a block, as `block_of`, by comparing every value with its threshold.
#[tactic(auto, using(crate::proofs::BlockLemmas::mask_shows))]
fn inked_block(values: &[u8], thresholds: &[u8]) -> [u8; 8]
    requires values { length values.now ≡ BLOCK }
    requires thresholds { length thresholds.now ≡ BLOCK }
    ensures { (x : ℕ) → x < BLOCK →
        bit_at result x ≡ tile_bit (slice_index values.now x) (slice_index thresholds.now x) }
{
    let values = u8x64::from_slice(values).swizzle(EIGHTS);
    let thresholds = u8x64::from_slice(thresholds).swizzle(EIGHTS);
    values.simd_gt(thresholds).to_bitmask().to_le_bytes()
}
