// Packed pixels from the bits of columns. A column holds one pixel of each of eight rows; bit k belongs to
// lane k.
ghost use Rattle.std.specs.Prelude.{◌≡◌, ℕ, ◌+◌, ◌*◌, ◌^◌, ◌<◌, ◌≤◌, ◌%◌, length, slice_index};
ghost use Rattle.pr_base.specs.Bits.{bit_at, SetsBits};
ghost use Rattle.scr_diffuse.specs.Block.{bit_of};

use pr_base::set_bit;
use std::simd::prelude::*;

/// The number of pixels packed in one step: the lanes of the widest vector, and eight whole bytes.
const BLOCK: usize = 64;

/// The lanes of a block, reversed within each byte: lane 0 is the lowest bit of a mask, but the first pixel
/// is the highest bit of a packed byte.
const EIGHTS: [usize; BLOCK] = [
    7, 6, 5, 4, 3, 2, 1, 0, 15, 14, 13, 12, 11, 10, 9, 8, 23, 22, 21, 20, 19, 18, 17, 16, 31, 30,
    29, 28, 27, 26, 25, 24, 39, 38, 37, 36, 35, 34, 33, 32, 47, 46, 45, 44, 43, 42, 41, 40, 55, 54,
    53, 52, 51, 50, 49, 48, 63, 62, 61, 60, 59, 58, 57, 56,
];

/// Writes the pixels from `from` on; each is set where bit `lane` of its column is set. The pixels before a
/// byte boundary come first, then whole blocks, then the rest.
pub(crate) fn set_dots(columns: &[u8], lane: usize, bits: &mut [u8], from: u32)
    requires lane { lane < 8 }
    requires room { from + length columns.now ≤ 8 * length bits.old }
    ensures { SetsBits (λ x. bit_of (slice_index columns.now x) lane) from (length columns.now)
        bits.old bits.new }
{
    let from = from as usize;
    let ragged = ((8 - from % 8) % 8).min(columns.len());
    let done = ragged + (columns.len() - ragged) / BLOCK * BLOCK;
    set_bits(&columns[..ragged], lane, bits, from);
    set_blocks(&columns[ragged..done], lane, bits, (from + ragged) / 8);
    set_bits(&columns[done..], lane, bits, from + done);
}

/// Writes the pixels from `from` on, one by one.
fn set_bits(columns: &[u8], lane: usize, bits: &mut [u8], from: usize)
    requires lane { lane < 8 }
    requires room { from + length columns.now ≤ 8 * length bits.old }
    requires fits { from + length columns.now < 2 ^ 64 }
    ensures { SetsBits (λ x. bit_of (slice_index columns.now x) lane) from (length columns.now)
        bits.old bits.new }
{
    for x in 0..columns.len() {
        set_bit(bits, from + x, (columns[x] >> lane) % 2 == 1);
    }
}

/// Writes the pixels of whole blocks, from byte `first` on.
fn set_blocks(columns: &[u8], lane: usize, bits: &mut [u8], first: usize)
    requires lane { lane < 8 }
    requires whole { length columns.now % BLOCK ≡ 0 }
    requires room { 8 * first + length columns.now ≤ 8 * length bits.old }
    ensures { SetsBits (λ x. bit_of (slice_index columns.now x) lane) (8 * first) (length columns.now)
        bits.old bits.new }
{
    for k in 0..columns.len() / BLOCK {
        let block = block_of(&columns[BLOCK * k..BLOCK * k + BLOCK], lane);
        let byte = first + 8 * k;
        bits[byte..byte + 8].copy_from_slice(&block[..]);
    }
}

/// Returns the packed pixels of a block: each is set where bit `lane` of its column is set.
#[tactic(auto, using(crate::proofs::DotLemmas::dots_show))]
fn block_of(columns: &[u8], lane: usize) -> [u8; 8]
    requires lane { lane < 8 }
    requires whole { length columns.now ≡ BLOCK }
    ensures { (x : ℕ) → x < BLOCK → bit_at result x ≡ bit_of (slice_index columns.now x) lane }
{
    let bit = u8x64::splat(1 << lane);
    let lanes = u8x64::from_slice(columns).swizzle(EIGHTS) & bit;
    lanes.simd_eq(bit).to_bitmask().to_le_bytes()
}
