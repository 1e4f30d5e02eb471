// Packed pixels from the numbers v of a row: whole bytes with eight comparisons each, the pixels at both ends
// one by one.
ghost use Rattle.std.specs.Prelude.{◌≡◌, ℕ, ◌+◌, ◌*◌, ◌^◌, ◌<◌, ◌≤◌, ◌%◌, length};
ghost use Rattle.pr_base.specs.Bits.{byte_bit, SetsBits};
ghost use Rattle.scr_diffuse.specs.Diffusion.{prints};
ghost use Rattle.scr_diffuse.specs.Passes.{AreWords, number_at};

use crate::passes::MIDDLE;
use pr_base::set_bit;
use std::simd::prelude::*;

/// Writes the pixels from `from` on; each is set where its number prints. The pixels before a byte boundary
/// come first, then whole bytes, then the rest.
pub(crate) fn set_row(numbers: &[i16], bits: &mut [u8], from: u32)
    requires room { from + length numbers.now ≤ 8 * length bits.old }
    requires range { AreWords numbers.now }
    ensures { SetsBits (λ x. prints (number_at numbers.now x)) from (length numbers.now) bits.old bits.new }
{
    let from = from as usize;
    let ragged = ((8 - from % 8) % 8).min(numbers.len());
    let done = ragged + (numbers.len() - ragged) / 8 * 8;
    set_bits(&numbers[..ragged], bits, from);
    set_bytes(&numbers[ragged..done], bits, (from + ragged) / 8);
    set_bits(&numbers[done..], bits, from + done);
}

/// Writes the pixels from `from` on, one by one.
fn set_bits(numbers: &[i16], bits: &mut [u8], from: usize)
    requires room { from + length numbers.now ≤ 8 * length bits.old }
    requires fits { from + length numbers.now < 2 ^ 64 }
    ensures { SetsBits (λ x. prints (number_at numbers.now x)) from (length numbers.now) bits.old bits.new }
{
    for x in 0..numbers.len() {
        set_bit(bits, from + x, numbers[x] >= MIDDLE);
    }
}

/// Writes the pixels of whole bytes, from byte `first` on.
fn set_bytes(numbers: &[i16], bits: &mut [u8], first: usize)
    requires whole { length numbers.now % 8 ≡ 0 }
    requires room { 8 * first + length numbers.now ≤ 8 * length bits.old }
    requires range { AreWords numbers.now }
    ensures { SetsBits (λ x. prints (number_at numbers.now x))
        (8 * first) (length numbers.now) bits.old bits.new }
{
    for j in 0..numbers.len() / 8 {
        bits[first + j] = byte_of(&numbers[8 * j..8 * j + 8]);
    }
}

/// Packs eight pixels into a byte; the first is the highest bit.
fn byte_of(numbers: &[i16]) -> u8
    requires whole { length numbers.now ≡ 8 }
    requires range { AreWords numbers.now }
    ensures { (x : ℕ) → x < 8 → byte_bit result x ≡ prints (number_at numbers.now x) }
{
    let lanes = i16x8::from_slice(numbers).reverse();
    lanes.simd_ge(i16x8::splat(MIDDLE)).to_bitmask() as u8
}
