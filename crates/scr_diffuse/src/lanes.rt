// Eight numbers in a vector, a lane for each of eight rows of one page.
ghost use Rattle.std.specs.Prelude.{◌≡◌, ℕ, ◌+◌, ◌*◌, ◌<◌, ◌≤◌, ◌+ℤ◌, ◌*ℤ◌, ◌≤ℤ◌, neg_ℤ, length, pos};
ghost use Rattle.std.specs.Prelude.{FitsSigned, slice_index};
ghost use Rattle.std.specs.Int.{w16};
ghost use Rattle.scr_diffuse.specs.Block.{bit_of};
ghost use Rattle.scr_diffuse.specs.Diffusion.{error_of, prints};
ghost use Rattle.scr_diffuse.specs.Passes.{floor_16, number_at};
ghost use Rattle.scr_diffuse.specs.Steps.{AreErrors, AreValues};

use crate::passes::{DOT, MIDDLE};
use std::simd::prelude::*;

/// Adds two numbers in each lane.
#[inline(always)]
fn plus(a: i16x8, b: i16x8) -> i16x8
    requires a { length a ≡ 8 }
    requires b { length b ≡ 8 }
    ensures eight { length result ≡ 8 }
    ensures sums { (k : ℕ) → k < 8 → FitsSigned w16 (number_at a k) → FitsSigned w16 (number_at b k) →
        FitsSigned w16 (number_at a k +ℤ number_at b k) →
        number_at result k ≡ (number_at a k +ℤ number_at b k) }
{
    a + b
}

/// Multiplies each lane by a factor.
#[inline(always)]
fn times(factor: i16, a: i16x8) -> i16x8
    requires { length a ≡ 8 }
    ensures eight { length result ≡ 8 }
    ensures products { (k : ℕ) → k < 8 → FitsSigned w16 (number_at a k) →
        FitsSigned w16 (number_at a k *ℤ factor) →
        number_at result k ≡ (number_at a k *ℤ factor) }
{
    a * i16x8::splat(factor)
}

/// Returns the same numbers. The comparison changes none of them; it keeps the compiler from reordering the
/// additions, so that the addend that is ready last is added last.
#[inline(always)]
fn settled(a: i16x8) -> i16x8
    requires { length a ≡ 8 }
    ensures eight { length result ≡ 8 }
    ensures same { (k : ℕ) → k < 8 → FitsSigned w16 (number_at a k) → neg_ℤ (pos 2000) ≤ℤ number_at a k →
        number_at result k ≡ number_at a k }
{
    a.simd_max(i16x8::splat(-2000))
}

/// Returns the whole sums of a column. The error from the left depends on the column before, so it is added
/// last.
#[inline(always)]
pub(crate) fn whole_sums(
    values: i16x8,
    left: i16x8,
    above_right: i16x8,
    above: i16x8,
    above_left: i16x8,
) -> i16x8
    requires values { AreValues values }
    requires left { AreErrors left }
    requires above_right { AreErrors above_right }
    requires above { AreErrors above }
    requires above_left { AreErrors above_left }
    ensures eight { length result ≡ 8 }
    ensures sums { (k : ℕ) → k < 8 → number_at result k
        ≡ ((pos 16 *ℤ number_at values k) +ℤ (pos 7 *ℤ number_at left k)
        +ℤ (pos 3 *ℤ number_at above_right k) +ℤ (pos 5 *ℤ number_at above k) +ℤ number_at above_left k) }
{
    let right = plus(times(16, values), times(3, above_right));
    let corner = plus(times(5, above), above_left);
    plus(settled(plus(right, corner)), times(7, left))
}

/// Returns the errors of pixels from their whole sums: a sixteenth, rounded down, less 255 where the pixel
/// prints.
#[inline(always)]
pub(crate) fn errors_of(sums: i16x8) -> i16x8
    requires { length sums ≡ 8 }
    ensures eight { length result ≡ 8 }
    ensures errors { (k : ℕ) → k < 8 → FitsSigned w16 (number_at sums k) →
        number_at result k ≡ error_of (floor_16 (number_at sums k)) }
{
    (sums >> i16x8::splat(4))
        - sums
            .simd_ge(i16x8::splat(16 * MIDDLE))
            .select(i16x8::splat(DOT), i16x8::splat(0))
}

/// Returns which pixels print, from their whole sums; bit k belongs to lane k.
#[inline(always)]
pub(crate) fn dots_of(sums: i16x8) -> u8
    requires { length sums ≡ 8 }
    ensures { (k : ℕ) → k < 8 → FitsSigned w16 (number_at sums k) →
        bit_of result k ≡ prints (floor_16 (number_at sums k)) }
{
    sums.simd_ge(i16x8::splat(16 * MIDDLE)).to_bitmask() as u8
}

/// Moves the numbers up by one lane, and puts the last number of `before` into lane 0.
#[inline(always)]
pub(crate) fn moved_on(before: i16x8, a: i16x8) -> i16x8
    requires before { length before ≡ 8 }
    requires moved { length a ≡ 8 }
    ensures eight { length result ≡ 8 }
    ensures first { FitsSigned w16 (number_at before 7) → number_at result 0 ≡ number_at before 7 }
    ensures others { (k : ℕ) → k < 7 → FitsSigned w16 (number_at a k) →
        number_at result (k + 1) ≡ number_at a k }
{
    before.shuffle(a, [7, 8, 9, 10, 11, 12, 13, 14])
}

/// Loads the eight errors up to place `last` of a list, of which the last lane is of use. A vector is loaded
/// in one instruction, and a number that is put into a lane in two.
#[inline(always)]
pub(crate) fn errors_to(errors: &[i16], last: usize) -> i16x8
    requires eight { 7 ≤ last }
    requires room { last < length errors.now }
    ensures eight { length result ≡ 8 }
    ensures last { FitsSigned w16 (number_at errors.now last) →
        number_at result 7 ≡ number_at errors.now last }
{
    i16x8::from_slice(&errors[last - 7..last + 1])
}

/// Returns the number in the last lane.
#[inline(always)]
pub(crate) fn last_of(a: i16x8) -> i16
    requires { length a ≡ 8 }
    ensures { FitsSigned w16 (number_at a 7) → result ≡ number_at a 7 }
{
    let numbers = a.to_array();
    numbers[7]
}

/// Returns the values in column `x` of eight interleaved rows.
#[inline(always)]
pub(crate) fn column_at(columns: &[u8], x: usize) -> i16x8
    requires { 8 * x + 8 ≤ length columns.now }
    ensures eight { length result ≡ 8 }
    ensures values { (k : ℕ) → k < 8 → number_at result k ≡ pos (slice_index columns.now (8 * x + k)) }
    ensures bytes { (k : ℕ) → k < 8 → slice_index columns.now (8 * x + k) ≤ 255 }
{
    u8x8::from_slice(&columns[8 * x..8 * x + 8]).cast()
}
