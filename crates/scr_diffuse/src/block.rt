// Diffuses eight rows of one page at once. At each step row k is three columns behind the row above it, so
// the errors that it needs from that row have been made.
ghost use Rattle.std.specs.Prelude.{◌≡◌, ℕ, ◌+◌, ◌-◌, ◌*◌, ◌^◌, ◌<◌, ◌≤◌, ℤ, List, [], length, pos};
ghost use Rattle.std.specs.Prelude.{FitsSigned, slice_index, slice_index_or};
ghost use Rattle.std.specs.Int.{w16};
ghost use Rattle.scr_diffuse.specs.Block.{bit_of, block_left, block_v, left_in, row_in, rows_in};
ghost use Rattle.scr_diffuse.specs.Diffusion.{IsError, prints};
ghost use Rattle.scr_diffuse.specs.Passes.{number_at};
ghost use Rattle.scr_diffuse.specs.Steps.{HasErrors, HasValues, IsPast, IsReached, MayStep};

use crate::lanes::{column_at, dots_of, errors_of, errors_to, last_of, moved_on, whole_sums};
use crate::weave::set_columns;
use std::simd::prelude::*;

/// How many columns each row is behind the one above it. A pixel takes errors from the pixel above it and
/// from both neighbours of that one. With a lag of two columns the error from above right would be made in
/// the step before, and each step would wait until it is moved to the next lane.
pub(crate) const LAG: usize = 3;

/// How many columns the last row is behind the first.
pub(crate) const LAST_LAG: usize = 7 * LAG;

/// The errors beside and above the next pixel of each of eight rows, a lane for each row. Outside a row they
/// are 0.
#[derive(Clone, Copy)]
struct Wavefront {
    /// To the left of the pixel, made in the last step.
    left: i16x8,
    /// One column further to the left, made in the step before that one.
    older: i16x8,
    /// Above the pixel.
    above: i16x8,
    /// Above and to the left of the pixel.
    above_left: i16x8,
}

/// Diffuses eight rows of a page. Bit k of `dots[x + 3k]` becomes whether the pixel in column x of row k
/// prints. `errors` holds the errors of the row above, that of column x at x + 22, and afterwards those of
/// the last row. So a step reads far behind the place that it writes, and loads eight numbers at once without
/// waiting for a store. `columns` is scratch space for the values.
pub(crate) fn diffuse_block(
    values: &[&[u8]; 8],
    errors: &mut [i16],
    dots: &mut [u8],
    columns: &mut [u8],
)
    requires room { length errors.old ≡ length dots.old + 23 }
    requires columns { length columns.old ≡ 8 * length dots.old }
    requires values { (k : ℕ) → k < 8 → length (row_in values.now k) + 21 ≡ length dots.old }
    requires errors { (x : ℕ) → IsError (number_at errors.old x) }
    requires left { (x : ℕ) → x < 22 → number_at errors.old x ≡ pos 0 }
    requires right { (x : ℕ) → length dots.old < x → number_at errors.old x ≡ pos 0 }
    ensures dots { (k x : ℕ) → k < 8 → x + 21 < length dots.old →
        bit_of (slice_index dots.new (x + 3 * k)) k
        ≡ prints (block_v (left_in errors.old) (rows_in values.now) k x) }
    ensures errors { (x : ℕ) →
        number_at errors.new x ≡ block_left (left_in errors.old) (rows_in values.now) 8 (x - 21) }
    ensures small { (x : ℕ) → IsError (number_at errors.new x) }
{
    let width = dots.len() - LAST_LAG;
    set_columns(values, width, columns);
    let columns = &*columns;
    let done = width.max(LAST_LAG);
    let mut wave = first_wave(errors);
    for step in 0..LAST_LAG {
        wave = edge_step(wave, step, width, errors, dots, columns);
    }
    for step in LAST_LAG..width {
        wave = whole_step(wave, step, errors, dots, columns);
    }
    for step in done..dots.len() {
        wave = edge_step(wave, step, width, errors, dots, columns);
    }
}

/// Returns the errors that the first step needs: those above the first column of the first row.
fn first_wave(errors: &[i16]) -> Wavefront
    requires room { 23 ≤ length errors.now }
    requires small { (x : ℕ) → IsError (number_at errors.now x) }
    ensures wave { HasErrors result }
    ensures reached { (above : ℕ → ℤ) (rows : List (List ℕ)) (dots : List ℕ) →
        ((x : ℕ) → number_at errors.now x ≡ above (x - 21)) → above 0 ≡ pos 0 →
        IsReached above rows 0 result errors.now dots }
{
    let none = i16x8::splat(0);
    Wavefront {
        left: none,
        older: none,
        above: moved_on(errors_to(errors, LAST_LAG + 1), none),
        above_left: none,
    }
}

/// Takes a step in which each row has a column. Without one, a row gets an error that is of no use, and the
/// others are still right.
#[inline(always)]
fn whole_step(
    wave: Wavefront,
    step: usize,
    errors: &mut [i16],
    dots: &mut [u8],
    columns: &[u8],
) -> Wavefront
    requires may { MayStep step wave errors.old dots.old columns.now }
    ensures wave { HasErrors result }
    ensures small { (x : ℕ) → IsError (number_at errors.new x) }
    ensures last { number_at errors.new (step + 1) ≡ number_at result.left 7 }
    ensures left { (above : ℕ → ℤ) (rows : List (List ℕ)) → HasValues rows step columns.now →
        IsReached above rows step wave errors.old dots.old →
        (k : ℕ) → k < 8 → 3 * k ≤ step → step < length (slice_index_or rows k []) + 3 * k →
        number_at result.left k ≡ block_left above rows (k + 1) (step + 1 - 3 * k) }
    ensures past { (above : ℕ → ℤ) (rows : List (List ℕ)) → HasValues rows step columns.now →
        IsReached above rows step wave errors.old dots.old →
        IsPast above rows (step + 1) result errors.new dots.new }
{
    let above_right = errors_above(errors, step, wave.older);
    let sums = whole_sums(
        column_at(columns, step),
        wave.left,
        above_right,
        wave.above,
        wave.above_left,
    );
    let left = errors_of(sums);
    dots[step] = dots_of(sums);
    errors[step + 1] = last_of(left);
    Wavefront {
        left,
        older: wave.left,
        above: above_right,
        above_left: wave.above,
    }
}

/// Takes a step in which some rows are outside their columns, which leaves no error there.
fn edge_step(
    wave: Wavefront,
    step: usize,
    width: usize,
    errors: &mut [i16],
    dots: &mut [u8],
    columns: &[u8],
) -> Wavefront
    requires may { MayStep step wave errors.old dots.old columns.now }
    requires fits { width + 21 < 2 ^ 64 }
    ensures wave { HasErrors result }
    ensures small { (x : ℕ) → IsError (number_at errors.new x) }
    ensures reached { (above : ℕ → ℤ) (rows : List (List ℕ)) → HasValues rows step columns.now →
        ((k : ℕ) → k < 8 → length (slice_index_or rows k []) ≡ width) →
        IsReached above rows step wave errors.old dots.old →
        IsReached above rows (step + 1) result errors.new dots.new }
{
    let next = whole_step(wave, step, errors, dots, columns);
    let left = within(next.left, step, width);
    errors[step + 1] = last_of(left);
    Wavefront { left, ..next }
}

/// Returns the error above and to the right of each row's pixel in a step. For the first row it comes from
/// the row above the block; for each other row, from the row above it, which made it two steps before.
/// `made` holds all errors of that step.
#[inline(always)]
fn errors_above(errors: &[i16], step: usize, made: i16x8) -> i16x8
    requires room { step + 24 ≤ length errors.now }
    requires eight { length made ≡ 8 }
    ensures eight { length result ≡ 8 }
    ensures first { FitsSigned w16 (number_at errors.now (step + 23)) →
        number_at result 0 ≡ number_at errors.now (step + 23) }
    ensures others { (k : ℕ) → k < 7 → FitsSigned w16 (number_at made k) →
        number_at result (k + 1) ≡ number_at made k }
{
    moved_on(errors_to(errors, step + LAST_LAG + 2), made)
}

/// Returns the errors that a step made, with 0 for each row that has not reached its first column or is past
/// its last.
fn within(errors: i16x8, step: usize, width: usize) -> i16x8
    requires eight { length errors ≡ 8 }
    requires fits { width + 21 < 2 ^ 64 }
    ensures eight { length result ≡ 8 }
    ensures inside { (k : ℕ) → k < 8 → 3 * k ≤ step → step < width + 3 * k →
        FitsSigned w16 (number_at errors k) → number_at result k ≡ number_at errors k }
    ensures before { (k : ℕ) → k < 8 → step < 3 * k → number_at result k ≡ pos 0 }
    ensures behind { (k : ℕ) → k < 8 → width + 3 * k ≤ step → number_at result k ≡ pos 0 }
{
    let mut numbers = errors.to_array();
    for k in 0..8 {
        numbers[k] = error_within(numbers[k], k, step, width);
    }
    i16x8::from_array(numbers)
}

/// Returns the error of one row, or 0 outside the row's columns.
fn error_within(error: i16, k: usize, step: usize, width: usize) -> i16
    requires row { k < 8 }
    requires fits { width + 21 < 2 ^ 64 }
    ensures inside { 3 * k ≤ step → step < width + 3 * k → result ≡ error }
    ensures before { step < 3 * k → result ≡ pos 0 }
    ensures behind { width + 3 * k ≤ step → result ≡ pos 0 }
{
    if step < LAG * k || step >= width + LAG * k {
        0
    } else {
        error
    }
}
