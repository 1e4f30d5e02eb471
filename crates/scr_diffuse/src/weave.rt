// Interleaves eight rows: the eight values of a column become contiguous. Each row lags behind the one before
// it.
ghost use Rattle.std.specs.Prelude.{◌≡◌, ℕ, ◌+◌, ◌-◌, ◌*◌, ◌/◌, ◌%◌, ◌^◌, ◌<◌, ◌≤◌, length, slice_index};
ghost use Rattle.scr_diffuse.specs.Block.{row_in};
ghost use Rattle.scr_diffuse.specs.Weave.{AreVectors, HasColumns, value_behind, woven_at};

use crate::block::{LAG, LAST_LAG};
use std::simd::prelude::*;

/// How many columns are interleaved at once.
const BLOCK: usize = 16;

/// Interleaves eight rows, each `LAG` columns behind the one before it: in whole blocks of columns where
/// every row has values, and column by column at both ends.
#[inline(always)]
pub(crate) fn set_columns(rows: &[&[u8]; 8], width: usize, columns: &mut [u8])
    requires rows { (k : ℕ) → k < 8 → length (row_in rows.now k) ≡ width }
    requires room { length columns.old ≡ 8 * (width + 21) }
    ensures { HasColumns rows.now (width + 21) columns.new }
{
    let ragged = width.min(LAST_LAG);
    let done = ragged + (width - ragged) / BLOCK * BLOCK;
    for x in 0..ragged {
        set_column(rows, x, columns);
    }
    for block in 0..(width - ragged) / BLOCK {
        set_block(rows, ragged + BLOCK * block, columns);
    }
    for x in done..width + LAST_LAG {
        set_column(rows, x, columns);
    }
}

/// Writes the columns of a block from column `first` on, after the columns before it.
#[inline(always)]
fn set_block(rows: &[&[u8]; 8], first: usize, columns: &mut [u8])
    requires late { 21 ≤ first }
    requires rows { (k : ℕ) → k < 8 → first + 16 ≤ length (row_in rows.now k) }
    requires room { 8 * first + 128 ≤ length columns.old }
    requires before { HasColumns rows.now first columns.old }
    ensures { HasColumns rows.now (first + 16) columns.new }
{
    let woven = weave(weave(weave(block_of(rows, first))));
    for k in 0..8 {
        let from = 8 * first + 16 * k;
        woven[k].copy_to_slice(&mut columns[from..from + 16]);
    }
}

/// Returns the values of a block of columns, a vector for each row.
#[inline(always)]
fn block_of(rows: &[&[u8]; 8], first: usize) -> [u8x16; 8]
    requires fits { first + 16 < 2 ^ 64 }
    requires late { 21 ≤ first }
    requires rows { (k : ℕ) → k < 8 → first + 16 ≤ length (row_in rows.now k) }
    ensures vectors { AreVectors result }
    ensures values { (k x : ℕ) → k < 8 → x < 16 →
        woven_at result (16 * k + x) ≡ slice_index (row_in rows.now k) (first - 3 * k + x) }
{
    [
        values_from(rows, 0, first),
        values_from(rows, 1, first - LAG),
        values_from(rows, 2, first - 2 * LAG),
        values_from(rows, 3, first - 3 * LAG),
        values_from(rows, 4, first - 4 * LAG),
        values_from(rows, 5, first - 5 * LAG),
        values_from(rows, 6, first - 6 * LAG),
        values_from(rows, 7, first - 7 * LAG),
    ]
}

/// Returns sixteen values of one of eight rows.
#[inline(always)]
fn values_from(rows: &[&[u8]; 8], k: usize, first: usize) -> u8x16
    requires fits { first + 16 < 2 ^ 64 }
    requires row { k < 8 }
    requires columns { first + 16 ≤ length (row_in rows.now k) }
    ensures sixteen { length result ≡ 16 }
    ensures values { (x : ℕ) → x < 16 → slice_index result x ≡ slice_index (row_in rows.now k) (first + x) }
{
    u8x16::from_slice(&rows[k][first..first + 16])
}

/// Interleaves the first half of eight vectors with the second half: places are taken from both in turn.
#[inline(always)]
fn weave(v: [u8x16; 8]) -> [u8x16; 8]
    requires { AreVectors v }
    ensures vectors { AreVectors result }
    ensures places { (n : ℕ) → n < 128 → woven_at result n ≡ woven_at v (64 * (n % 2) + n / 2) }
{
    let (a, b) = v[0].interleave(v[4]);
    let (c, d) = v[1].interleave(v[5]);
    let (e, f) = v[2].interleave(v[6]);
    let (g, h) = v[3].interleave(v[7]);
    [a, b, c, d, e, f, g, h]
}

/// Writes the values of column `x`, after the columns before it.
fn set_column(rows: &[&[u8]; 8], x: usize, columns: &mut [u8])
    requires room { 8 * x + 8 ≤ length columns.old }
    requires before { HasColumns rows.now x columns.old }
    ensures { HasColumns rows.now (x + 1) columns.new }
{
    for k in 0..8 {
        columns[8 * x + k] = value_at(rows, k, x, LAG * k);
    }
}

/// Returns the value of row `k` in column `x` when the row is `behind` columns behind, or 0 where it has none
/// there.
fn value_at(rows: &[&[u8]; 8], k: usize, x: usize, behind: usize) -> u8
    requires row { k < 8 }
    ensures { result ≡ value_behind (row_in rows.now k) x behind }
{
    if x >= behind && x - behind < rows[k].len() {
        rows[k][x - behind]
    } else {
        0
    }
}
