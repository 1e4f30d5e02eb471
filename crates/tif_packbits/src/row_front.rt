// The first packet of a row: a run of equal bytes, or a literal.
ghost use Rattle.std.specs.Prelude.{◌≡◌, ℕ, ◌<◌, ◌≤◌, IfSome, false, length, drop, slice_index};
ghost use Rattle.tif_packbits.specs.Front.{HasPairs, IsFront};
ghost use Rattle.tif_packbits.specs.Packbits.{begins_run, run_len, literal_len};

use crate::pack::LONGEST;
use std::simd::prelude::*;

/// The minimum number of equal bytes that are packed as a repeat.
const SHORTEST_RUN: usize = 3;

/// The number of bytes compared with their neighbours in one step.
const BLOCK: usize = 32;

/// The first packet of a row, or the first two, each with the number of bytes of the row it represents.
pub(crate) enum Front {
    Run(usize),
    Literal(usize),
    /// A literal and the run that ends it.
    Both(usize, usize),
}

/// Returns the first packet of `row`. The first block of bytes nearly always decides it, and mostly also
/// gives the run after a literal, which saves a second scan.
pub(crate) fn front_of(row: &[u8]) -> Front
    requires { 0 < length row.now }
    ensures { IsFront row.now result }
{
    if row.len() > BLOCK {
        return front_by(row, pairs(row));
    }
    let run = front_run(row);
    if run >= SHORTEST_RUN {
        return Front::Run(run);
    }
    Front::Literal(front_literal(row))
}

/// Returns the first packet of a row with these pairs.
fn front_by(row: &[u8], pairs: u64) -> Front
    requires block { BLOCK < length row.now }
    requires pairs { HasPairs row.now BLOCK pairs }
    ensures { IsFront row.now result }
{
    if pairs & 3 == 3 {
        return Front::Run(run_by(row, pairs, BLOCK));
    }
    match first_run(row, pairs) {
        None => return Front::Literal(front_literal(row)),
        Some(n) => {
            let run = run_by(&row[n..], pairs >> n, BLOCK - n);
            return Front::Both(n, run);
        }
    }
}

/// Returns the number of bytes before the first run, if that begins in the first block: where a pair
/// follows a pair.
fn first_run(row: &[u8], pairs: u64) -> Option<usize>
    requires block { BLOCK < length row.now }
    requires pairs { HasPairs row.now BLOCK pairs }
    ensures { IfSome result (λ n. (n < BLOCK) × (n ≡ literal_len row.now) × (3 ≤ run_len (drop n row.now))) }
{
    let runs = pairs & pairs >> 1;
    if runs == 0 {
        return None;
    }
    let n = runs.trailing_zeros() as usize;
    Some(n)
}

/// Returns a word with a bit for each byte of the first block, the first byte in the lowest bit. A bit is set
/// if its byte equals the next.
#[tactic(auto, using(crate::proofs::Pairs::pairs_of_mask))]
fn pairs(row: &[u8]) -> u64
    requires { BLOCK < length row.now }
    ensures { HasPairs row.now BLOCK result }
{
    let here = u8x32::from_slice(row);
    let next = u8x32::from_slice(&row[1..]);
    here.simd_eq(next).to_bitmask()
}

/// Returns the length of the run at the start of a row whose first `count` pairs are known.
fn run_by(row: &[u8], pairs: u64, count: usize) -> usize
    requires count { count ≤ BLOCK }
    requires more { count < length row.now }
    requires pairs { HasPairs row.now count pairs }
    ensures { result ≡ run_len row.now }
{
    let equal = pairs.trailing_ones() as usize;
    if equal < count {
        return equal + 1;
    }
    front_run(row)
}

/// Returns the length of the run of equal bytes at the start of `row`, at most the longest packet.
fn front_run(row: &[u8]) -> usize
    requires { 0 < length row.now }
    ensures { result ≡ run_len row.now }
{
    let most = row.len().min(LONGEST);
    let mut n = run_in_blocks(row);
    if n >= most {
        return most;
    }
    while n < most && row[n] == row[0] {
        n += 1;
    }
    n
}

/// Counts equal bytes at the start of `row`, block by block. Stops at a different byte, less than a block
/// before the end of the row, or at or beyond the longest packet.
fn run_in_blocks(row: &[u8]) -> usize
    requires { 0 < length row.now }
    ensures some { 1 ≤ result }
    ensures within { result ≤ length row.now }
    ensures equal { (k : ℕ) → k < result → slice_index row.now k ≡ slice_index row.now 0 }
{
    let mut n = 1;
    while n < LONGEST && n + BLOCK <= row.len() {
        let equal = pairs(&row[n - 1..]).trailing_ones() as usize;
        n += equal;
        if equal < BLOCK {
            return n;
        }
    }
    n
}

/// Returns the length of the longest prefix of `row`, at most the longest packet, with no index at which
/// three equal bytes begin.
fn front_literal(row: &[u8]) -> usize
    ensures { result ≡ literal_len row.now }
{
    let most = row.len().min(LONGEST);
    let mut at = literal_in_blocks(row);
    while at < most && at + 2 < row.len() {
        if row[at + 1] != row[at + 2] {
            // No three equal bytes begin at this index or the next.
            at += 2;
        } else if row[at] == row[at + 1] {
            return at;
        } else {
            at += 1;
        }
    }
    most
}

/// Finds, block by block, a prefix of `row` with no index at which three equal bytes begin. Stops at such
/// an index, at most a block before the end of the row, or at or beyond the longest packet.
fn literal_in_blocks(row: &[u8]) -> usize
    ensures within { result ≤ length row.now }
    ensures none { (k : ℕ) → k < result → begins_run (drop k row.now) ≡ false }
{
    let mut at = 0;
    while at < LONGEST && at + BLOCK < row.len() {
        let pairs = pairs(&row[at..]);
        let runs = pairs & pairs >> 1;
        if runs != 0 {
            return at + runs.trailing_zeros() as usize;
        }
        // Whether a run begins at the last byte of a block depends on a pair outside the block.
        at += BLOCK - 1;
    }
    at
}
