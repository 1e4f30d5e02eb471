// A block of neighbouring values of an ink. In most blocks all are the same: no ink, or full ink.
ghost use Rattle.std.specs.Prelude.{◌≡◌, ℕ, ◌+◌, ◌<◌, ◌≤◌, IsTrue, length, slice_index};
ghost use Rattle.page_tone.specs.Limit.{IsWritten};

use std::simd::prelude::*;

/// The number of values in a block: the lanes of the widest vector.
pub(crate) const BLOCK: usize = 64;

/// Returns true only if each value of the block at column `from` of a row is `value`.
pub(crate) fn all_are(values: &[u8], from: usize, value: u8) -> bool
    requires { from + BLOCK ≤ length values.now }
    ensures { IsTrue result → (x : ℕ) → from ≤ x → x < from + BLOCK → slice_index values.now x ≡ value }
{
    let all = u8x64::splat(value);
    let others = u8x64::from_slice(&values[from..from + BLOCK]).simd_ne(all);
    others.to_bitmask() == 0
}

/// Writes a value to each column of the block at column `from`.
pub(crate) fn fill(from: usize, value: u8, into: &mut [u8])
    requires { from + BLOCK ≤ length into.old }
    ensures { IsWritten (λ _. value) from (from + BLOCK) into.old into.new }
{
    for x in from..from + BLOCK {
        into[x] = value;
    }
}
