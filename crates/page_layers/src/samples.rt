// The samples of one ink of a row of pixels, extracted sixteen pixels at a time: whole blocks first, then the
// rest one by one.
ghost use Rattle.std.specs.Prelude.{ℕ, ◌*◌, ◌<◌, ◌≤◌, length};
ghost use Rattle.page_layers.specs.Rows.{IsStretched};

use crate::stretch::runs;
use std::simd::prelude::*;

/// The length of a block in bytes: sixteen pixels of four bytes.
const BLOCK: usize = 64;

/// The place in a block of each value to write, when each sample is written once.
const ONCE: [usize; 16] = [0, 4, 8, 12, 16, 20, 24, 28, 32, 36, 40, 44, 48, 52, 56, 60];

/// The same when each sample is written twice.
const TWICE: [usize; 32] = [
    0, 0, 4, 4, 8, 8, 12, 12, 16, 16, 20, 20, 24, 24, 28, 28, 32, 32, 36, 36, 40, 40, 44, 44, 48,
    48, 52, 52, 56, 56, 60, 60,
];

/// The same when each sample is written four times.
const FOUR_TIMES: [usize; 64] = [
    0, 0, 0, 0, 4, 4, 4, 4, 8, 8, 8, 8, 12, 12, 12, 12, 16, 16, 16, 16, 20, 20, 20, 20, 24, 24, 24,
    24, 28, 28, 28, 28, 32, 32, 32, 32, 36, 36, 36, 36, 40, 40, 40, 40, 44, 44, 44, 44, 48, 48, 48,
    48, 52, 52, 52, 52, 56, 56, 56, 56, 60, 60, 60, 60,
];

// Fills the blocks of a row, each of `$wide` values, then the rest.
macro_rules! stretch_blocks {
    ($source:ident, $into:ident, $places:ident, $scale:literal, $wide:literal) => {
        let count = ($into.len() / $wide).min($source.len() / BLOCK);
        for k in 0..count {
            u8x64::from_slice(&$source[BLOCK * k..BLOCK * k + BLOCK])
                .swizzle($places)
                .copy_to_slice(&mut $into[$wide * k..$wide * k + $wide]);
        }
        runs($source, 4, $scale, 16 * count, $into);
    };
}

/// Fills a row with the samples of one ink, each once.
pub(crate) fn samples_once(source: &[u8], into: &mut [u8])
    requires small { length into.old ≤ 65535 }
    requires enough { (n : ℕ) → 1 * n < length into.old → 4 * n < length source.now }
    ensures { IsStretched source.now 4 1 (length into.old) into.new }
{
    stretch_blocks!(source, into, ONCE, 1, 16);
}

/// Fills a row with the samples of one ink, each twice.
pub(crate) fn samples_twice(source: &[u8], into: &mut [u8])
    requires small { length into.old ≤ 65535 }
    requires enough { (n : ℕ) → 2 * n < length into.old → 4 * n < length source.now }
    ensures { IsStretched source.now 4 2 (length into.old) into.new }
{
    stretch_blocks!(source, into, TWICE, 2, 32);
}

/// Fills a row with the samples of one ink, each four times.
pub(crate) fn samples_four_times(source: &[u8], into: &mut [u8])
    requires small { length into.old ≤ 65535 }
    requires enough { (n : ℕ) → 4 * n < length into.old → 4 * n < length source.now }
    ensures { IsStretched source.now 4 4 (length into.old) into.new }
{
    stretch_blocks!(source, into, FOUR_TIMES, 4, 64);
}
