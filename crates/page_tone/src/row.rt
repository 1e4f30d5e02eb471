// The ink limit of each pixel of a row.
ghost use Rattle.std.specs.Prelude.{◌≡◌, ℕ, ◌+◌, ◌<◌, ◌≤◌, IsTrue, length, slice_index};
ghost use Rattle.page_tone.specs.Limit.{AreLimited, HasLimited, MayLimit};

use crate::block::{BLOCK, all_are};
use crate::limit::limit_inks;

/// The most ink of a pixel without colour.
const MOST_BLACK: u16 = 255;

/// Limits the ink of each pixel of a row as `limit_inks` does. The four slices hold the row's values ink by
/// ink.
pub fn limit_row(
    limit: u16,
    cyan: &mut [u8],
    magenta: &mut [u8],
    yellow: &mut [u8],
    black: &mut [u8],
)
    requires limit { limit ≤ 1020 }
    requires magenta { length magenta.old ≡ length cyan.old }
    requires yellow { length yellow.old ≡ length cyan.old }
    requires black { length black.old ≡ length cyan.old }
    ensures { AreLimited limit cyan.old magenta.old yellow.old black.old
        cyan.new magenta.new yellow.new black.new }
{
    let width = cyan.len();
    for block in 0..width / BLOCK + 1 {
        let from = BLOCK * block;
        let to = (from + BLOCK).min(width);
        limit_block(limit, from, to, cyan, magenta, yellow, black);
    }
}

/// Limits the ink of the pixels from column `from` to `to`, exclusive. Writes nothing where no pixel is above
/// the limit.
fn limit_block(
    limit: u16,
    from: usize,
    to: usize,
    cyan: &mut [u8],
    magenta: &mut [u8],
    yellow: &mut [u8],
    black: &mut [u8],
)
    requires { MayLimit limit from to cyan.old magenta.old yellow.old black.old }
    ensures { HasLimited limit from to cyan.old magenta.old yellow.old black.old
        cyan.new magenta.new yellow.new black.new }
{
    if limit >= MOST_BLACK && are_bare(from, to, cyan, magenta, yellow) {
        return;
    }
    if most_ink(from, to, cyan, magenta, yellow, black) <= limit {
        return;
    }
    for x in from..to {
        let inks = [cyan[x], magenta[x], yellow[x], black[x]];
        let [c, m, y, k] = limit_inks(inks, limit);
        cyan[x] = c;
        magenta[x] = m;
        yellow[x] = y;
        black[x] = k;
    }
}

/// Returns true only if the pixels from column `from` to `to`, exclusive, have no colour. They are tested only
/// where they are a whole block.
fn are_bare(from: usize, to: usize, cyan: &[u8], magenta: &[u8], yellow: &[u8]) -> bool
    requires order { from ≤ to }
    requires to { to ≤ length cyan.now }
    requires magenta { length magenta.now ≡ length cyan.now }
    requires yellow { length yellow.now ≡ length cyan.now }
    ensures { IsTrue result → (x : ℕ) → from ≤ x → x < to → (slice_index cyan.now x ≡ 0)
        × (slice_index magenta.now x ≡ 0) × (slice_index yellow.now x ≡ 0) }
{
    if to - from != BLOCK {
        return false;
    }
    if !all_are(cyan, from, 0) {
        return false;
    }
    if !all_are(magenta, from, 0) {
        return false;
    }
    all_are(yellow, from, 0)
}

/// Returns the most ink, all four values together, of the pixels from column `from` to `to`, exclusive.
fn most_ink(from: usize, to: usize, cyan: &[u8], magenta: &[u8], yellow: &[u8], black: &[u8]) -> u16
    requires to { to ≤ length cyan.now }
    requires magenta { length magenta.now ≡ length cyan.now }
    requires yellow { length yellow.now ≡ length cyan.now }
    requires black { length black.now ≡ length cyan.now }
    ensures { (x : ℕ) → from ≤ x → x < to →
        slice_index cyan.now x + slice_index magenta.now x + slice_index yellow.now x
        + slice_index black.now x ≤ result }
{
    let mut most = 0;
    for x in from..to {
        most = most.max(cyan[x] as u16 + magenta[x] as u16 + yellow[x] as u16 + black[x] as u16);
    }
    most
}
