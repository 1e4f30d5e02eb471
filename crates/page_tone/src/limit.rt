// The ink limit (TAC) of one pixel.
ghost use Rattle.std.specs.Prelude.{◌≡◌, ◌+◌, ◌*◌, ◌/◌, ◌≤◌, ◌^◌, slice_index, sum};
ghost use Rattle.page_tone.specs.Limit.{limited};

use crate::reciprocals::share_of;

/// Returns the inks C, M, Y, K of a pixel, reduced so that they sum to at most `limit`. Black is reduced only
/// where it alone is above the limit; the colours share what black leaves in proportion to their values,
/// rounded down.
pub fn limit_inks(inks: [u8; 4], limit: u16) -> [u8; 4]
    requires { limit ≤ 1020 }
    ensures limited { result
        ≡ limited (slice_index inks 0) (slice_index inks 1) (slice_index inks 2) (slice_index inks 3) limit }
    ensures within { sum result ≤ limit }
{
    let [c, m, y, k] = inks;
    let colours = c as u32 + m as u32 + y as u32;
    let limit = limit as u32;
    let black = limit.min(k as u32);
    // Where the limit leaves room for all colours, each colour's share is the colour itself.
    let rest = (limit - black).min(colours);
    let share = share_of(rest, colours);
    [part(c, share), part(m, share), part(y, share), black as u8]
}

/// Returns a colour's part of the ink that black leaves.
fn part(value: u8, share: u32) -> u8
    requires { share ≤ 2 ^ 24 + 48 }
    ensures { result ≡ value * share / 2 ^ 24 }
{
    (value as u32 * share >> 24) as u8
}
