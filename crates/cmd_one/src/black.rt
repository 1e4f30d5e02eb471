// The black ink of a contone row, screened with the Bayer tile of side 4.
ghost use Rattle.std.specs.Prelude.{◌≡◌, ℕ, ◌+◌, ◌*◌, ◌<◌, ◌≤◌, length, false, slice_index};
ghost use Rattle.pr_base.specs.Row.{row_size};
ghost use Rattle.pr_base.specs.Bits.{bit_at, packed_row};
ghost use Rattle.scr_tile.specs.Tile.{threshold_at, tile_bit};
ghost use Rattle.scr_tile.specs.AnyTile.{threshold_of};

use scr_tile::{AnyTile, screen_row};

/// Copies the black samples of a row of CMYK pixels.
fn take_black(pixels: &[u8], black: &mut [u8])
    requires { length pixels.now ≡ 4 * length black.old }
    ensures { (x : ℕ) → x < length black.new → slice_index black.new x ≡ slice_index pixels.now (4 * x + 3) }
{
    for (x, sample) in black.iter_mut().enumerate() {
        *sample = pixels[4 * x + 3];
    }
}

/// Screens the black samples of row `y` to one bit per pixel. `black` is the buffer for the samples, and
/// `bits` for the row, whose padding bits are 0 before and after.
pub(crate) fn screen_black(tile: &AnyTile, y: u32, pixels: &[u8], black: &mut [u8], bits: &mut [u8])
    requires tile { (x y : ℕ) → threshold_of tile.now x y ≡ threshold_at 4 x y }
    requires pixels { length pixels.now ≡ 4 * length black.old }
    requires bits { length bits.old ≡ row_size (length black.old) }
    requires padding { (x : ℕ) → length black.old ≤ x → bit_at bits.old x ≡ false }
    ensures row { bits.new ≡ packed_row (length black.old)
        (λ x. tile_bit (slice_index pixels.now (4 * x + 3)) (threshold_at 4 x y)) }
    ensures padding { (x : ℕ) → length black.old ≤ x → bit_at bits.new x ≡ false }
{
    take_black(pixels, black);
    screen_row(tile, y, black, bits, 0);
}
