// Screening pixel by pixel, for the pixels of a packed row that don't fill a block.
ghost use Rattle.std.specs.Prelude.{◌+◌, ◌*◌, ◌^◌, ◌<◌, ◌≤◌, length, slice_index};
ghost use Rattle.pr_base.specs.Bits.{SetsBits};
ghost use Rattle.scr_tile.specs.Tile.{tile_bit};

use pr_base::set_bit;

/// Writes the pixels from `from` on: each is set where its value is above its threshold.
#[tactic(auto, using(pr_base::proofs::BitLemmas::growing))]
pub(crate) fn set_bits(thresholds: &[u8], values: &[u8], bits: &mut [u8], from: usize)
    requires thresholds { length values.now ≤ length thresholds.now }
    requires room { from + length values.now ≤ 8 * length bits.old }
    requires fits { from + length values.now < 2 ^ 64 }
    ensures { SetsBits
        (λ x. tile_bit (slice_index values.now x) (slice_index thresholds.now x))
        from (length values.now) bits.old bits.new }
{
    for x in 0..values.len() {
        set_bit(bits, from + x, values[x] > thresholds[x]);
    }
}
