// Laws of the constants in `tag`.
ghost use Rattle.std.specs.Prelude.{◌≡◌};
ghost use Rattle.tif_dir.specs.Names as number;

use crate::tag::*;

/// States that each constant is the number of its tag in the standard.
pub fn tags_law()
    ensures image_width { IMAGE_WIDTH ≡ number.image_width }
    ensures image_length { IMAGE_LENGTH ≡ number.image_length }
    ensures bits_per_sample { BITS_PER_SAMPLE ≡ number.bits_per_sample }
    ensures compression { COMPRESSION ≡ number.compression }
    ensures photometric_interpretation { PHOTOMETRIC_INTERPRETATION ≡ number.photometric_interpretation }
    ensures fill_order { FILL_ORDER ≡ number.fill_order }
    ensures strip_offsets { STRIP_OFFSETS ≡ number.strip_offsets }
    ensures orientation { ORIENTATION ≡ number.orientation }
    ensures samples_per_pixel { SAMPLES_PER_PIXEL ≡ number.samples_per_pixel }
    ensures rows_per_strip { ROWS_PER_STRIP ≡ number.rows_per_strip }
    ensures strip_byte_counts { STRIP_BYTE_COUNTS ≡ number.strip_byte_counts }
    ensures x_resolution { X_RESOLUTION ≡ number.x_resolution }
    ensures y_resolution { Y_RESOLUTION ≡ number.y_resolution }
    ensures planar_configuration { PLANAR_CONFIGURATION ≡ number.planar_configuration }
    ensures resolution_unit { RESOLUTION_UNIT ≡ number.resolution_unit }
    ensures tile_width { TILE_WIDTH ≡ number.tile_width }
    ensures tile_length { TILE_LENGTH ≡ number.tile_length }
    ensures tile_offsets { TILE_OFFSETS ≡ number.tile_offsets }
    ensures tile_byte_counts { TILE_BYTE_COUNTS ≡ number.tile_byte_counts }
    ensures ink_set { INK_SET ≡ number.ink_set }
    ensures dot_range { DOT_RANGE ≡ number.dot_range }
{}
