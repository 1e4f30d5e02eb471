// The size of a row of one-bit pixels.
ghost use Rattle.std.specs.Prelude.{◌≡◌};
ghost use Rattle.pr_base.specs.Row.{row_size};

/// Returns the bytes in a row of `width` one-bit pixels: eight pixels per byte, the last byte padded
/// (TIFF 6.0, Section 3).
pub fn row_bytes(width: u32) -> usize
    ensures { result ≡ row_size width }
{
    width.div_ceil(8) as usize
}
