// The division of a plate's rows into strips.
ghost use Rattle.std.specs.Prelude.{◌≡◌, ◌≤◌, ◌*◌};
ghost use Rattle.pr_base.specs.Row.{row_size};
ghost use Rattle.tif_plate.specs.Plate.{IsSide, rows_each, strip_count};

use pr_base::row_bytes;

/// The maximum bytes of a strip before packing, unless a single row is longer (TIFF 6.0, Section 3,
/// recommends 8 kilobytes).
const STRIP_BYTES: u32 = 8192;

/// Returns the number of rows per strip of a plate `width` pixels wide; the last strip may have fewer.
pub fn rows_per_strip(width: u32) -> u32
    requires { IsSide width }
    ensures rows { result ≡ rows_each width }
    ensures within { result * row_size width ≤ 8192 }
{
    (STRIP_BYTES / row_bytes(width) as u32).max(1)
}

/// Returns the number of strips of a plate of `width` by `height` pixels.
pub fn strips(width: u32, height: u32) -> u32
    requires width { IsSide width }
    requires height { IsSide height }
    ensures count { result ≡ strip_count width height }
    ensures within { result ≤ height }
{
    height.div_ceil(rows_per_strip(width))
}
