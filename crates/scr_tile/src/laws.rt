// Laws of Bayer's matrices, proved from their definition.
ghost use Rattle.scr_tile.specs.DotLaw.{HasEachIndexOnce, PrintsThresholdsBelow};
ghost use Rattle.scr_tile.specs.Tile.{IsBayerSide};

/// The dot law: each index occurs once in the matrix of side `n`, and on one whole tile a flat value prints
/// as many dots as there are thresholds below it.
pub fn dot_law(n: u8)
    requires { IsBayerSide n }
    ensures indexes { HasEachIndexOnce n }
    ensures dots { PrintsThresholdsBelow n }
{}
