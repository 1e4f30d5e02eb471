// A threshold tile of any size that a screen may use.
ghost use Rattle.std.specs.Prelude.{◌≡◌, ℕ, ◌*◌, ◌↔◌, length, IsSome, IfSome};
ghost use Rattle.scr_tile.specs.Tile.{IsSide, IsBayerSide, threshold_at};

use crate::{OwnTile, Tile, bayer};

/// A Bayer tile, or a custom tile with the plan's own thresholds.
#[derive(Drop)]
pub enum AnyTile {
    B2(Tile<2, 2>),
    B4(Tile<4, 4>),
    B8(Tile<8, 8>),
    B16(Tile<16, 16>),
    Own(OwnTile),
}

impl AnyTile {
    ghost use Rattle.scr_tile.specs.AnyTile.{tile_height, tile_width, threshold_of};

    /// Returns the Bayer tile of side `n`, or `None` where `n` is not 2, 4, 8 or 16.
    pub fn bayer(n: u8) -> Option<AnyTile>
        ensures built { IsSome result ↔ IsBayerSide n }
        ensures width { IfSome result (λ tile. tile_width tile ≡ n) }
        ensures height { IfSome result (λ tile. tile_height tile ≡ n) }
        ensures thresholds { IfSome result (λ tile. (x y : ℕ) → threshold_of tile x y ≡ threshold_at n x y) }
    {
        match n {
            2 => Some(AnyTile::B2(bayer())),
            4 => Some(AnyTile::B4(bayer())),
            8 => Some(AnyTile::B8(bayer())),
            16 => Some(AnyTile::B16(bayer())),
            _ => None,
        }
    }

    /// Makes a custom tile of `height` rows of `width` thresholds, which `at` holds row by row.
    pub fn own(width: u32, height: u32, at: Vec<u8>) -> AnyTile
        requires width { IsSide width }
        requires height { IsSide height }
        requires numbers { length at.items ≡ width * height }
        ensures { result ≡ AnyTile.Own (record { width = width; height = height; at = at.items }) }
    {
        AnyTile::Own(OwnTile::of(width, height, at))
    }
}
