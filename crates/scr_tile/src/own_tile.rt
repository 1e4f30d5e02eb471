// A custom threshold tile, whose sides are known only at run time.
ghost use Rattle.std.specs.Prelude.{◌≡◌, ◌+◌, ◌*◌, ◌%◌, length, slice_index, slice_range};
ghost use Rattle.scr_tile.specs.Tile.{IsSide};

use std::marker::Model;

/// A tile of a plan's own thresholds, row by row. Contracts see its width, height and thresholds.
#[derive(Drop)]
pub struct OwnTile {
    width: usize,
    height: usize,
    at: Vec<u8>,
}

impl Model for OwnTile {
    ghost use Rattle.std.specs.Prelude.{◌≡◌, ◌*◌, length};
    ghost use Rattle.scr_tile.specs.Tile.{IsSide, Numbers};

    ghost Value = { Numbers };

    ghost view = { λ t. record { width = t.width; height = t.height; at = t.at.items } };

    ghost invariant = { λ t. IsSide t.width × IsSide t.height × (length t.at.items ≡ t.width * t.height) };
}

impl OwnTile {
    /// Makes the tile of these thresholds.
    pub(crate) fn of(width: u32, height: u32, at: Vec<u8>) -> OwnTile
        requires width { IsSide width }
        requires height { IsSide height }
        requires numbers { length at.items ≡ width * height }
        ensures { result ≡ record { width = width; height = height; at = at.items } }
    {
        OwnTile {
            width: width as usize,
            height: height as usize,
            at,
        }
    }

    /// Returns the thresholds of the pixels of row `y`, one for each column of the tile.
    pub(crate) fn row(&self, y: u32) -> &[u8]
        ensures row { result.now ≡ slice_range self.now.at
            (y % self.now.height * self.now.width)
            (y % self.now.height * self.now.width + self.now.width) }
        ensures width { length result.now ≡ self.now.width }
        ensures side { IsSide self.now.width }
    {
        let start = y as usize % self.height * self.width;
        &self.at[start..start + self.width]
    }
}
