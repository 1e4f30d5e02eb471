// A threshold tile whose sides are const parameters.
ghost use Rattle.std.specs.Prelude.{◌≡◌, ◌%◌, length, [], slice_index_or};
ghost use Rattle.scr_tile.specs.Tile.{IsSide, number_at};

use std::marker::Model;

/// A tile of `H` rows of `W` thresholds. Contracts see the list of its rows.
#[derive(Clone, Copy, PartialEq, Eq)]
pub struct Tile<const W: usize, const H: usize> {
    at: [[u8; W]; H],
}

impl<const W: usize, const H: usize> Model for Tile<W, H> {
    ghost use Rattle.std.specs.Prelude.{List, ℕ};
    ghost use Rattle.scr_tile.specs.Tile.{IsSide};

    ghost Value = { List (List ℕ) };

    ghost view = { λ tile. tile.at };

    ghost invariant = { λ _. IsSide W × IsSide H };

    ghost inverse = { λ rows. record { at = rows } };
}

impl<const W: usize, const H: usize> Tile<W, H> {
    /// Makes the tile of these rows.
    pub fn of(at: [[u8; W]; H]) -> Tile<W, H>
        requires width { IsSide W }
        requires height { IsSide H }
        ensures { result ≡ at.entry }
    {
        Tile { at }
    }

    /// Returns the threshold of the pixel in column `x` and row `y`, with the tile repeated edge to edge.
    pub fn threshold(&self, x: u32, y: u32) -> u8
        ensures { result ≡ number_at self.now (x % W) (y % H) }
    {
        self.row(y)[x as usize % W]
    }

    /// Returns the thresholds of the pixels of row `y`, one for each column of the tile.
    pub(crate) fn row(&self, y: u32) -> &[u8]
        ensures row { result.now ≡ slice_index_or self.now (y % H) [] }
        ensures width { length result.now ≡ W }
        ensures side { IsSide W }
    {
        let rows = &self.at[..];
        &rows[y as usize % H][..]
    }
}
