// How the rows of an ink of a side are drawn.
use crate::chain::Chain;
use scr_tile::AnyTile;

/// Turns the values of an ink into pixels: a tile, or error diffusion from row to row.
#[derive(Drop)]
pub(crate) enum Drawer<'j> {
    Tiled(AnyTile),
    Diffused(Chain<'j>),
}
