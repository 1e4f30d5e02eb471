// Screening by threshold tiles: Bayer's ordered dither in four sizes, custom tiles from a plan, and the loop
// that turns a row of ink values into packed bits.
#![tactic(auto)]

mod any_tile;
mod bayer_table;
mod bits;
mod laws;
mod own_tile;
mod screen;
mod tile;

pub use any_tile::AnyTile;
pub use bayer_table::bayer;
pub use laws::dot_law;
pub use own_tile::OwnTile;
pub use screen::screen_row;
pub use tile::Tile;
