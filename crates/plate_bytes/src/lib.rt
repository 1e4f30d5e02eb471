// A plate in memory: packed rows go in, and the bytes of the whole file come out. `PlateStrips` is what any
// holder of a plate counts of its rows, and makes of these counts.
#![tactic(auto)]

mod made;
mod strips;

pub use made::PlateBytes;
pub use strips::PlateStrips;
