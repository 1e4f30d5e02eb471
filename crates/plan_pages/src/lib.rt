// The layout of a plate: the pages that a site's zone chooses, the two pages of a pair, the plate's sides and
// the positions of its pages, and the marks around them. No call allocates memory.
#![tactic(auto)]

mod marks;
mod pairs;
mod shape;
mod span;
mod zones;

pub use marks::mark_row;
pub use pairs::pair;
pub use shape::{PlateShape, plate_shape};
pub use zones::chosen;
