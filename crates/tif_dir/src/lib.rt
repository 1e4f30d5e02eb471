// The first directory of a TIFF file in either byte order, and the values of its fields, each read from the
// file's bytes on demand (TIFF 6.0, Section 2). No call allocates.
#![tactic(auto)]

mod dir;
mod field;
mod laws;
mod order;
mod table;
pub mod tag;
mod value_type;

pub use dir::{Dir, read_dir};
pub use field::Field;
pub use laws::tags_law;
pub use order::Order;
pub use table::least_count;
