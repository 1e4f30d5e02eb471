// The bytes of a plate before and after its packed rows: a TIFF 6.0 header, and a directory of twelve
// entries with a table of strips if there is more than one. The rows themselves are packed by tif_packbits.
// Nothing here allocates.
#![tactic(auto)]

mod entry;
mod front;
mod put;
mod shape;
mod sides;
mod tail;

pub use front::plate_front;
pub use shape::{rows_per_strip, strips};
pub use sides::Sides;
pub use tail::{Tail, plate_tail};
