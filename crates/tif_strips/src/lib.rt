// The strips of a TIFF image: tests of their offsets and lengths, and the rows of the image in order, in
// both planar configurations, uncompressed and PackBits (TIFF 6.0, Sections 3, 8 and 9). Only
// `Strips::extents` allocates.
#![tactic(auto)]

mod extents;
mod last_row;
mod marking;
mod place;
mod planes;
mod row_cursor;
mod samples;
mod shape;
mod strip;
mod strip_table;
mod strips;
mod walk;

pub use extents::Extent;
pub use row_cursor::RowCursor;
pub use shape::Shape;
pub use strips::Strips;
