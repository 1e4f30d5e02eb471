// Page assembly: the layers of a page, painted in order, row by row, in five inks. The memory is allocated
// once and reused page after page; after that no call allocates or fails.
#![tactic(auto)]

mod admit;
mod ink_row;
mod layer;
mod layer_room;
mod layer_rows;
mod marks;
mod mask_rows;
mod page_inks;
mod page_rows;
mod room;
mod row_reader;
mod samples;
mod stretch;

pub use ink_row::InkRow;
pub use layer::{Art, Crop, Layer};
pub use page_inks::PageInks;
pub use page_rows::PageRows;
