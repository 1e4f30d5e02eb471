// Types that every layer of plateroom uses: inks, texts, the faults of input files, the out-of-memory
// error, single pixels, saturating counts and streams that count their failures, and the two ways in which
// rows pass between layers (a numbered deal of rows, and a feed that produces them in order).
#![tactic(auto)]

mod count;
mod counted;
mod deal;
mod fault;
mod ink;
mod limits;
mod memory;
mod path_text;
mod pixel;
mod row;

pub use count::raised;
pub use counted::Counted;
pub use deal::{Deal, RowFeed};
pub use fault::{FaultKind, FileFault, TagFault};
pub use ink::{Ink, inks_law};
pub use limits::{INKS, SITES};
pub use memory::NoMemory;
pub use path_text::PathText;
pub use pixel::set_bit;
pub use row::row_bytes;
