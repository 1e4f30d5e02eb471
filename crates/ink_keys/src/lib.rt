// The ink keys of plates: how many pixels print at each key, counted from the rows of a ring by one
// additional reader.
#![tactic(auto)]

mod counts;
mod dots;
mod key;
mod key_end;
mod key_reader;
mod laws;

pub use counts::Counts;
pub use key::{columns_law, key_of};
pub use key_end::KeyEnd;
pub use key_reader::KeyReader;
pub use laws::counts_law;
