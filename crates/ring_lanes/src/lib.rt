// Rows on their way from one writer to the sites: a row that was taken and where it came from; the ring,
// which passes the rows of a deal from one thread to readers in other threads; and the deck, through which
// one thread hands each row to one site after another.
#![tactic(auto)]

mod answer;
mod deck;
mod ends;
mod held;
mod lanes;
mod numbers;
mod reader;
mod ring;
mod source;
mod waiting;
mod writer;

pub use answer::{Full, NotYet, Pass};
pub use deck::Deck;
pub use held::Held;
pub use reader::Reader;
pub use ring::{Ends, Ring, open_ring};
pub use ring_rule::{CursorNoteSeat as CursorNote, HeadNoteSeat as HeadNote};
pub use source::Source;
pub use waiting::pause;
pub use writer::Writer;
