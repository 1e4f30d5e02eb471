// A ring whose head and cursors are shared words and whose lanes are slots. Word 0 is the head, word 1 + r
// the cursor of reader r, slot r * places + p the lane of reader r at place p. Each atomic step of the writer
// and of the readers keeps one rule: words, slots and the seats' views show a sound schedule, and each lane
// in its slot holds the bytes of its row.
#![tactic(auto)]

mod lane;
mod laws;
mod note;
mod pick;
mod play;
mod reader;
mod rule;
mod seats;
mod splits;
mod table;
mod view;
mod writer;

pub use lane::{Lane, LaneRow};
pub use laws::{
    advance_is_event, cursor_note_shows_the_same, first_is_start, give_is_close,
    head_note_shows_the_same, leave_is_event, look_is_event, meet_cursor_shows_the_same,
    meet_head_shows_the_same, pick_shows_the_same, place_is_fill, publish_is_event,
    rule_shows_sound, see_is_event, split_shows_the_same, take_is_open,
};
pub use note::{CursorNoteSeat, HeadNoteSeat};
pub use reader::ReaderSeat;
pub use rule::{RingKey, RingRule};
use rule::{RingSeat, RingShared};
pub use table::{RingTable, Seats};
pub use view::{CursorNoteView, HeadNoteView, ReaderView, RingNumbers, View, WriterView};
pub use writer::WriterSeat;
