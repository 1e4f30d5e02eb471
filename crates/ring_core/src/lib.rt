// The schedule of a ring of rows as a single value: a writer that fills lanes, readers that take rows in
// order, and the eight events that change it. It uses no threads, atomics or buffers; the definitions are
// over plain lists, so that a ring of shared words and lanes can be compared with them.
#![tactic(auto)]

mod event;
mod laws;
mod state;
mod step;

pub use event::{Event, Stage};
pub use laws::{every_event_keeps, every_run_is_sound, fills_only_closed_rows, plain_is_sound};
pub use state::Core;
