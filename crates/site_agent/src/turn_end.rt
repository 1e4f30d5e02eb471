// How a site's turn ended.

use crate::LeftCause;

/// How a site's turn ended.
#[derive(PartialEq, Eq, Drop)]
pub enum TurnEnd {
    /// The row at the reader's cursor, number `head` counted from 0, was found unpublished as often as the
    /// caller's patience allows.
    Waiting { head: u64 },
    /// All rows were processed.
    Finished,
    /// A call of the rack failed. The reader has left the ring.
    Left(LeftCause),
    /// The rack ran out of memory. The reader has left the ring.
    Memory,
}
