// How a turn of a key reader ends.

/// How a turn of a key reader ended. There is no failure: counting never fails, so a key reader never leaves.
#[derive(Clone, Copy, PartialEq, Eq)]
pub enum KeyEnd {
    /// The row at the reader's cursor, row number `head` from 0, was found unpublished as often as the
    /// caller's patience allows.
    Waiting { head: u64 },
    /// All rows were counted.
    Finished,
}
