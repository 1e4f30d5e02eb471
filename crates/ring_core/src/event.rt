// The events of a schedule, and the stage of a reader with its row.

/// One event of the schedule. The number is that of the reader.
#[derive(Clone, Copy, Debug, PartialEq, Eq, Hash)]
pub enum Event {
    /// The writer loads the reader's cursor.
    Look(u32),
    /// The writer fills the reader's lane with the row numbered head.
    Fill(u32),
    /// The writer adds 1 to head.
    Publish,
    /// The reader loads the head.
    See(u32),
    /// The reader takes the row at its cursor out of its lane.
    Open(u32),
    /// The reader gives the row back to its lane.
    Close(u32),
    /// The reader adds 1 to its cursor.
    Advance(u32),
    /// The reader leaves, permanently.
    Leave(u32),
}

/// The stage of a reader with the row at its cursor.
#[derive(Clone, Copy, Debug, PartialEq, Eq, Hash)]
pub enum Stage {
    /// The reader has not taken the row.
    Idle,
    /// The reader has taken the row out of its lane.
    Holding,
    /// The reader has given the row back, but has not yet advanced its cursor.
    Closed,
}
