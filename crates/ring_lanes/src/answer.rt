// Results of the ring's ends: permission to publish a row, and why an end cannot go on yet.
use std::marker::Model;
use thiserror::Error;

/// Permission to publish the next row: `Writer::room` returns it and `Writer::publish` takes it. Contracts
/// see the row's number. Only this crate makes one.
#[derive(Drop)]
pub struct Pass {
    head: u64,
}

impl Model for Pass {
    ghost use Rattle.ring_lanes.specs.Writer.{PassState};

    ghost Value = { PassState };

    ghost view = { λ pass. record { head = pass.head } };
}

impl Pass {
    ghost use Rattle.std.specs.Prelude.{◌≡◌};

    /// Makes the permission to publish the row numbered head.
    pub(crate) fn of(head: u64) -> Pass
        ensures { result ≡ record { head = head } }
    {
        Pass { head }
    }
}

/// A reader has not yet closed the row whose place the next row takes.
#[derive(Clone, Copy, Debug, PartialEq, Eq, Error)]
#[error("reader {site} has yet to close row {at}")]
pub struct Full {
    /// The number of that reader.
    pub site: u32,
    /// The reader's cursor, which is the number of that row.
    pub at: u64,
}

/// The row at the reader's cursor is not yet published.
#[derive(Clone, Copy, Debug, PartialEq, Eq, Error)]
#[error("{head} rows are published")]
pub struct NotYet {
    /// The head that was loaded, which equals the cursor.
    pub head: u64,
}
