// A row that was taken.
ghost use Rattle.std.specs.Prelude.{◌≡◌};

use crate::Source;
use std::marker::Model;

/// A row taken from a deck or a ring: its bytes, its number among the rows of its deal, and where it was
/// taken. It owns the buffer of the place that the row was taken from; the call that takes the row back
/// returns the buffer there. Only this crate makes one.
#[derive(Drop)]
pub struct Held {
    bytes: Vec<u8>,
    number: u64,
    source: Source,
}

impl Model for Held {
    ghost use Rattle.ring_lanes.specs.Held.{HeldRow};

    ghost Value = { HeldRow };

    ghost view = { λ h. record { number = h.number; bytes = h.bytes.items; source = h.source } };
}

impl Held {
    /// Makes the row `number` of a deal, taken at `source`.
    pub(crate) fn of(bytes: Vec<u8>, number: u64, source: Source) -> Held
        ensures { result ≡ record { number = number; bytes = bytes.items; source = source } }
    {
        Held {
            bytes,
            number,
            source,
        }
    }

    /// Returns the row's buffer, for its place.
    pub(crate) fn into_bytes(self) -> Vec<u8>
        ensures { result.items ≡ self.bytes }
    {
        self.bytes
    }

    /// Returns the row's number among the rows of its deal.
    pub fn number(&self) -> u64
        ensures { result ≡ self.now.number }
    {
        self.number
    }

    /// Returns the row's bytes.
    pub fn bytes(&self) -> &[u8]
        ensures { result.now ≡ self.now.bytes }
    {
        self.bytes.as_slice()
    }

    /// Returns where the row was taken.
    pub fn source(&self) -> Source
        ensures { result ≡ self.now.source }
    {
        self.source
    }
}
