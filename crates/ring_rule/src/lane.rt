// The buffers of a ring: in a slot of the table, or out with a reader.
ghost use Rattle.std.specs.Prelude.{◌≡◌, ◌<◌, Some, length};
ghost use Rattle.ring_core.specs.Schedule.{lane_place};
ghost use Rattle.ring_rule.specs.RowMark.{RowMark};

use std::marker::Model;

/// A buffer of one row's length, and the number of the row whose bytes it holds; `None` before the first row.
#[derive(Drop)]
pub struct Lane {
    pub number: Option<u64>,
    pub bytes: Vec<u8>,
}

impl Lane {
    /// Copies this row's bytes into the buffer.
    pub(crate) fn with_row(self, number: u64, row: &[u8]) -> Lane
        requires { length self.bytes.items ≡ length row.now }
        ensures number { result.number ≡ Some number }
        ensures bytes { result.bytes.items ≡ row.now }
    {
        let Lane {
            number: _,
            mut bytes,
        } = self;
        bytes.as_mut_slice().copy_from_slice(row);
        Lane {
            number: Some(number),
            bytes,
        }
    }
}

/// A row that a reader took out of its lane. `ReaderSeat::give` returns it.
#[derive(Drop)]
pub struct LaneRow {
    number: u64,
    bytes: Vec<u8>,
}

impl Model for LaneRow {
    ghost Value = { RowMark };

    ghost view = { λ row. record { number = row.number; bytes = row.bytes.items } };
}

impl LaneRow {
    /// Makes the row of this number, in the buffer of its lane.
    pub fn new(number: u64, bytes: Vec<u8>) -> LaneRow
        ensures { result ≡ record { number = number; bytes = bytes.items } }
    {
        LaneRow { number, bytes }
    }

    /// Returns the row's buffer, which is that of its lane.
    pub fn into_bytes(self) -> Vec<u8>
        ensures { result.items ≡ self.bytes }
    {
        self.bytes
    }

    /// Returns the lane's content for giving the row back.
    pub(crate) fn into_lane(self) -> Lane
        ensures number { result.number ≡ Some self.number }
        ensures bytes { result.bytes.items ≡ self.bytes }
    {
        Lane {
            number: Some(self.number),
            bytes: self.bytes,
        }
    }

    /// Returns the row's number.
    pub fn number(&self) -> u64
        ensures { result ≡ self.now.number }
    {
        self.number
    }

    /// Returns the row's bytes.
    pub fn bytes(&self) -> &[u8]
        ensures { result.now ≡ self.now.bytes }
    {
        self.bytes.as_slice()
    }
}

/// Returns the slot of a reader's lane for a row. The lanes of one reader have consecutive slots.
pub(crate) fn slot_number(reader: u32, places: u32, row: u64) -> usize
    requires { 0 < places }
    ensures { result ≡ lane_place places reader row }
{
    let place = row % u64::from(places);
    reader as usize * places as usize + place as usize
}
