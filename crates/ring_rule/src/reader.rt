// A reader's seat at a ring.
ghost use Rattle.std.specs.Prelude.{◌≡◌, ◌+◌, ◌<◌, ◌≤◌, true, false, []};
ghost use Rattle.ring_rule.specs.Marks.{ReaderMark};
ghost use Rattle.ring_rule.specs.Kept.{row_at};
ghost use Rattle.ring_rule.specs.Plays.{reader_in, saw_head, took, gave, went_on, gone, cursor_note};
ghost use Rattle.ring_rule.specs.Plays.{reader_met, IsPastHead, MayTake};
ghost use Rattle.ring_rule.specs.Key.{key_ring};
ghost use Rattle.ring_rule.specs.Seats.{IsReaderSeat};

use crate::lane::slot_number;
use crate::play::{Advances, Gives, Leaves, Sees, Takes};
use crate::splits::{Meeting, Noting};
use crate::{CursorNoteSeat, HeadNoteSeat, Lane, LaneRow, RingSeat, RingShared};
use pr_base::Deal;
use std::marker::Model;

/// The seat through which a reader loads the head, takes rows out of its lanes and stores its cursor.
///
/// Contracts see its table, its view, and whether the row at its cursor was taken and given back.
#[derive(Drop)]
pub struct ReaderSeat<'t, D: Deal> {
    shared: &'t RingShared<D>,
    seat: RingSeat,
    number: u32,
    places: u32,
    cursor: u64,
    seen: u64,
    closed: bool,
}

impl<'t, D: Deal> Model for ReaderSeat<'t, D> {
    ghost Value = { ReaderMark };

    ghost view = { λ s. record { table = s.seat.table_id; view = reader_in s.seat.me.0; closed = s.closed } };

    ghost invariant = { λ s.
        let g = key_ring D.rows D.size s.shared.now.key in
        let table = s.shared.now.table_id in
        IsReaderSeat g table s.seat.table_id s.seat.me s.number s.places s.cursor s.seen s.closed };
}

impl<'t, D: Deal> ReaderSeat<'t, D> {
    /// Makes an unused seat.
    pub(crate) fn new(
        shared: &'t RingShared<D>,
        seat: RingSeat,
        number: u32,
        places: u32,
    ) -> ReaderSeat<'t, D>
        requires { let g = key_ring D.rows D.size shared.now.key in
            IsReaderSeat g shared.now.table_id seat.table_id seat.me number places 0 0 false }
        ensures { result ≡ record { table = seat.table_id; view = reader_in seat.me.0; closed = false } }
    {
        ReaderSeat {
            shared,
            seat,
            number,
            places,
            cursor: 0,
            seen: 0,
            closed: false,
        }
    }

    /// Loads the head, remembers it and returns it.
    pub fn see(&mut self) -> u64
        requires { self.old.view.left ≡ false }
        ensures view { self.new ≡ record self.old { view = saw_head result self.old.view } }
        ensures grows { self.old.view.seen ≤ result }
        ensures within { result ≤ self.old.view.ring.total }
    {
        let head = self.shared.load::<Sees>(&mut self.seat, 0);
        self.seen = head;
        head
    }

    /// Takes the row at the cursor out of its lane.
    pub fn take(&mut self) -> LaneRow
        requires { MayTake self.old.view }
        ensures seat { self.new ≡ record self.old { view = took self.old.view; closed = false } }
        ensures number { result.number ≡ self.old.view.taken }
        ensures bytes { result.bytes ≡ row_at self.old.view.ring self.old.view.taken }
    {
        let slot = slot_number(self.number, self.places, self.cursor);
        self.shared
            .load::<Takes>(&mut self.seat, self.number as usize + 1);
        let Some(lane) = self.shared.exchange(&mut self.seat, slot, None) else {
            unreachable!()
        };
        self.closed = false;
        let Lane { number: _, bytes } = lane;
        LaneRow::new(self.cursor, bytes)
    }

    /// Gives that row back to its lane.
    pub fn give(&mut self, row: LaneRow)
        requires out { self.old.view.out ≡ true }
        requires number { row.number ≡ self.old.view.taken }
        requires bytes { row.bytes ≡ row_at self.old.view.ring self.old.view.taken }
        ensures { self.new ≡ record self.old { view = gave self.old.view; closed = true } }
    {
        let home = slot_number(self.number, self.places, self.cursor);
        let lane = row.into_lane();
        let None = self.shared.exchange(&mut self.seat, home, Some(lane)) else {
            unreachable!()
        };
        self.shared
            .load::<Gives>(&mut self.seat, self.number as usize + 1);
        self.closed = true;
    }

    /// Advances to the next row: stores the cursor + 1.
    pub fn store_cursor(&mut self)
        requires { self.old.closed ≡ true }
        ensures { self.new ≡ record self.old { view = went_on self.old.view; closed = false } }
    {
        let cursor = self.cursor + 1;
        self.shared
            .store::<Advances>(&mut self.seat, self.number as usize + 1, cursor);
        self.cursor = cursor;
        self.closed = false;
    }

    /// Leaves the ring: stores 2^64 - 1, which is no row number.
    pub fn store_left(&mut self)
        requires joined { self.old.view.left ≡ false }
        requires home { self.old.view.out ≡ false }
        ensures { self.new ≡ record self.old { view = gone self.old.view; closed = false } }
    {
        self.shared
            .store::<Leaves>(&mut self.seat, self.number as usize + 1, u64::MAX);
        self.closed = false;
    }

    /// Makes a note of how many rows the reader took, and whether it left.
    pub fn note(&mut self) -> CursorNoteSeat<D>
        ensures note { result ≡ record { table = self.old.table; note = cursor_note self.old.view } }
        ensures same { self.new ≡ self.old }
    {
        let cut = self.shared.split_seat::<Noting>(&mut self.seat);
        CursorNoteSeat::new(cut, self.number)
    }

    /// Takes in a note of the writer, then loads the head and returns it.
    pub fn meet(&mut self, note: HeadNoteSeat<D>) -> u64
        requires table { note.table ≡ self.old.table }
        requires joined { self.old.view.left ≡ false }
        ensures view { self.new ≡ record self.old {
          view = saw_head result (reader_met note.note self.old.view);
        } }
        ensures grows { self.old.view.seen ≤ result }
        ensures within { result ≤ self.old.view.ring.total }
        ensures told { IsPastHead note.note self.old.view.number result }
    {
        self.shared
            .join_seat::<Meeting>(&mut self.seat, note.into_seat());
        let found = self.shared.load::<Sees>(&mut self.seat, 0);
        self.seen = found;
        found
    }
}
