// The writer's seat at a ring.
ghost use Rattle.std.specs.Prelude.{◌≡◌, ◌+◌, ◌<◌, [], slice_index};
ghost use Rattle.ring_rule.specs.Marks.{WriterMark};
ghost use Rattle.ring_rule.specs.Kept.{row_at};
ghost use Rattle.ring_rule.specs.Plays.{writer_in, looked_at, published, filled_lane, head_note, writer_met};
ghost use Rattle.ring_rule.specs.Plays.{IsCursorOf, IsPastNote, MayPublish, MayFill};
ghost use Rattle.ring_rule.specs.Key.{key_ring};
ghost use Rattle.ring_rule.specs.Seats.{IsWriterSeat};

use crate::lane::slot_number;
use crate::pick::pick;
use crate::play::{Looks, Places, Publishes};
use crate::splits::{Meeting, Noting};
use crate::{CursorNoteSeat, HeadNoteSeat, RingSeat, RingShared};
use pr_base::Deal;
use std::marker::{Brand, Model};

/// The seat through which the writer loads cursors, fills lanes and stores the head. Contracts see its table
/// and its view.
#[derive(Drop)]
pub struct WriterSeat<'t, D: Deal> {
    shared: &'t RingShared<D>,
    seat: RingSeat,
    places: u32,
    head: u64,
    total: u64,
}

impl<'t, D: Deal> Model for WriterSeat<'t, D> {
    ghost Value = { WriterMark };

    ghost view = { λ s. record { table = s.seat.table_id; view = writer_in s.seat.me.0 } };

    ghost invariant = { λ s.
        let g = key_ring D.rows D.size s.shared.now.key in
        IsWriterSeat g s.shared.now.table_id s.seat.table_id s.seat.me s.places s.head s.total };
}

impl<'t, D: Deal> WriterSeat<'t, D> {
    /// Makes an unused seat.
    pub(crate) fn new(
        shared: &'t RingShared<D>,
        seat: RingSeat,
        places: u32,
        total: u64,
    ) -> WriterSeat<'t, D>
        requires { let g = key_ring D.rows D.size shared.now.key in
            IsWriterSeat g shared.now.table_id seat.table_id seat.me places 0 total }
        ensures { result ≡ record { table = seat.table_id; view = writer_in seat.me.0 } }
    {
        WriterSeat {
            shared,
            seat,
            places,
            head: 0,
            total,
        }
    }

    /// Loads the cursor word of a reader, remembers it and returns it.
    pub fn look(&mut self, reader: u32) -> u64
        requires { reader < self.old.view.ring.readers }
        ensures view { self.new ≡ record self.old { view = looked_at reader result self.old.view } }
        ensures cursor { IsCursorOf self.old.view reader result }
    {
        self.shared
            .load::<Looks>(&mut self.seat, reader as usize + 1)
    }

    /// Fills a reader's lane with the row numbered head: takes it, copies the bytes, and returns it to its
    /// slot.
    pub fn fill(&mut self, reader: u32, row: &[u8])
        requires may { MayFill self.old.view reader }
        requires bytes { row.now ≡ row_at self.old.view.ring self.old.view.head }
        ensures { self.new ≡ record self.old { view = filled_lane reader self.old.view } }
    {
        let slot = slot_number(reader, self.places, self.head);
        pick::<Brand, D>(
            self.shared,
            &mut self.seat,
            reader,
            self.places,
            self.head,
            self.total,
        );
        let Some(lane) = self.shared.exchange(&mut self.seat, slot, None) else {
            unreachable!()
        };
        let full = lane.with_row(self.head, row);
        let None = self.shared.exchange(&mut self.seat, slot, Some(full)) else {
            unreachable!()
        };
        self.shared.load::<Places>(&mut self.seat, 0);
    }

    /// Publishes the row numbered head: stores head + 1.
    pub fn store_head(&mut self)
        requires { MayPublish self.old.view }
        ensures { self.new ≡ record self.old { view = published self.old.view } }
    {
        prove!(self.head < self.total);
        let head = self.head + 1;
        self.shared.store::<Publishes>(&mut self.seat, 0, head);
        self.head = head;
    }

    /// Makes a note of what the writer knows.
    pub fn note(&mut self) -> HeadNoteSeat<D>
        ensures note { result ≡ record { table = self.old.table; note = head_note self.old.view } }
        ensures same { self.new ≡ self.old }
    {
        HeadNoteSeat::new(self.shared.split_seat::<Noting>(&mut self.seat))
    }

    /// Takes in a reader's note, then loads that reader's cursor word and returns it.
    pub fn meet(&mut self, note: CursorNoteSeat<D>) -> u64
        requires { note.table ≡ self.old.table }
        ensures view { self.new ≡ record self.old {
          view = looked_at note.note.number result (writer_met note.note self.old.view);
        } }
        ensures number { note.note.number < self.old.view.ring.readers }
        ensures cursor { IsCursorOf self.old.view note.note.number result }
        ensures told { IsPastNote note.note result }
    {
        let number = note.number();
        self.shared
            .join_seat::<Meeting>(&mut self.seat, note.into_seat());
        self.shared
            .load::<Looks>(&mut self.seat, number as usize + 1)
    }
}
