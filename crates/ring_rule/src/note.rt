// Notes: what one seat knows, carried to another.
ghost use Rattle.std.specs.Prelude.{◌≡◌, ◌+◌, ◌<◌, []};
ghost use Rattle.ring_rule.specs.declared.view.View.TheVariants.{HeadNote, CursorNote};
ghost use Rattle.ring_rule.specs.Marks.{HeadNoteMark, CursorNoteMark};
ghost use Rattle.ring_rule.specs.Plays.{head_note_in, cursor_note_in};
ghost use Rattle.ring_rule.specs.Seats.{IsHeadNoteSeat, IsCursorNoteSeat};

use crate::RingSeat;
use pr_base::Deal;
use std::marker::{Model, PhantomData};
use std::snapshot::Snapshot;

/// A note of the writer: its head, and the cursors it knew of the readers. Contracts see the note's table and
/// content.
#[derive(Drop)]
pub struct HeadNoteSeat<D: Deal> {
    seat: RingSeat,
    deal: PhantomData<Snapshot<D>>,
}

impl<D: Deal> Model for HeadNoteSeat<D> {
    ghost Value = { HeadNoteMark };

    ghost view = { λ n. record { table = n.seat.table_id; note = head_note_in n.seat.me.0 } };

    ghost invariant = { λ n. IsHeadNoteSeat n.seat.table_id n.seat.me };
}

impl<D: Deal> HeadNoteSeat<D> {
    pub(crate) fn new(seat: RingSeat) -> HeadNoteSeat<D>
        requires { IsHeadNoteSeat seat.table_id seat.me }
        ensures { result ≡ record { table = seat.table_id; note = head_note_in seat.me.0 } }
    {
        HeadNoteSeat {
            seat,
            deal: PhantomData,
        }
    }

    /// Returns the note's seat at the table, to be joined to a reader's.
    pub(crate) fn into_seat(self) -> RingSeat
        ensures table { result.table_id ≡ self.table }
        ensures me { result.me ≡ (HeadNote self.note, []) }
    {
        let HeadNoteSeat { seat, deal: _ } = self;
        seat
    }
}

/// A note of a reader: how many rows it took, and whether it left. Contracts see the note's table and
/// content.
#[derive(Drop)]
pub struct CursorNoteSeat<D: Deal> {
    seat: RingSeat,
    number: u32,
    deal: PhantomData<Snapshot<D>>,
}

impl<D: Deal> Model for CursorNoteSeat<D> {
    ghost Value = { CursorNoteMark };

    ghost view = { λ n. record { table = n.seat.table_id; note = cursor_note_in n.seat.me.0 } };

    ghost invariant = { λ n. IsCursorNoteSeat n.seat.table_id n.seat.me n.number };
}

impl<D: Deal> CursorNoteSeat<D> {
    pub(crate) fn new(seat: RingSeat, number: u32) -> CursorNoteSeat<D>
        requires { IsCursorNoteSeat seat.table_id seat.me number }
        ensures { result ≡ record { table = seat.table_id; note = cursor_note_in seat.me.0 } }
    {
        CursorNoteSeat {
            seat,
            number,
            deal: PhantomData,
        }
    }

    /// Returns the number of the reader that made the note.
    pub fn number(&self) -> u32
        ensures number { result ≡ self.now.note.number }
        ensures word { result + 1 < self.now.table.words }
    {
        self.number
    }

    /// Returns the note's seat at the table, to be joined to the writer's.
    pub(crate) fn into_seat(self) -> RingSeat
        ensures table { result.table_id ≡ self.table }
        ensures me { result.me ≡ (CursorNote self.note, []) }
    {
        let CursorNoteSeat {
            seat,
            number: _,
            deal: _,
        } = self;
        seat
    }
}
