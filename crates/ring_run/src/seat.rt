// A reader of a run at its end of the ring: a site, or a key reader.
ghost use Rattle.std.specs.Prelude.{◌≡◌};
ghost use Rattle.ring_lanes.specs.Note.{told_by_reader};
ghost use Rattle.ring_run.specs.Round.{IsTold};
ghost use Rattle.ring_run.specs.Seat.{SeatData, is_going, is_stopped as is_stopped_lem};

use crate::role::Role;
use pr_base::Deal;
use pr_rack::Rack;
use ring_lanes::{CursorNote, Reader, Writer};
use ring_turns::TurnWith;
use std::marker::Model;

/// A reader of a run at its end of the ring. Contracts see the end and the reader's role.
#[derive(Drop)]
pub(crate) struct Seat<'r, 'p, D: Deal> {
    reader: Reader<'r, D>,
    role: Role<'p>,
}

impl<'r, 'p, D: Deal> Model for Seat<'r, 'p, D> {
    ghost Value = { SeatData };

    ghost view = { λ seat. record { reader = seat.reader; role = seat.role } };
}

impl<'r, 'p, D: Deal> Seat<'r, 'p, D> {
    /// Returns the reader with this role at this end.
    pub(crate) fn new(reader: Reader<'r, D>, role: Role<'p>) -> Seat<'r, 'p, D>
        ensures { result ≡ record { reader = reader.entry; role = role.entry } }
    {
        Seat { reader, role }
    }

    /// Returns the role.
    pub(crate) fn into_role(self) -> Role<'p>
        ensures { result ≡ self.entry.role }
    {
        self.role
    }

    /// Returns whether the reader hasn't left and rows are still to come.
    pub(crate) fn goes_on(&self) -> bool
        ensures { result ≡ is_going self.now.reader }
    {
        self.reader.joined() && self.reader.cursor() < self.reader.total()
    }

    /// Returns whether the reader is a site that ran out of memory.
    pub(crate) fn is_stopped(&self) -> bool
        ensures { result ≡ is_stopped_lem self.now.role }
    {
        self.role.is_stopped()
    }

    /// Makes a note of the reader, even of one that has left.
    pub(crate) fn note(&mut self) -> CursorNote<D>
        ensures note { result ≡ told_by_reader self.old.reader }
        ensures same { self.new ≡ self.old }
    {
        self.reader.tell()
    }

    /// Takes in a note of the writer, if the reader continues.
    pub(crate) fn hear(&mut self, writer: &mut Writer<'_, D>)
        requires table { self.old.reader.table ≡ writer.old.table }
        ensures heard { IsTold writer.old self.old self.new }
        ensures same { writer.new ≡ writer.old }
    {
        if self.goes_on() {
            let note = writer.tell();
            self.reader.learn(note);
        }
    }
}

impl<'r, 'p, D: Deal, R: Rack> TurnWith<R> for Seat<'r, 'p, D> {
    ghost use Rattle.std.specs.Option.{option_map};
    ghost use Rattle.pr_rack.specs.Told.{told};
    ghost use Rattle.ring_run.specs.Served.{SomeSeated, Turned};
    ghost use Rattle.ring_run.specs.Again.{may_turn_again, turned_again};

    ghost may = { λ seat rack. SomeSeated (option_map (told R.Rack) rack) seat };

    ghost turned = { λ was old is new.
        Turned (option_map (told R.Rack) old) (option_map (told R.Rack) new) was is };

    /// Takes the turn of a site, whose plates are kept on this rack.
    fn turn(&mut self, rack: &mut R, patience: u32) {
        self.role.turn(&mut self.reader, rack, patience);
    }

    /// Takes the turn of a key reader.
    fn turn_alone(&mut self, patience: u32) {
        self.role.turn_alone(&mut self.reader, patience);
    }

    fn rows(&self) -> Option<u64> {
        if self.goes_on() {
            Some(self.reader.cursor())
        } else {
            None
        }
    }

    ghost may_again = { λ x x' y y'. may_turn_again _ _ x x' };

    ghost turned_again = { λ x x' x'' y y' y''. turned_again _ _ _ x x' x'' };
}
