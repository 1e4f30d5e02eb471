// A reader's end of a ring.
ghost use Rattle.std.specs.Prelude.{◌≡◌, ◌+◌, ◌<◌, ◌≤◌, ℕ, Some, false, true, not, IfOk, IfErr};
ghost use Rattle.ring_rule.specs.Marks.{ReaderMark};
ghost use Rattle.ring_lanes.specs.Note.{told_by_reader};
ghost use Rattle.ring_lanes.specs.Reader.{IsNextRow, IsNotYet, IsOpened, IsReader, ReaderState, SeesOnce};
ghost use Rattle.ring_lanes.specs.Reader.{reader_state, source_of};
ghost use Rattle.ring_lanes.specs.Writer.{cursor_known};

use crate::numbers::Numbers;
use crate::{CursorNote, HeadNote, Held, NotYet, Source};
use pr_base::Deal;
use ring_rule::{LaneRow, ReaderSeat};
use std::marker::Model;

/// The end of a ring through which one thread takes the rows of the deal in order, and gives each back.
///
/// Contracts see its ring and its reader's number, how many rows it took and gave back, whether it has left,
/// whether a row is out, the head last loaded and how often it was loaded.
#[derive(Drop)]
pub struct Reader<'r, D: Deal> {
    seat: ReaderSeat<'r, D>,
    numbers: Numbers,
    number: u32,
    cursor: u64,
    seen: u64,
    joined: bool,
}

impl<'r, D: Deal> Model for Reader<'r, D> {
    ghost Value = { ReaderState };

    ghost view = { λ x. reader_state x.seat };

    ghost invariant = { λ x. IsReader x.seat x.numbers x.number x.cursor x.seen x.joined };
}

impl<'r, D: Deal> Reader<'r, D> {
    /// Makes the end that uses this seat.
    pub(crate) fn new(seat: ReaderSeat<'r, D>, numbers: Numbers, number: u32) -> Reader<'r, D>
        requires { IsReader seat numbers number 0 0 true }
        ensures { result ≡ reader_state seat.entry }
    {
        Reader {
            seat,
            numbers,
            number,
            cursor: 0,
            seen: 0,
            joined: true,
        }
    }

    /// Returns the reader's number, counted from 0.
    pub fn number(&self) -> u32
        ensures number { result ≡ self.now.number }
        ensures within { result < self.now.ring.readers }
    {
        self.number
    }

    /// Returns the number of rows that it took and gave back; it is unchanged when the reader leaves.
    pub fn cursor(&self) -> u64
        ensures cursor { result ≡ self.now.cursor }
        ensures known { result ≤ self.now.seen }
        ensures within { self.now.seen ≤ self.now.ring.total }
    {
        self.cursor
    }

    /// Returns the number of rows of the deal.
    pub fn total(&self) -> u64
        ensures { result ≡ self.now.ring.total }
    {
        self.numbers.total
    }

    /// Returns whether the reader is joined: it has not left.
    pub fn joined(&self) -> bool
        ensures { result ≡ not self.now.left }
    {
        self.joined
    }

    /// Pauses between two loads, if the ring's ends pause. `look` is any number not known at compile time.
    pub fn pause(&self, look: u32) {
        self.numbers.pause(look);
    }

    /// Returns where the reader takes its rows.
    pub fn source(&self) -> Source
        ensures { result ≡ source_of self.now }
    {
        Source::Ring {
            reader: self.number,
            readers: self.numbers.readers,
            places: self.numbers.places,
        }
    }

    /// Takes the row at its cursor. Loads the head first if it knows of no row there.
    pub fn open(&mut self) -> Result<Held, NotYet>
        requires joined { self.old.left ≡ false }
        requires home { self.old.held ≡ false }
        ensures row { IfOk result (λ held. IsOpened self.old self.new held) }
        ensures not_yet { IfErr result (λ answer. IsNotYet self.old self.new answer) }
        ensures looks { SeesOnce self.old self.new }
    {
        let head = self.look();
        if head == self.cursor {
            return Err(NotYet { head });
        }
        let row = self.seat.take();
        Ok(Held::of(row.into_bytes(), self.cursor, self.source()))
    }

    // Returns the known head, after loading it if it equals the cursor.
    fn look(&mut self) -> u64
        requires { self.old.left ≡ false }
        ensures seen { result ≡ self.new.seen }
        ensures looks { SeesOnce self.old self.new }
        ensures same { self.new ≡ record self.old { seen = self.new.seen; loads = self.new.loads } }
    {
        if self.seen == self.cursor {
            self.seen = self.seat.see();
        }
        self.seen
    }

    /// Gives back the row that is out, and advances to the next.
    pub fn close(&mut self, held: Held)
        requires out { self.old.held ≡ true }
        requires row { IsNextRow self.old held }
        ensures { self.new ≡ record self.old { cursor = self.old.cursor + 1; held = false } }
    {
        self.seat.give(LaneRow::new(self.cursor, held.into_bytes()));
        self.seat.store_cursor();
        self.cursor += 1;
    }

    /// Leaves the ring: the writer no longer waits for this reader.
    pub fn leave(&mut self)
        requires joined { self.old.left ≡ false }
        requires home { self.old.held ≡ false }
        ensures { self.new ≡ record self.old { left = true } }
    {
        self.seat.store_left();
        self.joined = false;
    }

    /// Makes a note of how many rows it took and gave back, and whether it has left.
    pub fn tell(&mut self) -> CursorNote<D>
        ensures note { result ≡ told_by_reader self.old }
        ensures same { self.new ≡ self.old }
    {
        self.seat.note()
    }

    /// Takes in a note of this ring's writer, and loads the head.
    #[tactic(auto, using(crate::proofs::Looks::told_joined))]
    pub fn learn(&mut self, note: HeadNote<D>)
        requires ring { note.table ≡ self.old.table }
        requires joined { self.old.left ≡ false }
        ensures head { note.note.head ≤ self.new.seen }
        ensures joined { (k : ℕ) × (cursor_known note.note.known self.old.number ≡ Some k) }
        ensures grows { self.old.seen ≤ self.new.seen }
        ensures same { self.new ≡ record self.old { seen = self.new.seen; loads = self.old.loads + 1 } }
    {
        self.seen = self.seat.meet(note);
    }
}
