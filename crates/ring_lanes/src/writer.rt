// The writer's end of a ring.
ghost use Rattle.std.specs.Prelude.{◌≡◌, ◌≢◌, ◌+◌, ◌<◌, ◌≤◌, ◌⊎◌, ℕ, Some, length, IfOk, IfErr, None, OnOk};
ghost use Rattle.std.specs.Prelude.{IsTrue, IsFalse, true, slice_get, slice_index};
ghost use Rattle.ring_rule.specs.Views.{left_word};
ghost use Rattle.ring_rule.specs.Marks.{WriterMark};
ghost use Rattle.ring_lanes.specs.Note.{told_by_writer};
ghost use Rattle.ring_lanes.specs.Writer.{AreKnown, HasRoomFor, IsBehind, IsFull, IsKnown, IsLoaded, IsPass};
ghost use Rattle.ring_lanes.specs.Writer.{IsWriter, LooksOnce, LooksOnceAt, OthersStand, WriterState};
ghost use Rattle.ring_lanes.specs.Writer.{cursor_known, joined_count, writer_state};

use crate::lanes::fill_lanes;
use crate::numbers::Numbers;
use crate::{CursorNote, Full, HeadNote, Pass};
use pr_base::Deal;
use ring_rule::WriterSeat;
use std::marker::Model;

/// The end of a ring through which one thread publishes the rows of the deal in order.
///
/// Contracts see its ring, how many rows were published, and for each reader the cursor last loaded and how
/// often it was loaded.
#[derive(Drop)]
pub struct Writer<'r, D: Deal> {
    seat: WriterSeat<'r, D>,
    numbers: Numbers,
    head: u64,
    known: Vec<u64>,
}

impl<'r, D: Deal> Model for Writer<'r, D> {
    ghost Value = { WriterState };

    ghost view = { λ w. writer_state w.seat };

    ghost invariant = { λ w. IsWriter w.seat w.numbers w.head w.known.items };
}

impl<'r, D: Deal> Writer<'r, D> {
    /// Makes the end that uses this seat.
    pub(crate) fn new(seat: WriterSeat<'r, D>, numbers: Numbers, known: Vec<u64>) -> Writer<'r, D>
        requires { IsWriter seat numbers 0 known.items }
        ensures { result ≡ writer_state seat.entry }
    {
        Writer {
            seat,
            numbers,
            head: 0,
            known,
        }
    }

    /// Returns the number of rows published.
    pub fn head(&self) -> u64
        ensures head { result ≡ self.now.head }
        ensures within { result ≤ self.now.ring.total }
        ensures known { let w = self.now in AreKnown w.known w.ring.places w.ring.readers w.head }
    {
        self.head
    }

    /// Returns how many readers the writer has not seen leave.
    pub fn joined(&self) -> u32
        ensures count { result ≡ joined_count self.now.known }
        ensures known { length self.now.known ≡ self.now.ring.readers }
    {
        self.known.iter().filter(|word| **word != u64::MAX).count() as u32
    }

    /// Pauses between two loads, if the ring's ends pause. `look` is any number not known at compile time.
    pub fn pause(&self, look: u32) {
        self.numbers.pause(look);
    }

    /// Returns the number of rows of the deal.
    pub fn total(&self) -> u64
        ensures { result ≡ self.now.ring.total }
    {
        self.numbers.total
    }

    /// Returns the number of bytes of each row.
    pub fn row_len(&self) -> usize
        ensures row_len { result ≡ self.now.ring.row_len }
        ensures some { 1 ≤ result }
        ensures few { result ≤ 8258 }
    {
        self.numbers.row_len
    }

    /// Checks whether each joined reader has closed the row whose place the next row takes. Loads a reader's
    /// cursor only if the known one is too low, in order of readers, and stops at the first reader that is
    /// behind.
    pub fn room(&mut self) -> Result<Pass, Full>
        requires { self.old.head < self.old.ring.total }
        ensures pass { IfOk result (λ pass. IsPass self.new pass) }
        ensures full { IfErr result (λ full. IsFull self.old self.new full) }
        ensures looks { LooksOnce self.old self.new }
        ensures same { self.new ≡ record self.old { known = self.new.known; loads = self.new.loads } }
    {
        for reader in 0..self.numbers.readers {
            self.room_for(reader)?;
        }
        Ok(Pass::of(self.head))
    }

    // Checks it for one reader.
    fn room_for(&mut self, reader: u32) -> Result<(), Full>
        requires { reader < self.old.ring.readers }
        ensures room { OnOk result (HasRoomFor self.new reader) }
        ensures site { IfErr result (λ full. full.site ≡ reader) }
        ensures full { IfErr result (λ full. IsBehind self.old self.new full) }
        ensures looks { LooksOnceAt self.old self.new reader }
        ensures others { OthersStand self.old self.new reader }
        ensures same { self.new ≡ record self.old { known = self.new.known; loads = self.new.loads } }
    {
        if self.leaves_room(self.known[reader as usize]) {
            return Ok(());
        }
        let cursor = self.look(reader);
        if self.leaves_room(cursor) {
            return Ok(());
        }
        Err(Full {
            site: reader,
            at: cursor,
        })
    }

    // Returns whether a cursor word that the writer may know leaves room for the next row.
    fn leaves_room(&self, word: u64) -> bool
        requires { IsKnown self.now.ring.places self.now.head word }
        ensures room { IsTrue result → word ≢ left_word → self.now.head < word + self.now.ring.places }
        ensures full { IsFalse result → (word ≢ left_word) × (word + self.now.ring.places ≡ self.now.head) }
    {
        word == u64::MAX || self.head - word < u64::from(self.numbers.places)
    }

    // Loads the cursor of a reader.
    fn look(&mut self, reader: u32) -> u64
        requires { reader < self.old.ring.readers }
        ensures loaded { IsLoaded self.old self.new reader }
        ensures word { slice_index self.new.known reader ≡ result }
        ensures known { IsKnown self.old.ring.places self.old.head result }
        ensures others { OthersStand self.old self.new reader }
        ensures same { self.new ≡ record self.old { known = self.new.known; loads = self.new.loads } }
    {
        let word = self.seat.look(reader);
        self.known[reader as usize] = word;
        word
    }

    /// Publishes the next row: copies it into a lane of each reader that the writer has not seen leave, then
    /// stores the head.
    pub fn publish(&mut self, pass: Pass, row: &[u8])
        requires pass { IsPass self.old pass }
        requires row { slice_get self.old.ring.rows self.old.head ≡ Some row.now }
        ensures { self.new ≡ record self.old { head = self.old.head + 1 } }
    {
        // Consumes the pass: it permits one row.
        let _ = pass;
        fill_lanes(&mut self.seat, &self.known, self.numbers.readers, row);
        self.seat.store_head();
        self.head += 1;
    }

    /// Makes a note of what the writer knows.
    pub fn tell(&mut self) -> HeadNote<D>
        ensures note { result ≡ told_by_writer self.old }
        ensures same { self.new ≡ self.old }
    {
        self.seat.note()
    }

    /// Takes in a note of one of this ring's readers, and loads that reader's cursor.
    pub fn learn(&mut self, note: CursorNote<D>)
        requires { note.table ≡ self.old.table }
        ensures number { note.note.number < self.old.ring.readers }
        ensures cursor { (k : ℕ) → cursor_known self.new.known note.note.number ≡ Some k
            → note.note.taken ≤ k }
        ensures left { note.note.left ≡ true → cursor_known self.new.known note.note.number ≡ None }
        ensures loaded { IsLoaded self.old self.new note.note.number }
        ensures others { OthersStand self.old self.new note.note.number }
        ensures same { self.new ≡ record self.old { known = self.new.known; loads = self.new.loads } }
    {
        let number = note.number();
        let word = self.seat.meet(note);
        self.known[number as usize] = word;
    }
}
