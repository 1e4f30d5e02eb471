// Counting an edition's rows as they pass through a ring.
ghost use Rattle.std.specs.Prelude.{◌≡◌, ◌<◌, ◌≤◌, false, length};
ghost use Rattle.plan_rows.specs.Rows.{places_in};
ghost use Rattle.ring_lanes.specs.Reader.{Waits};
ghost use Rattle.ink_keys.specs.Counts.{IsBounded};
ghost use Rattle.ink_keys.specs.Turn.{AreRowsOf, CountsNext, CountsRows, IfWaiting, IsReady, OnFinished};
ghost use Rattle.ink_keys.specs.Turn.{WaitsNoMore, stage};

use crate::{Counts, KeyEnd};
use plan_rows::RowPlan;
use pr_base::Deal;
use ring_lanes::{NotYet, Reader};
use std::marker::Model;

/// Counts the rows of a ring, alongside the sites that take them. Contracts see the row plan and the counts.
#[derive(Drop)]
pub struct KeyReader<'p> {
    rows: &'p RowPlan,
    counts: Counts,
}

impl<'p> Model for KeyReader<'p> {
    ghost use Rattle.std.specs.Prelude.{◌≡◌, length};
    ghost use Rattle.ink_keys.specs.Turn.{KeyReaderData};

    ghost Value = { KeyReaderData };

    ghost view = { λ r. record { rows = r.rows.now; counts = r.counts } };

    ghost invariant = { λ r. r.counts.groups ≡ length r.rows.now.groups };
}

impl<'p> KeyReader<'p> {
    /// Makes a key reader that adds the rows of this row plan to counts made for it.
    pub fn new(rows: &'p RowPlan, counts: Counts) -> KeyReader<'p>
        requires { counts.groups ≡ length rows.now.groups }
        ensures { result ≡ record { rows = rows.now; counts = counts } }
    {
        KeyReader { rows, counts }
    }

    /// Returns its counts.
    pub fn counts(&self) -> &Counts
        ensures { result.now ≡ self.now.counts }
    {
        &self.counts
    }

    /// Returns the counts, consuming the reader.
    pub fn into_counts(self) -> Counts
        ensures { result ≡ self.entry.counts }
    {
        self.counts
    }

    /// Takes the rows at the reader's cursor, counts each and gives it back, until all are counted or a row
    /// was found unpublished `patience` times. It never leaves.
    pub fn turn<D: Deal>(&mut self, reader: &mut Reader<'_, D>, patience: u32) -> KeyEnd
        requires joined { reader.old.left ≡ false }
        requires home { reader.old.held ≡ false }
        requires some_row { reader.old.cursor < reader.old.ring.total }
        requires total { reader.old.ring.total ≡ length (places_in self.old.rows) }
        requires patience { 0 < patience }
        requires frames { AreRowsOf self.old.counts.width reader.old.ring }
        requires bounded { IsBounded self.old.counts reader.old.cursor }

        ensures rows { self.new.rows ≡ self.old.rows }
        ensures counts { CountsRows self.old.rows reader.old.ring reader.old.cursor reader.new.cursor
            self.old.counts self.new.counts }
        ensures bounded { IsBounded self.new.counts reader.new.cursor }
        // Nothing else of the reader changes: it never leaves, and holds no row afterwards.
        ensures reader { reader.new ≡ record reader.old {
          cursor = reader.new.cursor;
          seen = reader.new.seen;
          loads = reader.new.loads;
        } }
        ensures grows { reader.old.cursor ≤ reader.new.cursor }
        ensures within { reader.new.cursor ≤ reader.old.ring.total }
        ensures known { reader.new.cursor ≤ reader.new.seen }
        ensures seen_grows { reader.old.seen ≤ reader.new.seen }
        ensures gets_on { reader.old.cursor < reader.old.seen → reader.old.cursor < reader.new.cursor }
        ensures waits { WaitsNoMore patience reader.old reader.new result }
        ensures waiting { IfWaiting result (Waits reader.old reader.new patience) }
        ensures finished { OnFinished result (reader.new.cursor ≡ reader.old.ring.total) }
    {
        let total = self.rows.total();
        let mut waits = 0;
        while reader.cursor() < total {
            match self.count(reader) {
                Ok(()) => {}
                Err(NotYet { head }) => {
                    waits += 1;
                    if waits == patience {
                        return KeyEnd::Waiting { head };
                    }
                    reader.pause(waits);
                }
            }
        }
        KeyEnd::Finished
    }

    /// Takes the row at the reader's cursor, counts it and gives it back.
    fn count<D: Deal>(&mut self, reader: &mut Reader<'_, D>) -> Result<(), NotYet>
        requires ready { IsReady (stage self.old reader.old) }
        requires some_row { reader.old.cursor < reader.old.ring.total }
        ensures { CountsNext (stage self.old reader.old) (stage self.new reader.new) result }
    {
        let held = reader.open()?;
        let place = self.rows.row_at(held.number());
        self.counts.add(place, &held);
        reader.close(held);
        Ok(())
    }
}
