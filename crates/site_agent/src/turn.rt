// A site's turn at a ring: it takes rows until its patience is used up.
ghost use Rattle.std.specs.Prelude.{◌≡◌, ◌+◌, ◌<◌, ◌≤◌, ℕ, Some, false, true, IfSome};
ghost use Rattle.pr_base.specs.Count.{Rose};
ghost use Rattle.ring_lanes.specs.Reader.{Waits};
ghost use Rattle.pr_rack.specs.Told.{told};
ghost use Rattle.site_agent.specs.Draw.{Draws, IsReady, stage};
ghost use Rattle.site_agent.specs.Kept.{IsCauseAt};
ghost use Rattle.site_agent.specs.Stands.{AreAsLong, AreBegun};
ghost use Rattle.site_agent.specs.Turn.{AreRowsFor, GoesOnBy, GoesOnTo, IfLeft, IfWaiting, LeavesBy, OnEnd};
ghost use Rattle.site_agent.specs.Turn.{OnFinished, OnGoing, OnMemory, StopsBy, WaitsNoMore};

use crate::{Kept, Site, TurnEnd};
use pr_base::Deal;
use pr_rack::Rack;
use ring_lanes::{NotYet, Reader};

impl Site {
    /// Takes the rows at the reader's cursor, keeps each and gives it back. Ends when all rows are processed,
    /// when a row was found unpublished `patience` times, or when the rack refuses a call; in the last case
    /// the row was given back and the reader has left the ring.
    pub fn turn<D: Deal, R: Rack>(
        &mut self,
        reader: &mut Reader<'_, D>,
        rack: &mut R,
        patience: u32,
    ) -> TurnEnd
        requires going { self.old.ended ≡ false }
        requires joined { reader.old.left ≡ false }
        requires home { reader.old.held ≡ false }
        requires next { reader.old.cursor ≡ self.old.next }
        requires some_row { reader.old.cursor < reader.old.ring.total }
        requires rows { AreRowsFor self.old.job reader.old.ring }
        requires patience { 0 < patience }
        requires begun { AreBegun self.old.job self.old.next (R.begun rack.old) }
        requires working { IfSome (R.working rack.old)
            (AreAsLong self.old.job self.old.next self.old.counts) }

        // The reader takes rows and gives them back, and leaves if the site ends.
        ensures reader { reader.new ≡ record reader.old {
          cursor = reader.new.cursor;
          left = reader.new.left;
          seen = reader.new.seen;
          loads = reader.new.loads;
        } }
        ensures joined { OnGoing result (reader.new.left ≡ false) }
        ensures leaves { OnEnd result (reader.new.left ≡ true) }
        ensures grows { reader.old.cursor ≤ reader.new.cursor }
        ensures closes { OnEnd result (reader.old.cursor < reader.new.cursor) }
        ensures within { reader.new.cursor ≤ reader.old.ring.total }
        ensures known { reader.new.cursor ≤ reader.new.seen }
        ensures seen_grows { reader.old.seen ≤ reader.new.seen }
        ensures gets_on { reader.old.cursor < reader.old.seen → reader.old.cursor < reader.new.cursor }
        ensures waits { WaitsNoMore patience reader.old reader.new result }

        // Waiting or Finished: all rows below the cursor have been processed.
        ensures stands { OnGoing result (GoesOnBy reader.old self.old self.new
            (told R.Rack rack.old) (told R.Rack rack.new)) }
        ensures goes_on { OnGoing result (GoesOnTo self.old self.new reader.new.cursor) }
        ensures begun_on { OnGoing result (AreBegun self.new.job self.new.next (R.begun rack.new)) }
        ensures working_on { OnGoing result (IfSome (R.working rack.new)
            (AreAsLong self.new.job self.new.next self.new.counts)) }
        ensures done_missed { OnGoing result (R.missed rack.new ≡ R.missed rack.old) }
        ensures waiting { IfWaiting result (Waits reader.old reader.new patience) }
        ensures finished { OnFinished result (reader.new.cursor ≡ reader.old.ring.total) }

        // Left: a call of the rack failed for the row just below the cursor.
        ensures left { IfLeft result (λ cause. IsCauseAt self.old.job cause.row cause) }
        ensures left_row { IfLeft result (λ cause. cause.row + 1 ≡ reader.new.cursor) }
        ensures left_counted { IfLeft result (λ _. Rose (R.faults rack.old) (R.faults rack.new)) }
        ensures left_missed { IfLeft result (λ cause.
            IfSome (R.missed rack.new) (λ last. last ≡ Some (cause.call, cause.path))) }
        ensures left_stands { IfLeft result (LeavesBy reader.old self.old
            (told R.Rack rack.old) (told R.Rack rack.new)) }

        // Memory: a call of the rack ran out of memory for that row, and none failed.
        ensures memory_missed { OnMemory result (R.missed rack.new ≡ R.missed rack.old) }
        ensures memory_stands { OnMemory result ((n : ℕ) → n + 1 ≡ reader.new.cursor →
            StopsBy reader.old self.old (told R.Rack rack.old) (told R.Rack rack.new) n) }

        ensures ended { OnEnd result (self.new.ended ≡ true) }
        ensures faults_stay { R.faults rack.old ≤ R.faults rack.new }
    {
        let mut waits = 0;
        while reader.cursor() < reader.total() {
            match self.draw(reader, rack) {
                Ok(Kept::Done) => {}
                Ok(Kept::Left(cause)) => {
                    reader.leave();
                    return TurnEnd::Left(cause);
                }
                Ok(Kept::Memory) => {
                    reader.leave();
                    return TurnEnd::Memory;
                }
                Err(NotYet { head }) => {
                    waits += 1;
                    if waits == patience {
                        return TurnEnd::Waiting { head };
                    }
                    reader.pause(waits);
                }
            }
        }
        TurnEnd::Finished
    }

    /// Takes the row at the reader's cursor, keeps it and gives it back.
    fn draw<D: Deal, R: Rack>(
        &mut self,
        reader: &mut Reader<'_, D>,
        rack: &mut R,
    ) -> Result<Kept, NotYet>
        requires ready { IsReady (stage self.old reader.old (told R.Rack rack.old)) }
        requires some_row { reader.old.cursor < reader.old.ring.total }
        ensures { Draws (stage self.old reader.old (told R.Rack rack.old))
            (stage self.new reader.new (told R.Rack rack.new)) result }
    {
        let held = reader.open()?;
        let kept = self.keep(&held, rack);
        reader.close(held);
        Ok(kept)
    }
}
