// A print site and how it keeps rows.
ghost use Rattle.std.specs.Prelude.{◌≡◌, ◌≢◌, ◌==◌, ◌+◌, ◌<◌, ◌≤◌, ◌^◌, ℕ, [], Some, false, true, IfErr};
ghost use Rattle.std.specs.Prelude.{IfNone, IfOk};
ghost use Rattle.std.specs.Prelude.{IfSome, OnErr, OnOk, length, slice_index_or};
ghost use Rattle.pr_base.specs.Row.{row_size};
ghost use Rattle.tif_packbits.specs.Frame.{IsFrame, framed_row};
ghost use Rattle.pr_base.specs.Count.{Rose};
ghost use Rattle.pr_rack.specs.Told.{told};
ghost use Rattle.site_agent.specs.declared.plate.SitePlate.{SitePlate as SitePlateData};
ghost use Rattle.site_agent.specs.Job.{IsJob};
ghost use Rattle.site_agent.specs.Given.{IsNoRow, finished_count, is_kept};
ghost use Rattle.site_agent.specs.Kept.{GoesOn, IfLeft, IsCauseAt, KeepsRow, OnDone, OnEnd, OnMemory};
ghost use Rattle.site_agent.specs.Kept.{TakenOnce, kept_of};
ghost use Rattle.plan_json.specs.Plan.{IsPlan};
ghost use Rattle.plan_rows.specs.Rows.{rows_of};
ghost use Rattle.site_agent.specs.Plan.{job_over, site_over};
ghost use Rattle.site_agent.specs.Refused.{IsStoppedAt, OthersStayAt, OthersStayFor, taken_at};
ghost use Rattle.site_agent.specs.Site.{IsPlateRow};
ghost use Rattle.site_agent.specs.Stands.{AreAsLong, AreBegun};
ghost use Rattle.site_agent.specs.Tells.{CountsRow, TellsRow, finished_after};

use crate::calls::{Refusal, deliver};
use crate::plate::SitePlate;
use crate::plate_row::PlateRow;
use crate::plates::empty_slots;
use crate::{Kept, LeftCause};
use plan_json::Plan;
use plan_rows::{RowPlan, plate_sides};
use plate_bytes::PlateStrips;
use pr_base::NoMemory;
use pr_rack::{Rack, RackFault};
use ring_lanes::Held;
use std::alloc::Global;
use std::marker::Model;
use tif_packbits::framed;
use tif_plate::Sides;

/// A print site, which builds its plates row by row on its rack. All memory is allocated when the site is
/// made: the paths of its plates, and the strips of the plate in each slot.
#[derive(Drop)]
pub struct Site {
    plates: Vec<SitePlate>,
    sides: Sides,
    total: u64,
    next: u64,
    finished: u32,
    slots: Vec<PlateStrips>,
    ended: bool,
}

impl Model for Site {
    ghost use Rattle.std.specs.Prelude.{◌≡◌, false};
    ghost use Rattle.site_agent.specs.Site.{IsCounting, SiteData, counts_of, job_with};

    ghost Value = { SiteData };

    ghost view = { λ s. record {
      job = job_with s.plates.items s.sides s.total;
      next = s.next;
      counts = counts_of s.slots.items;
      ended = s.ended;
    } };

    ghost invariant = { λ s. s.ended ≡ false
        → IsCounting (job_with s.plates.items s.sides s.total) s.next s.finished s.slots.items };
}

impl Site {
    /// Returns a site with these plates of a plan, before its first row.
    pub(crate) fn with_plates(
        alloc: Global,
        job_plan: &Plan,
        rows: &RowPlan,
        plates: Vec<SitePlate>,
    ) -> Result<Site, NoMemory>
        requires rows { rows.now ≡ rows_of job_plan.now }
        requires job { IsPlan job_plan.now → IsJob (job_over job_plan.now plates.items) }
        ensures { IfOk result (λ made. made ≡ site_over job_plan.now plates.items) }
    {
        let sides = plate_sides(job_plan);
        let slots = empty_slots(alloc, sides)?;
        Ok(Site {
            plates,
            sides,
            total: rows.total(),
            next: 0,
            finished: 0,
            slots,
            ended: false,
        })
    }

    /// Whether all plates of the site are finished.
    pub fn is_finished(&self) -> bool
        requires { self.now.ended ≡ false }
        ensures { result ≡ (finished_count self.now.job self.now.next == length self.now.job.plates) }
    {
        self.finished as usize == self.plates.len()
    }

    /// Whether the next row is one of the site's.
    pub fn keeps_next(&self) -> bool
        requires { self.now.ended ≡ false }
        ensures { result ≡ is_kept self.now.job self.now.next }
    {
        self.place().is_some()
    }

    /// Passes over the next row, which is not one of the site's.
    pub fn pass(&mut self)
        requires going { self.old.ended ≡ false }
        requires within { self.old.next < self.old.job.total }
        requires other { is_kept self.old.job self.old.next ≡ false }
        ensures { self.new ≡ record self.old { next = self.old.next + 1 } }
    {
        self.next += 1;
    }

    /// Returns the place of the next row, if the row is one of the site's.
    fn place(&self) -> Option<PlateRow>
        requires { self.now.ended ≡ false }
        ensures found { IfSome result (IsPlateRow self.now.job self.now.next) }
        ensures none { IfNone result (IsNoRow self.now.job self.now.next) }
    {
        for i in self.finished as usize..self.plates.len() {
            let plate = &self.plates[i];
            if plate.first > self.next {
                return None;
            }
            let y = self.slots[plate.slot].next_row();
            if plate.first + y as u64 * plate.step as u64 == self.next {
                return Some(PlateRow {
                    plate: i,
                    slot: plate.slot,
                    y,
                });
            }
        }
        None
    }

    /// Processes the next row, which is the row at `place`.
    fn give<R: Rack>(&mut self, place: PlateRow, held: &Held, rack: &mut R) -> Result<(), Refusal>
        requires going { self.old.ended ≡ false }
        requires next { held.now.number ≡ self.old.next }
        requires within { self.old.next < self.old.job.total }
        requires place { IsPlateRow self.old.job self.old.next place }
        requires frame { IsFrame held.now.bytes }
        requires row { length (framed_row held.now.bytes) ≡ row_size self.old.job.width }
        requires begun { AreBegun self.old.job self.old.next (R.begun rack.old) }
        requires working { IfSome (R.working rack.old)
            (AreAsLong self.old.job self.old.next self.old.counts) }
        ensures rack { OnOk result (TellsRow self.old.job place held.now self.new.counts
            (told R.Rack rack.old).tells (told R.Rack rack.new).tells) }
        ensures own { OnOk result (CountsRow self.old.job place held.now self.old.counts self.new.counts) }
        ensures others { OnOk result ((s : ℕ) → s < 5 → s ≢ place.slot →
            slice_index_or self.new.counts s [] ≡ slice_index_or self.old.counts s []) }
        ensures goes_on { OnOk result (GoesOn self.old self.new) }
        ensures missed_stay { OnOk result (R.missed rack.new ≡ R.missed rack.old) }
        ensures stopped { IfErr result (IsStoppedAt self.old.job place held.now
            (told R.Rack rack.old) (told R.Rack rack.new)) }
        ensures others_stay { OnErr result (OthersStayAt self.old.job place
            (told R.Rack rack.old).tells (told R.Rack rack.new).tells) }
        ensures ended { OnErr result (self.new.ended ≡ true) }
        ensures job { self.new.job ≡ self.old.job }
        ensures faults_stay { R.faults rack.old ≤ R.faults rack.new }
    {
        // The site has ended unless all calls succeed.
        self.ended = true;
        let slot = &mut self.slots[place.slot];
        slot.count(framed(held.bytes()).len());
        let plate = &self.plates[place.plate];
        deliver(plate, place.y, slot, held, rack)?;
        self.finished = finished_with(self.finished, place.y, self.sides.height);
        self.next += 1;
        self.ended = false;
        Ok(())
    }

    /// Returns the result for a row at which the rack refused a call, with `plates` plates finished.
    fn refused(&mut self, place: PlateRow, plates: u32, row: u64, refusal: Refusal) -> Kept
        requires ended { self.old.ended ≡ true }
        requires plate { place.plate < length self.old.job.plates }
        ensures answer { (d : SitePlateData) → result ≡ kept_of refusal.fault (record {
          plates = plates;
          row = row;
          call = refusal.call;
          path = (slice_index_or self.old.job.plates place.plate d).path;
        }) }
        ensures ended { self.new.ended ≡ true }
    {
        match refusal.fault {
            RackFault::Failed => {
                let plate = self.plates.swap_remove(place.plate);
                Kept::Left(LeftCause {
                    plates,
                    row,
                    call: refusal.call,
                    path: plate.path,
                })
            }
            RackFault::Memory => Kept::Memory,
        }
    }

    /// Keeps the next row if it is one of the site's: begins its plate if it is the first row, appends it,
    /// and finishes the plate if it is the last. Allocates no memory of its own. After `Left` or `Memory` the
    /// site has ended and keeps no more rows.
    pub fn keep<R: Rack>(&mut self, held: &Held, rack: &mut R) -> Kept
        requires going { self.old.ended ≡ false }
        requires next { held.now.number ≡ self.old.next }
        requires within { self.old.next < self.old.job.total }
        requires frame { IsFrame held.now.bytes }
        requires row { length (framed_row held.now.bytes) ≡ row_size self.old.job.width }
        requires begun { AreBegun self.old.job self.old.next (R.begun rack.old) }
        requires working { IfSome (R.working rack.old)
            (AreAsLong self.old.job self.old.next self.old.counts) }

        // Done: all rows up to this one have been processed.
        ensures keeps { OnDone result (KeepsRow self.old self.new held.now
            (told R.Rack rack.old).tells (told R.Rack rack.new).tells) }
        ensures goes_on { OnDone result (GoesOn self.old self.new) }
        ensures begun_on { OnDone result (AreBegun self.new.job self.new.next (R.begun rack.new)) }
        ensures working_on { OnDone result (IfSome (R.working rack.new)
            (AreAsLong self.new.job self.new.next self.new.counts)) }
        ensures done_missed { OnDone result (R.missed rack.new ≡ R.missed rack.old) }
        // A row that is not the site's.
        ensures passes { is_kept self.old.job self.old.next ≡ false → result ≡ Kept.Done }
        ensures leaves_alone { is_kept self.old.job self.old.next ≡ false → rack.new ≡ rack.old }

        // Left: a call of the rack failed.
        ensures left { IfLeft result (IsCauseAt self.old.job self.old.next) }
        ensures left_counted { IfLeft result (λ _. Rose (R.faults rack.old) (R.faults rack.new)) }
        ensures left_missed { IfLeft result (λ cause.
            IfSome (R.missed rack.new) (λ last. last ≡ Some (cause.call, cause.path))) }
        ensures left_taken { IfLeft result (λ cause.
            R.taken rack.new ≡ taken_at cause.call self.old.next held.now.source (R.taken rack.old)) }
        // Memory: a call of the rack ran out of memory, and none failed.
        ensures memory_missed { OnMemory result (R.missed rack.new ≡ R.missed rack.old) }
        ensures memory_taken { OnMemory result
            (TakenOnce self.old.next held.now.source (R.taken rack.old) (R.taken rack.new)) }

        // Left or Memory: no plate was finished, no other plate was begun or went on, and the site has ended.
        ensures finished_stay { OnEnd result (R.finished rack.new ≡ R.finished rack.old) }
        ensures others_stay { OnEnd result (OthersStayFor self.old.job self.old.next
            (told R.Rack rack.old).tells (told R.Rack rack.new).tells) }
        ensures ended { OnEnd result (self.new.ended ≡ true) }
        ensures faults_stay { R.faults rack.old ≤ R.faults rack.new }
    {
        let Some(place) = self.place() else {
            self.next += 1;
            return Kept::Done;
        };
        let plates = self.finished;
        match self.give(place, held, rack) {
            Ok(()) => Kept::Done,
            Err(refusal) => self.refused(place, plates, held.number(), refusal),
        }
    }
}

/// Returns the number of finished plates after row `y` of one.
fn finished_with(finished: u32, y: u32, height: u32) -> u32
    requires y { y < height }
    requires fits { finished + 1 < 2 ^ 32 }
    ensures { result ≡ finished_after height y finished }
{
    if y == height - 1 {
        finished + 1
    } else {
        finished
    }
}
