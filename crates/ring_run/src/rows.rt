// A run over a ring, and what is constant during it.
ghost use Rattle.std.specs.Prelude.{◌≡◌, ◌+◌, ◌<◌, ◌≤◌, length, map, true};
ghost use Rattle.tif_packbits.specs.Frame.{framed_row};
ghost use Rattle.pr_rack.specs.Told.{all_told};
ghost use Rattle.ring_rule.specs.Views.{ring_of};
ghost use Rattle.site_agent.specs.Racks.{AreIdle};
ghost use Rattle.ring_turns.specs.Feeding.{HasRows};
ghost use Rattle.ring_run.specs.Fits.{by_ring, on_ring};
ghost use Rattle.ring_run.specs.JobRun.{IsRun, MayRun, RunLeaves};
ghost use Rattle.ring_run.specs.Keyed.{AreFreshKeys, further_count};
ghost use Rattle.ring_run.specs.Served.{Carries};

use crate::Outcome;
use crate::ends::{ends_of, seats_of};
use crate::round::run_rounds;
use crate::writer::{Bands, RunWriter};
use ink_keys::{Counts, KeyReader};
use plan_json::Plan;
use plan_rows::RowPlan;
use pr_base::{Deal, NoMemory};
use pr_rack::Rack;
use press_job::BandFeed;
use ring_lanes::{Ends, Ring, open_ring};
use ring_turns::Pace;
use site_agent::tell_slots;
use std::alloc::Global;
use std::thread::Threads;
use std::time::Clock;

/// What is constant during a run: its plan and the order of its rows, the folder of the plates, the numbers
/// of readers and places of the ring, and how often a turn looks in vain.
#[derive(Drop)]
pub struct Run<'p> {
    pub alloc: Global,
    pub plan: &'p Plan,
    pub rows: &'p RowPlan,
    pub out: &'p str,
    pub readers: u32,
    pub ring: u32,
    pub patience: u32,
}

impl Run<'_> {
    /// Runs round after round over a ring whose ends haven't been handed out yet, and returns how each site
    /// ended, and the counts of the key reader, if there is one. It has the ring's last reader.
    fn run_on<T: Threads + Clock + Sync, D: Deal + Sync, F: BandFeed + Send, R: Rack + Send>(
        &self,
        rt: &T,
        table: &mut Ring<'_, D>,
        feed: &mut F,
        racks: &mut [R],
        keys: Option<KeyReader<'_>>,
    ) -> Result<(Outcome, Option<Counts>), NoMemory>
        requires run { IsRun self.now }
        requires fresh { table.old.fresh ≡ true }
        requires places { 0 < table.old.ring.places }
        requires readers { table.old.ring.readers
            ≡ length self.now.plan.now.sites + further_count keys }
        requires has_rows { HasRows table.old.ring }
        requires feed { F.left feed.old ≡ table.old.ring.rows }
        requires racks { length self.now.plan.now.sites ≡ length racks.old }
        requires carries { Carries (on_ring self.now.plan.now self.now.out.now table.old.ring)
            table.old.ring }
        requires idle { AreIdle (length self.now.plan.now.sites) (all_told R.Rack racks.old) }
        requires fresh_keys { AreFreshKeys self.now.plan.now keys }
        ensures leaves { RunLeaves (on_ring self.now.plan.now self.now.out.now table.old.ring) keys.entry
            (all_told R.Rack racks.old) (all_told R.Rack racks.new) result }
    {
        tell_slots(racks);
        let Ends { writer, readers } = table.ends(self.alloc)?;
        let mut seats = seats_of(self.alloc, self.plan, self.rows, self.out, readers, keys)?;
        let mut writer = RunWriter {
            bands: Bands { rt },
            feed,
            end: writer,
        };
        run_rounds(rt, &mut writer, seats.as_mut_slice(), racks, self.patience);
        ends_of(self.alloc, self.plan, self.rows, seats)
    }

    /// Delivers the rows of a deal, which the feed gives in order, to the racks of the plan's sites, over a
    /// ring, and returns how each site ended, and the counts of the key reader, if there is one.
    pub(crate) fn run_rows<
        T: Threads + Clock + Sync,
        D: Deal + Sync,
        F: BandFeed + Send,
        R: Rack + Send,
    >(
        &self,
        rt: &T,
        deal: &D,
        feed: &mut F,
        racks: &mut [R],
        keys: Option<KeyReader<'_>>,
    ) -> Result<(Outcome, Option<Counts>), NoMemory>
        requires may { MayRun R.Rack self.now keys racks.old }
        requires carries { Carries
            (by_ring self.now.plan.now (map framed_row (D.rows deal.now)) self.now.out.now
            self.now.readers self.now.ring)
            (ring_of self.now.ring self.now.readers (D.rows deal.now) (D.size deal.now)) }
        requires some_byte { 1 ≤ D.size deal.now }
        requires few_bytes { D.size deal.now ≤ 8258 }
        requires feed { F.left feed.old ≡ D.rows deal.now }
        requires racks { length self.now.plan.now.sites ≡ length racks.old }
        ensures leaves { RunLeaves
            (by_ring self.now.plan.now (map framed_row (D.rows deal.now)) self.now.out.now
            self.now.readers self.now.ring) keys.entry
            (all_told R.Rack racks.old) (all_told R.Rack racks.new) result }
    {
        let row_len = deal.row_len();
        // A row's number is far below the word that marks a reader that left.
        let total = self.rows.total();
        prove!(total < u64::MAX);
        let mut table = open_ring(self.alloc, deal, self.ring, self.readers)?;
        table.set_pauses(Pace::of(rt, self.patience, row_len).pauses);
        self.run_on(rt, &mut table, feed, racks, keys)
    }
}
