// Delivery of the plates that must be made, row by row over a deck.
ghost use Rattle.std.specs.Prelude.{◌≡◌, ◌+◌, ◌-◌, ◌<◌, ◌^◌, ℕ, false, true, All, IfOk, OnErr, OnOk};
ghost use Rattle.std.specs.Prelude.{count_by, drop, length, map, slice_index_or};
ghost use Rattle.tif_packbits.specs.Frame.{framed_row};
ghost use Rattle.pr_rack.specs.Told.{all_told, told};
ghost use Rattle.plan_json.specs.Plan.{IsPlan};
ghost use Rattle.plan_rows.specs.Groups.{groups_of};
ghost use Rattle.site_agent.specs.Racks.{AreIdle, KeepCounts};
ghost use Rattle.replate.specs.declared.maker.Maker.{Maker as MakerData};
ghost use Rattle.replate.specs.Making.{AllMade, AllSomeServed, AllStopped, IsBeforeRow, IsUp};
ghost use Rattle.replate.specs.Making.{fresh_maker, fresh_makers, is_making as is_making_lem};
ghost use Rattle.replate.specs.Making.{keeps_next as keeps_next_lem, passed};
ghost use Rattle.replate.specs.Remade.{AreRowsOf, RemadeFits, RemadePart, by_picks};

use crate::maker::{Maker, hand};
use crate::wanted::wanted_of;
use crate::{Inputs, Picks, RemadeEnd};
use pr_base::{Deal, NoMemory};
use pr_feed::PassingFeed;
use pr_rack::Rack;
use ring_lanes::Deck;
use site_agent::{Site, tell_slots};
use std::alloc::Global;

/// What is constant during a delivery: the new job, which of its plates must be made, and the folder of the
/// plates.
#[derive(Drop)]
pub(crate) struct Remaking<'p> {
    pub(crate) alloc: Global,
    pub(crate) after: &'p Inputs<'p>,
    pub(crate) picks: &'p Picks,
    pub(crate) out: &'p str,
}

impl Remaking<'_> {
    /// Returns a site before the first row.
    fn maker(&self, site: usize) -> Result<Maker, NoMemory>
        requires picks { length self.now.picks.now.kept ≡ length (groups_of self.now.after.now.plan) }
        requires site { site < length self.now.after.now.plan.sites }
        ensures { IfOk result (λ maker. maker
            ≡ fresh_maker self.now.after.now.plan self.now.out.now self.now.picks.now site) }
    {
        let wanted = wanted_of(self.alloc, self.after, self.picks, site)?;
        let end = end_of(&wanted);
        let (plan, rows) = (self.after.plan(), self.after.rows());
        let site = Site::of_picked(self.alloc, plan, rows, self.out, site, &wanted)?;
        Ok(Maker { site, end })
    }

    /// Returns the sites before the first row.
    fn makers(&self) -> Result<Vec<Maker>, NoMemory>
        requires picks { length self.now.picks.now.kept ≡ length (groups_of self.now.after.now.plan) }
        ensures fresh { IfOk result (λ makers. makers.items
            ≡ fresh_makers self.now.after.now.plan self.now.out.now self.now.picks.now) }
        ensures plan { IsPlan self.now.after.now.plan }
    {
        let plan = self.after.plan();
        let mut makers = Vec::new(self.alloc);
        for site in 0..plan.sites.len() {
            makers.push(self.maker(site)?)?;
        }
        Ok(makers)
    }

    /// Handles row after row until no site has a plate left to make, and returns how each site ended. `row`
    /// is the buffer for one row.
    fn make_rows<D: Deal, F: PassingFeed, R: Rack>(
        &self,
        deck: &mut Deck<'_, D>,
        feed: &mut F,
        row: &mut [u8],
        racks: &mut [R],
    ) -> Result<Vec<RemadeEnd>, NoMemory>
        requires picks { length self.now.picks.now.kept ≡ length (groups_of self.now.after.now.plan) }
        requires rows { AreRowsOf self.now.after.now.plan deck.old.rows }
        requires put { deck.old.put ≡ 0 }
        requires home { deck.old.out ≡ false }
        requires feed { F.left feed.old ≡ deck.old.rows }
        requires row { All (λ bytes. length bytes ≡ length row.old) deck.old.rows }
        requires racks { length self.now.after.now.plan.sites ≡ length racks.old }
        requires idle { AreIdle (length self.now.after.now.plan.sites) (all_told R.Rack racks.old) }
        ensures fits { IfOk result (λ ends. RemadeFits
            (by_picks self.now.after.now.plan (map framed_row deck.old.rows) self.now.out.now
            self.now.picks.now)
            (all_told R.Rack racks.old) (all_told R.Rack racks.new) ends.items) }
        ensures part { OnErr result (RemadePart
            (by_picks self.now.after.now.plan (map framed_row deck.old.rows) self.now.out.now
            self.now.picks.now)
            (all_told R.Rack racks.old) (all_told R.Rack racks.new)) }
        ensures counts { KeepCounts (all_told R.Rack racks.old) (all_told R.Rack racks.new) }
    {
        tell_slots(racks);
        let mut makers = self.makers()?;
        while are_making(&makers) {
            handle_row(deck, feed, row, makers.as_mut_slice(), racks)?;
        }
        ends_of(self.alloc, makers)
    }

    /// Does the same over all rows of a deal.
    pub(crate) fn make_plates<D: Deal, F: PassingFeed, R: Rack>(
        &self,
        deal: &D,
        feed: &mut F,
        racks: &mut [R],
    ) -> Result<Vec<RemadeEnd>, NoMemory>
        requires picks { length self.now.picks.now.kept ≡ length (groups_of self.now.after.now.plan) }
        requires rows { AreRowsOf self.now.after.now.plan (D.rows deal.now) }
        requires feed { F.left feed.old ≡ D.rows deal.now }
        requires racks { length self.now.after.now.plan.sites ≡ length racks.old }
        requires idle { AreIdle (length self.now.after.now.plan.sites) (all_told R.Rack racks.old) }
        ensures fits { IfOk result (λ ends. RemadeFits
            (by_picks self.now.after.now.plan (map framed_row (D.rows deal.now)) self.now.out.now
            self.now.picks.now)
            (all_told R.Rack racks.old) (all_told R.Rack racks.new) ends.items) }
        ensures part { OnErr result (RemadePart
            (by_picks self.now.after.now.plan (map framed_row (D.rows deal.now)) self.now.out.now
            self.now.picks.now)
            (all_told R.Rack racks.old) (all_told R.Rack racks.new)) }
        ensures counts { KeepCounts (all_told R.Rack racks.old) (all_told R.Rack racks.new) }
    {
        let mut row = vec![in self.alloc; 0; deal.row_len()]?;
        let mut deck = Deck::open(self.alloc, deal)?;
        self.make_rows(&mut deck, feed, row.as_mut_slice(), racks)
    }
}

/// Returns the end of a site that makes the plates whose flags are true.
fn end_of(wanted: &[bool]) -> RemadeEnd
    requires { length wanted.now < 2 ^ 32 }
    ensures { result ≡ RemadeEnd.Done (count_by (λ bit. bit) wanted.now)
        (length wanted.now - count_by (λ bit. bit) wanted.now) }
{
    let made = wanted.iter().filter(|bit| **bit).count();
    RemadeEnd::Done {
        made: made as u32,
        kept: (wanted.len() - made) as u32,
    }
}

/// Returns whether some site has plates left to make.
fn are_making(makers: &[Maker]) -> bool
    requires { All IsUp makers.now }
    ensures some { result ≡ true → (i : ℕ) × (i < length makers.now)
        × ((d : MakerData) → is_making_lem (slice_index_or makers.now i d) ≡ true) }
    ensures none { result ≡ false → All (λ maker. is_making_lem maker ≡ false) makers.now }
{
    for maker in makers {
        if maker.is_making() {
            return true;
        }
    }
    false
}

/// Returns whether the next row is one of a plate that some site has left to make.
fn is_kept(makers: &[Maker]) -> bool
    requires { All IsUp makers.now }
    ensures some { result ≡ true → (i : ℕ) × (i < length makers.now)
        × ((d : MakerData) → keeps_next_lem (slice_index_or makers.now i d) ≡ true) }
    ensures none { result ≡ false → All (λ maker. keeps_next_lem maker ≡ false) makers.now }
{
    for maker in makers {
        if maker.keeps_next() {
            return true;
        }
    }
    false
}

/// Handles the next row: makes it and hands it to each site, or passes over it if no site keeps it. `row` is
/// the buffer for one row.
fn handle_row<D: Deal, F: PassingFeed, R: Rack>(
    deck: &mut Deck<'_, D>,
    feed: &mut F,
    row: &mut [u8],
    makers: &mut [Maker],
    racks: &mut [R],
) -> Result<(), NoMemory>
    requires home { deck.old.out ≡ false }
    requires below { deck.old.put < length deck.old.rows }
    requires feed { F.left feed.old ≡ drop deck.old.put deck.old.rows }
    requires row { All (λ bytes. length bytes ≡ length row.old) deck.old.rows }
    requires count { length makers.old ≡ length racks.old }
    requires some { AllSomeServed (told R.Rack) deck.old.rows deck.old.put makers.old racks.old }
    ensures made { OnOk result (AllMade (told R.Rack) deck.old.rows deck.old.put
        makers.old racks.old makers.new racks.new) }
    ensures stopped { OnErr result (AllStopped (told R.Rack) deck.old.rows deck.old.put
        makers.old racks.old racks.new) }
    ensures rows { deck.new.rows ≡ deck.old.rows }
    ensures put { deck.new.put ≡ deck.old.put + 1 }
    ensures home { deck.new.out ≡ false }
    ensures feed { F.left feed.new ≡ drop (deck.old.put + 1) deck.old.rows }
{
    if !is_kept(makers) {
        pass_over(deck, feed, makers);
        return Ok(());
    }
    feed.next(row);
    deck.put(row);
    hand_row(deck, makers, racks)
}

/// Passes over the next row, which no site keeps.
fn pass_over<D: Deal, F: PassingFeed>(deck: &mut Deck<'_, D>, feed: &mut F, makers: &mut [Maker])
    requires home { deck.old.out ≡ false }
    requires below { deck.old.put < length deck.old.rows }
    requires feed { F.left feed.old ≡ drop deck.old.put deck.old.rows }
    requires next { All IsBeforeRow makers.old }
    requires others { All (λ maker. keeps_next_lem maker ≡ false) makers.old }
    ensures makers { makers.new ≡ map passed makers.old }
    ensures rows { deck.new.rows ≡ deck.old.rows }
    ensures put { deck.new.put ≡ deck.old.put + 1 }
    ensures home { deck.new.out ≡ false }
    ensures feed { F.left feed.new ≡ drop (deck.old.put + 1) deck.old.rows }
{
    feed.pass();
    deck.pass();
    pass_row(makers);
}

/// Passes over the next row at each site in turn.
fn pass_row(makers: &mut [Maker])
    requires next { All IsBeforeRow makers.old }
    requires others { All (λ maker. keeps_next_lem maker ≡ false) makers.old }
    ensures { makers.new ≡ map passed makers.old }
{
    for i in 0..makers.len() {
        makers[i].pass();
    }
}

/// Hands the row that was put last to each site in turn.
fn hand_row<D: Deal, R: Rack>(
    deck: &mut Deck<'_, D>,
    makers: &mut [Maker],
    racks: &mut [R],
) -> Result<(), NoMemory>
    requires put { deck.old.there ≡ true }
    requires home { deck.old.out ≡ false }
    requires count { length makers.old ≡ length racks.old }
    requires some { AllSomeServed (told R.Rack) deck.old.rows (deck.old.put - 1) makers.old racks.old }
    ensures made { OnOk result (AllMade (told R.Rack) deck.old.rows (deck.old.put - 1)
        makers.old racks.old makers.new racks.new) }
    ensures stopped { OnErr result (AllStopped (told R.Rack) deck.old.rows (deck.old.put - 1)
        makers.old racks.old racks.new) }
    ensures deck { deck.new ≡ deck.old }
{
    for i in 0..makers.len() {
        hand(deck, &mut makers[i], &mut racks[i])?;
    }
    Ok(())
}

/// Returns how the sites ended.
fn ends_of(alloc: Global, makers: Vec<Maker>) -> Result<Vec<RemadeEnd>, NoMemory>
    ensures { IfOk result (λ ends. ends.items ≡ map (λ maker. maker.end) makers.items) }
{
    let mut ends = Vec::new(alloc);
    for maker in makers {
        let Maker { site: _site, end } = maker;
        ends.push(end)?;
    }
    Ok(ends)
}
