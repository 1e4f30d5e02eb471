// The rows of one side's pages, drawn in some inks.
ghost use Rattle.std.specs.Prelude.{All, ◌≡◌, ◌≢◌, ℕ, ◌+◌, ◌*◌, ◌%◌, ◌<◌, ◌≤◌, IfOk, IsTrue, Some, length};
ghost use Rattle.std.specs.Prelude.{map, slice_get, true};
ghost use Rattle.std.specs.Option.{ForSome};
ghost use Rattle.pr_base.specs.Ink.{slot_of};
ghost use Rattle.plan_rows.specs.Inks.{has_ink};
ghost use Rattle.press_feed.specs.Drawn.{HasRow, blank_rows};
ghost use Rattle.press_feed.specs.Frames.{AreOf};
ghost use Rattle.press_feed.specs.InkRows.{IsNextChain, IsNextIn, IsReady, begun, drawn_on, passed};
ghost use Rattle.press_feed.specs.InkRows.{restarted};
ghost use Rattle.press_feed.specs.PlateRow.{IsRowsOf};
ghost use Rattle.press_feed.specs.SideRows.{AreInAll, HaveRoom, IsAtGroup, IsExchanged, IsMovedTo};
ghost use Rattle.press_feed.specs.SideRows.{IsOpenFor, IsSameSide, drawn_behind, drawn_for, drawns, next_of};
ghost use Rattle.press_feed.specs.Sides.{page_on};

use crate::drawn_rows::DrawnRows;
use crate::held_rows::{BLOCK, HeldRows};
use crate::ink_rows::InkRows;
use crate::side::Side;
use plan_rows::Group;
use pr_base::{Ink, NoMemory};
use press_job::Job;
use std::alloc::Global;
use std::marker::Model;

/// How many rows are drawn at once on request: several blocks, since the sides take turns, and the buffers of
/// both are larger than a processor's cache.
pub(crate) const AHEAD: u32 = 64;

/// The pages of one side, and their rows drawn in some inks. Contracts see the job, the side, which rows of
/// which page are held, and the rows in each ink.
#[derive(Drop)]
pub(crate) struct SideRows<'j> {
    job: &'j Job,
    side: Side,
    held: HeldRows<'j>,
    inks: Vec<InkRows<'j>>,
}

impl<'j> Model for SideRows<'j> {
    ghost use Rattle.press_feed.specs.SideRows.{IsSideRows, SideRowsData};

    ghost Value = { SideRowsData };

    ghost view = { λ s. record {
      job = s.job.now;
      side = s.side;
      held = s.held;
      inks = s.inks.items;
    } };

    ghost invariant = { λ s. IsSideRows s.job.now s.side s.held s.inks.items };
}

impl<'j> SideRows<'j> {
    /// Allocates room for `room` rows of each of these inks. None is drawn.
    pub(crate) fn open(
        alloc: Global,
        job: &'j Job,
        side: Side,
        inks: &[Ink],
        room: usize,
    ) -> Result<SideRows<'j>, NoMemory>
        requires { room ≤ 65536 }
        ensures job { IfOk result (λ rows. rows.job ≡ job.now) }
        ensures side { IfOk result (λ rows. rows.side ≡ side) }
        ensures inks { IfOk result
            (λ rows. drawns rows.inks ≡ map (blank_rows job.now side room) inks.now) }
        ensures room { IfOk result (λ rows. HaveRoom room rows.inks) }
    {
        let inks = open_inks(alloc, job, side, inks, room)?;
        let held = HeldRows::open(alloc, job)?;
        Ok(SideRows {
            job,
            side,
            held,
            inks,
        })
    }

    /// Draws `count` rows of the side's page of a group, from row `first` on, in each of the inks that the
    /// group prints. Rows in order cost least: where `first` is not the next row of the page and of each of
    /// these chains, the page is read from its top.
    pub(crate) fn draw(&mut self, group: &Group, first: u32, count: u32)
        requires whole { first % 8 ≡ 0 }
        requires within { first + count ≤ self.old.job.plan.page_height }
        requires last { count % 8 ≢ 0 → first + count ≡ self.old.job.plan.page_height }
        requires room { HaveRoom count self.old.inks }
        ensures drawn { drawns self.new.inks
            ≡ map (drawn_for group.now self.old.side first count) (drawns self.old.inks) }
        ensures job { self.new.job ≡ self.old.job }
        ensures side { self.new.side ≡ self.old.side }
        ensures room { (height : ℕ) → HaveRoom height self.old.inks → HaveRoom height self.new.inks }
    {
        self.enter(group, first);
        self.draw_blocks(group, first, count / BLOCK);
        if count % BLOCK == 0 {
            return;
        }
        self.draw_block(group, count % BLOCK);
    }

    /// Draws row `y` of the side's page of a group, and the rows about it, unless the rows of an ink of the
    /// group have it.
    pub(crate) fn reach_row(&mut self, group: &Group, ink: Ink, y: u32)
        requires all { AreInAll self.old.inks }
        requires ink { has_ink group.now ink ≡ true }
        requires within { y < self.old.job.plan.page_height }
        ensures row { ForSome (slice_get (drawns self.new.inks) (slot_of ink))
            (λ drawn. HasRow drawn (page_on self.old.side group.now) y) }
        ensures all { AreInAll self.new.inks }
        ensures same { IsSameSide self.old self.new }
    {
        let page = self.side.page_of(group);
        if self.rows(ink).has(page, y) {
            return;
        }
        let first = y / AHEAD * AHEAD;
        let count = AHEAD.min(self.height() - first);
        self.draw(group, first, count);
    }

    /// The number of rows of a page.
    fn height(&self) -> u32
        ensures { result ≡ self.now.job.plan.page_height }
    {
        self.job.plan().page_height
    }

    /// Lends the drawn rows of an ink.
    pub(crate) fn rows(&self, ink: Ink) -> &DrawnRows<'j>
        requires { AreInAll self.now.inks }
        ensures rows { slice_get (drawns self.now.inks) (slot_of ink) ≡ Some result.now }
        ensures own { IsRowsOf self.now.job self.now.side ink result.now }
    {
        self.inks[ink.slot()].drawn()
    }

    /// Moves before row `first` of the page of a group, unless it is the next one.
    fn enter(&mut self, group: &Group, first: u32)
        requires whole { first % 8 ≡ 0 }
        requires within { first ≤ self.old.job.plan.page_height }
        ensures { IsMovedTo group.now first self.old self.new }
    {
        if self.is_at(group, first) {
            return;
        }
        self.reach(group, first);
    }

    /// Whether row `first` of the page of a group is next, for the page and for each chain that the group
    /// needs.
    fn is_at(&self, group: &Group, first: u32) -> bool
        ensures { IsTrue result → IsAtGroup group.now first self.now }
    {
        let page = self.side.page_of(group);
        if self.held.page() != page || self.held.next() != first {
            return false;
        }
        are_ready(group, page, first, &self.inks)
    }

    /// Moves before row `first` of the page of a group, from the page's top on: its rows go through the
    /// chains of the inks that the group prints, and nothing is drawn.
    fn reach(&mut self, group: &Group, first: u32)
        requires whole { first % 8 ≡ 0 }
        requires within { first ≤ self.old.job.plan.page_height }
        ensures { IsMovedTo group.now first self.old self.new }
    {
        self.restart(group);
        for _block in 0..first / BLOCK {
            self.pass_block(group);
        }
    }

    /// Moves to the top of the page of a group.
    fn restart(&mut self, group: &Group)
        ensures { IsMovedTo group.now 0 self.old self.new }
    {
        let page = self.side.page_of(group);
        self.held.begin(page);
        restart_all(group, page, &mut self.inks);
    }

    /// Gives the next eight rows to the chains of the inks that a group prints.
    fn pass_block(&mut self, group: &Group)
        requires at { IsAtGroup group.now (next_of self.old) self.old }
        requires within { next_of self.old + 8 ≤ self.old.job.plan.page_height }
        ensures { IsMovedTo group.now (next_of self.old + 8) self.old self.new }
    {
        self.held.show(BLOCK);
        pass_all(group, &self.held, &mut self.inks);
    }

    /// Drops the drawn rows of each ink that a group prints. The next one is row `first` of its page.
    fn begin(&mut self, group: &Group, first: u32)
        requires at { IsAtGroup group.now first self.old }
        ensures at { IsAtGroup group.now first self.new }
        ensures same { IsSameSide self.old self.new }
        ensures drawn { drawns self.new.inks
            ≡ map (drawn_for group.now self.old.side first 0) (drawns self.old.inks) }
    {
        let page = self.held.page();
        begin_all(group, page, first, &mut self.inks);
    }

    /// Draws this many blocks of eight rows of the page of a group, from row `first` on, in place of the rows
    /// drawn before.
    fn draw_blocks(&mut self, group: &Group, first: u32, blocks: u32)
        requires at { IsAtGroup group.now first self.old }
        requires within { first + 8 * blocks ≤ self.old.job.plan.page_height }
        requires room { HaveRoom (8 * blocks) self.old.inks }
        ensures at { IsAtGroup group.now (first + 8 * blocks) self.new }
        ensures same { IsSameSide self.old self.new }
        ensures drawn { drawns self.new.inks
            ≡ map (drawn_for group.now self.old.side first (8 * blocks)) (drawns self.old.inks) }
    {
        self.begin(group, first);
        for _block in 0..blocks {
            self.draw_block(group, BLOCK);
        }
    }

    /// Draws the next rows, eight or those at the end of the page, in each ink that a group prints.
    fn draw_block(&mut self, group: &Group, rows: u32)
        requires some { 0 < rows }
        requires eight { rows ≤ 8 }
        requires at { IsAtGroup group.now (next_of self.old) self.old }
        requires within { next_of self.old + rows ≤ self.old.job.plan.page_height }
        requires whole { rows < 8 → next_of self.old + rows ≡ self.old.job.plan.page_height }
        requires free { All (IsOpenFor group.now self.old.held.page (next_of self.old) rows)
            (drawns self.old.inks) }
        ensures at { rows ≡ 8 → IsAtGroup group.now (next_of self.old + 8) self.new }
        ensures same { IsSameSide self.old self.new }
        ensures drawn { drawns self.new.inks
            ≡ map (drawn_behind group.now rows) (drawns self.old.inks) }
    {
        self.held.show(rows);
        draw_all(group, &self.held, &mut self.inks);
    }

    /// Exchanges the drawn rows for those among others that are alike.
    pub(crate) fn exchange(&mut self, others: &mut [DrawnRows<'j>])
        requires { AreOf self.old.job others.old }
        ensures own { IsExchanged self.old self.new }
        ensures others { AreOf self.old.job others.new }
    {
        for index in 0..self.inks.len() {
            self.exchange_ink(index, others);
        }
    }

    /// The same for one ink.
    fn exchange_ink(&mut self, index: usize, others: &mut [DrawnRows<'j>])
        requires index { index < length self.old.inks }
        requires others { AreOf self.old.job others.old }
        ensures own { IsExchanged self.old self.new }
        ensures others { AreOf self.old.job others.new }
    {
        for other in 0..others.len() {
            self.exchange_rows(index, &mut others[other]);
        }
    }

    /// Exchanges the drawn rows of one ink, if the other ones are alike.
    fn exchange_rows(&mut self, index: usize, rows: &mut DrawnRows<'j>)
        requires index { index < length self.old.inks }
        requires rows { rows.old.job ≡ self.old.job }
        ensures own { IsExchanged self.old self.new }
        ensures rows { rows.new.job ≡ self.old.job }
    {
        self.inks[index].exchange(rows);
    }
}

/// Allocates the rows of some inks, with room for `room` each.
fn open_inks<'j>(
    alloc: Global,
    job: &'j Job,
    side: Side,
    inks: &[Ink],
    room: usize,
) -> Result<Vec<InkRows<'j>>, NoMemory>
    requires { room ≤ 65536 }
    ensures { IfOk result (λ rows. drawns rows.items ≡ map (blank_rows job.now side room) inks.now) }
{
    let mut rows = Vec::with_capacity(alloc, inks.len())?;
    for ink in inks {
        let drawn = DrawnRows::open(alloc, job, side, *ink, room)?;
        rows.push(InkRows::of(alloc, job, drawn)?)?;
    }
    Ok(rows)
}

/// Whether row `first` of a page is next for the chain of each ink that a group prints.
fn are_ready(group: &Group, page: usize, first: u32, inks: &[InkRows<'_>]) -> bool
    ensures { IsTrue result → All (IsReady group.now page first) inks.now }
{
    for ink in inks {
        if !ink.is_ready(group, page, first) {
            return false;
        }
    }
    true
}

/// Moves the chain of each ink that a group prints to the top of a page.
fn restart_all(group: &Group, page: usize, inks: &mut [InkRows<'_>])
    ensures { inks.new ≡ map (restarted group.now page) inks.old }
{
    for ink in inks.iter_mut() {
        ink.restart(group, page);
    }
}

/// Gives the rows held to the chain of each ink that a group prints.
fn pass_all(group: &Group, held: &HeldRows<'_>, inks: &mut [InkRows<'_>])
    requires { All (IsNextChain group.now held.now) inks.old }
    ensures { inks.new ≡ map (passed group.now) inks.old }
{
    for ink in inks.iter_mut() {
        ink.pass(group, held);
    }
}

/// Drops the drawn rows of each ink that a group prints. The next one will be row `first` of a page.
fn begin_all(group: &Group, page: usize, first: u32, inks: &mut [InkRows<'_>])
    ensures { inks.new ≡ map (begun group.now page first) inks.old }
{
    for ink in inks.iter_mut() {
        ink.begin(group, page, first);
    }
}

/// Draws the rows held in each ink that a group prints.
fn draw_all(group: &Group, held: &HeldRows<'_>, inks: &mut [InkRows<'_>])
    requires { All (IsNextIn group.now held.now) inks.old }
    ensures { inks.new ≡ map (drawn_on group.now held.now.count) inks.old }
{
    for ink in inks.iter_mut() {
        ink.draw(group, held);
    }
}
