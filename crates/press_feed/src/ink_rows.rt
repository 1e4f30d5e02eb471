// One ink of a side: how it is screened, and the rows that are drawn in it.
ghost use Rattle.std.specs.Prelude.{◌≡◌, IfOk, IsTrue};
ghost use Rattle.press_feed.specs.Drawn.{IsLike};
ghost use Rattle.press_feed.specs.InkRows.{IsNextChain, IsNextIn, IsReady, begun, drawn_on, passed};
ghost use Rattle.press_feed.specs.InkRows.{restarted};

use crate::chain::Chain;
use crate::drawer::Drawer;
use crate::drawn_rows::DrawnRows;
use crate::held_rows::HeldRows;
use crate::screener::Screener;
use plan_rows::Group;
use pr_base::NoMemory;
use press_job::Job;
use std::alloc::Global;
use std::marker::Model;

/// The rows of a side's pages in one ink. Contracts see the rows that are drawn, and what a chain took.
#[derive(Drop)]
pub(crate) struct InkRows<'j> {
    drawer: Drawer<'j>,
    drawn: DrawnRows<'j>,
}

impl<'j> Model for InkRows<'j> {
    ghost use Rattle.press_feed.specs.InkRows.{InkData, IsInkRows, chain_of};

    ghost Value = { InkData };

    ghost view = { λ i. record { drawn = i.drawn; chain = chain_of i.drawer } };

    ghost invariant = { λ i. IsInkRows i.drawer i.drawn };
}

impl<'j> InkRows<'j> {
    /// Returns the drawn rows of an ink of a job, with what screens the rows that are drawn next.
    pub(crate) fn of(
        alloc: Global,
        job: &'j Job,
        drawn: DrawnRows<'j>,
    ) -> Result<InkRows<'j>, NoMemory>
        requires { drawn.job ≡ job.now }
        ensures { IfOk result (λ rows. rows.drawn ≡ drawn.entry) }
    {
        let ink = drawn.ink();
        match Screener::of(alloc, job.plan(), ink)? {
            Screener::Tile(tile) => Ok(InkRows {
                drawer: Drawer::Tiled(tile),
                drawn,
            }),
            Screener::Diffusion => Ok(InkRows {
                drawer: Drawer::Diffused(Chain::open(alloc, job, ink)?),
                drawn,
            }),
        }
    }

    /// Moves the chain to the top of a page, if a group prints the ink.
    pub(crate) fn restart(&mut self, group: &Group, page: usize)
        ensures { self.new ≡ restarted group.now page self.old }
    {
        if !group.has_ink(self.drawn.ink()) {
            return;
        }
        if let Drawer::Diffused(chain) = &mut self.drawer {
            chain.begin(page);
        }
    }

    /// Gives the rows held to the chain, if a group prints the ink. Nothing is drawn.
    pub(crate) fn pass(&mut self, group: &Group, held: &HeldRows<'_>)
        requires { IsNextChain group.now held.now self.old }
        ensures { self.new ≡ passed group.now self.old }
    {
        if !group.has_ink(self.drawn.ink()) {
            return;
        }
        if let Drawer::Diffused(chain) = &mut self.drawer {
            chain.take(held);
        }
    }

    /// Drops the rows that are drawn, if a group prints the ink. The next one will be row `first` of a page.
    pub(crate) fn begin(&mut self, group: &Group, page: usize, first: u32)
        ensures { self.new ≡ begun group.now page first self.old }
    {
        if group.has_ink(self.drawn.ink()) {
            self.drawn.begin(page, first);
        }
    }

    /// Draws the rows held, behind those that are drawn, if a group prints the ink.
    pub(crate) fn draw(&mut self, group: &Group, held: &HeldRows<'_>)
        requires { IsNextIn group.now held.now self.old }
        ensures { self.new ≡ drawn_on group.now held.now.count self.old }
    {
        if !group.has_ink(self.drawn.ink()) {
            return;
        }
        match &mut self.drawer {
            Drawer::Tiled(tile) => self.drawn.tile(tile, held),
            Drawer::Diffused(chain) => {
                chain.take(held);
                self.drawn.diffuse(chain, held.count());
            }
        }
    }

    /// Whether row `count` of a page is the next one of the chain, if there is one and a group prints the
    /// ink.
    pub(crate) fn is_ready(&self, group: &Group, page: usize, count: u32) -> bool
        ensures { IsTrue result → IsReady group.now page count self.now }
    {
        if !group.has_ink(self.drawn.ink()) {
            return true;
        }
        match &self.drawer {
            Drawer::Tiled(_) => true,
            Drawer::Diffused(chain) => chain.is_at(page, count),
        }
    }

    /// Lends the rows that are drawn.
    pub(crate) fn drawn(&self) -> &DrawnRows<'j>
        ensures { result.now ≡ self.now.drawn }
    {
        &self.drawn
    }

    /// Exchanges the rows that are drawn for other ones of the job, if these are of the same side and ink and
    /// have as much room.
    pub(crate) fn exchange(&mut self, rows: &mut DrawnRows<'j>)
        requires { rows.old.job ≡ self.old.drawn.job }
        ensures like { IsLike self.old.drawn self.new.drawn }
        ensures rows { rows.new.job ≡ self.old.drawn.job }
        ensures chain { self.new.chain ≡ self.old.chain }
    {
        if self.drawn.is_like(rows) {
            std::mem::swap(&mut self.drawn, rows);
        }
    }
}
