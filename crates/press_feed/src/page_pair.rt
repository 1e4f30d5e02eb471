// The two pages of a plate, made row by row, in inks under tiles.
ghost use Rattle.std.specs.Prelude.{◌≡◌, ℕ, ◌+◌, ◌<◌, ◌≤◌, IfOk, Some, false, length, replicate};
ghost use Rattle.pr_base.specs.Row.{row_size};
ghost use Rattle.plan_json.specs.Data.{plate_width};
ghost use Rattle.plan_json.specs.Plan.{IsPlan};
ghost use Rattle.press_feed.specs.Plates.{DrawsPages, ShowsPages, page_row};
ghost use Rattle.press_feed.specs.Screener.{is_diffused};

use crate::byte_row::clear;
use crate::screener::{Screener, open_screeners};
use crate::side::Side;
use crate::side_pages::SidePages;
use plan_rows::Group;
use pr_base::{Ink, NoMemory};
use press_job::Job;
use std::alloc::Global;
use std::marker::Model;

/// The pages of both sides and their tiles. It holds one row of each page, never a whole page. Contracts see
/// the job, the two pages, and how many of their rows were made.
#[derive(Drop)]
pub(crate) struct PagePair<'j> {
    job: &'j Job,
    left: SidePages<'j>,
    right: SidePages<'j>,
    /// Indexed by the ink's slot.
    screeners: Vec<Screener>,
}

impl<'j> Model for PagePair<'j> {
    ghost use Rattle.press_feed.specs.Pair.{PairData};

    ghost Value = { PairData };

    ghost use Rattle.press_feed.specs.Pair.{IsPair};

    ghost view = { λ p. record {
      job = p.job.now;
      left = p.left.page;
      right = p.right.page;
      shown = p.left.shown;
    } };

    ghost invariant = { λ p. IsPair p.job.now p.left p.right p.screeners.items };
}

impl<'j> PagePair<'j> {
    ghost use Rattle.press_feed.specs.Pair.{of_group};

    /// Allocates the buffers of the pages.
    pub(crate) fn open(alloc: Global, job: &'j Job) -> Result<PagePair<'j>, NoMemory>
        ensures pages { IfOk result (λ pair. pair
            ≡ record { job = job.now; left = 0; right = 0; shown = 0 }) }
        ensures valid { IsPlan job.now.plan }
    {
        let screeners = open_screeners(alloc, job.plan())?;
        let left = SidePages::open(alloc, job, Side::Left)?;
        let right = SidePages::open(alloc, job, Side::Right)?;
        Ok(PagePair {
            job,
            left,
            right,
            screeners,
        })
    }

    /// Makes row `y` of the pages of a group, whatever the current row is. The rows above are skipped.
    fn show(&mut self, group: &Group, y: u32)
        requires { y < self.old.job.plan.page_height }
        ensures { self.new ≡ of_group group.now (y + 1) self.old }
    {
        self.enter(group, y);
        if self.left.shown() <= y {
            self.left.show_at(y);
            self.right.show_at(y);
        }
    }

    /// Moves to the top of the pages of a group, unless they are the current ones and row `y` is their
    /// current row or still to come.
    fn enter(&mut self, group: &Group, y: u32)
        requires { y < self.old.job.plan.page_height }
        ensures pages { self.new ≡ of_group group.now self.new.shown self.old }
        ensures shown { self.new.shown ≤ y + 1 }
    {
        if self.left.page() != group.left
            || self.right.page() != group.right
            || self.left.shown() > y + 1
        {
            self.left.begin(Side::Left.page_of(group));
            self.right.begin(Side::Right.page_of(group));
        }
    }

    /// Draws a row of a plate that shows row `y` of the pages of a group, whatever the current row is: the
    /// two pages in an ink under a tile, and nothing else.
    pub(crate) fn draw_at(&mut self, group: &Group, ink: Ink, y: u32, bits: &mut [u8])
        requires within { y < self.old.job.plan.page_height }
        requires tiled { is_diffused self.old.job.plan ink ≡ false }
        requires row { length bits.old ≡ row_size (plate_width self.old.job.plan) }
        ensures pages { DrawsPages self.old.job group.now ink y bits.new }
        ensures shown { self.new ≡ of_group group.now (y + 1) self.old }
    {
        clear(bits);
        self.show(group, y);
        self.draw(ink, y, bits);
    }

    /// Sets the pixels of an ink on a blank row of the plate that shows row `y` of the pages, their current
    /// row.
    fn draw(&self, ink: Ink, y: u32, bits: &mut [u8])
        requires shown { self.now.shown ≡ y + 1 }
        requires tiled { is_diffused self.now.job.plan ink ≡ false }
        requires blank { bits.old ≡ replicate (row_size (plate_width self.now.job.plan)) 0 }
        ensures { (row : ℕ) → page_row self.now.job.plan row ≡ Some y →
            ShowsPages self.now.job.plan self.now.job.files self.now.left self.now.right ink row bits.new }
    {
        match &self.screeners[ink.slot()] {
            Screener::Tile(tile) => {
                self.left.draw(tile, ink, y, bits);
                self.right.draw(tile, ink, y, bits);
            }
            Screener::Diffusion => unreachable!(),
        }
    }
}
