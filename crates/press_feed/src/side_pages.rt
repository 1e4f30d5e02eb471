// The pages on one side of the plates, each read row by row.
ghost use Rattle.std.specs.Prelude.{◌≡◌, ℕ, ◌+◌, ◌*◌, ◌<◌, ◌≤◌, IfOk, length};
ghost use Rattle.pr_base.specs.Bits.{SetsBits};
ghost use Rattle.plan_rows.specs.Groups.{page_colour, page_spot};
ghost use Rattle.press_job.specs.Layers.{layers_of, planned_layers};
ghost use Rattle.press_job.specs.Printing.{page_bit};
ghost use Rattle.press_feed.specs.Screener.{IsScreener};
ghost use Rattle.press_feed.specs.Sides.{left_edge, page_before};
ghost use Rattle.press_feed.specs.declared.screener.Screener.TheVariants.{Tile};

use crate::side::Side;
use page_layers::PageRows;
use plan_json::Plan;
use pr_base::{Ink, NoMemory};
use press_job::{Job, PrintedRow, Tones, most_layers, put_layers};
use scr_tile::{AnyTile, screen_row};
use std::alloc::Global;
use std::marker::Model;

/// The pages of one side. One of them is read row by row, in buffers large enough for any; a row is painted
/// and toned once for all its inks. Contracts see the job, the side, the current page, and how many of its
/// rows were made.
#[derive(Drop)]
pub(crate) struct SidePages<'j> {
    job: &'j Job,
    side: Side,
    /// The current page.
    page_rows: PageRows<'j>,
    page: usize,
    shown: u32,
    tones: Tones<'j>,
    row: PrintedRow,
}

impl<'j> Model for SidePages<'j> {
    ghost use Rattle.press_feed.specs.Sides.{SideData};

    ghost Value = { SideData };

    ghost use Rattle.press_feed.specs.SidePages.{IsSide};

    ghost view = { λ s. record {
      plan = s.job.now.plan;
      files = s.job.now.files;
      side = s.side;
      page = s.page;
      shown = s.shown;
    } };

    ghost invariant = { λ s.
        IsSide s.job.now s.page_rows s.page s.shown s.tones s.row };
}

impl<'j> SidePages<'j> {
    ghost use Rattle.press_feed.specs.Sides.{at_top, behind_row};
    ghost use Rattle.press_feed.specs.SidePages.{opened_side};

    /// Allocates the buffers of the pages. The first page of the plan is current until another one is
    /// entered.
    pub(crate) fn open(alloc: Global, job: &'j Job, side: Side) -> Result<SidePages<'j>, NoMemory>
        ensures { IfOk result (λ pages. pages ≡ opened_side job.now side) }
    {
        let plan = job.plan();
        let page_rows = open_page(alloc, job)?;
        let tones = Tones::of(alloc, plan)?;
        let row = PrintedRow::new(alloc, plan)?;
        Ok(SidePages {
            job,
            side,
            page_rows,
            page: 0,
            shown: 0,
            tones,
            row,
        })
    }

    /// Moves to the top of a page.
    pub(crate) fn begin(&mut self, page: usize)
        ensures { self.new ≡ at_top page self.old }
    {
        turn_to(self.job, self.page, page, &mut self.page_rows);
        self.page = page;
        self.shown = 0;
    }

    /// The index of the current page.
    pub(crate) fn page(&self) -> usize
        ensures { result ≡ self.now.page }
    {
        self.page
    }

    /// The number of rows of the current page that were made.
    pub(crate) fn shown(&self) -> u32
        ensures { result ≡ self.now.shown }
    {
        self.shown
    }

    /// Sets the pixels under a tile, that of an ink, of row `y` of the page, the row made last, at the page's
    /// position on the plate.
    pub(crate) fn draw(&self, tile: &AnyTile, ink: Ink, y: u32, bits: &mut [u8])
        requires shown { self.now.shown ≡ y + 1 }
        requires tile { IsScreener self.now.plan ink (Tile tile.now) }
        requires room { left_edge self.now.plan self.now.side + self.now.plan.page_width
            ≤ 8 * length bits.old }
        ensures { SetsBits (λ x. page_bit self.now.plan self.now.files self.now.page ink x y)
            (left_edge self.now.plan self.now.side) self.now.plan.page_width bits.old bits.new }
    {
        let from = self.side.left_edge(self.job);
        screen_row(tile, y, self.row.values(ink), bits, from);
    }

    /// Makes the next row of the page.
    fn show(&mut self)
        requires { self.old.shown < self.old.plan.page_height }
        ensures { self.new ≡ record self.old { shown = self.old.shown + 1 } }
    {
        let (colour, spot) = inks_of(self.job.plan(), self.page);
        self.row
            .advance(&mut self.page_rows, &self.tones, colour, spot);
        self.shown += 1;
    }

    /// Makes row `y` of the page, which is still to come. Skips the rows above.
    pub(crate) fn show_at(&mut self, y: u32)
        requires next { self.old.shown ≤ y }
        requires within { y < self.old.plan.page_height }
        ensures { self.new ≡ behind_row y self.old }
    {
        if self.shown == y {
            self.show();
        } else {
            self.show_below(y);
        }
    }

    /// The same if rows above are still to come, so that the row is painted whatever row was made last.
    fn show_below(&mut self, y: u32)
        requires next { self.old.shown ≤ y }
        requires within { y < self.old.plan.page_height }
        ensures { self.new ≡ behind_row y self.old }
    {
        let (colour, spot) = inks_of(self.job.plan(), self.page);
        pass_rows(y - self.shown, &mut self.page_rows);
        self.row
            .paint(&mut self.page_rows, &self.tones, colour, spot);
        self.shown = y + 1;
    }
}

/// Skips this many rows of a page.
fn pass_rows(count: u32, rows: &mut PageRows<'_>)
    requires { rows.old.next + count ≤ rows.old.height }
    ensures { rows.new ≡ record rows.old { next = rows.old.next + count } }
{
    for _row in 0..count {
        rows.pass();
    }
}

/// Returns the first page of the plan, in buffers for the page with the most layers.
pub(crate) fn open_page<'j>(alloc: Global, job: &'j Job) -> Result<PageRows<'j>, NoMemory>
    ensures page { IfOk result (λ rows. rows ≡ page_before job.now.plan job.now.files rows.room 0 0) }
    ensures room { IfOk result
        (λ rows. (page : ℕ) → length (planned_layers job.now.plan page) ≤ rows.room) }
{
    let plan = job.plan();
    let mut rows = PageRows::open(alloc, most_layers(job), plan.page_width, plan.page_height)?;
    put_layers(job, 0, &mut rows);
    Ok(rows)
}

/// Moves from one page of the plan to row 0 of another, or of the same. Images are not tested again.
pub(crate) fn turn_to<'j>(job: &'j Job, from: usize, page: usize, rows: &mut PageRows<'j>)
    requires from { rows.old.layers ≡ layers_of job.now.plan job.now.files from }
    requires room { length (planned_layers job.now.plan page) ≤ rows.old.room }
    ensures { rows.new
        ≡ record rows.old { layers = layers_of job.now.plan job.now.files page; next = 0 } }
{
    if page == from {
        rows.restart();
    } else {
        put_layers(job, page, rows);
    }
}

/// Whether a page prints C, M and Y, and whether it prints S.
pub(crate) fn inks_of(plan: &Plan, page: usize) -> (bool, bool)
    ensures colour { result.0 ≡ page_colour plan.now page }
    ensures spot { result.1 ≡ page_spot plan.now page }
{
    match plan.pages.get(page) {
        Some(page) => (page.colour, page.spot),
        None => (false, false),
    }
}
