// Up to eight consecutive rows of a page, as they are printed.
ghost use Rattle.std.specs.Prelude.{All, ◌≡◌, ◌+◌, ◌<◌, ◌≤◌, IfOk, IsTrue, ◌↔◌, length};
ghost use Rattle.page_layers.specs.Inks.{HasWidth};
ghost use Rattle.press_feed.specs.HeldRows.{next_rows, top_of};
ghost use Rattle.press_job.specs.Printing.{printed_row};

use crate::side_pages::{inks_of, open_page, turn_to};
use page_layers::PageRows;
use plan_json::Plan;
use pr_base::{Ink, NoMemory};
use press_job::{Job, PrintedRow, Tones};
use std::alloc::Global;
use std::marker::Model;

/// The most rows that are held.
pub(crate) const BLOCK: u32 = 8;

/// Consecutive rows of one page after the other, in buffers large enough for any page. A row is painted and
/// toned once for all its inks, and one that repeats the row above it in the same block shares that row's
/// values. Contracts see the job, the page, and which of its rows are held.
#[derive(Drop)]
pub(crate) struct HeldRows<'j> {
    job: &'j Job,
    /// The current page, before the row after those that are held.
    page_rows: PageRows<'j>,
    page: usize,
    tones: Tones<'j>,
    /// The values of eight rows.
    rows: Vec<PrintedRow>,
    /// Where in `rows` the values of each row held are.
    places: [usize; 8],
    first: u32,
    count: u32,
}

impl<'j> Model for HeldRows<'j> {
    ghost use Rattle.press_feed.specs.HeldRows.{AreHeldRows, HeldData};

    ghost Value = { HeldData };

    ghost view = { λ h. record {
      job = h.job.now;
      page = h.page;
      first = h.first;
      count = h.count;
    } };

    ghost invariant = { λ h.
        AreHeldRows h.job.now h.page_rows h.page h.first h.count h.tones h.rows.items h.places };
}

impl<'j> HeldRows<'j> {
    /// Allocates the buffers. The first page of the plan is current until another one is entered. No row is
    /// held.
    pub(crate) fn open(alloc: Global, job: &'j Job) -> Result<HeldRows<'j>, NoMemory>
        ensures { IfOk result (λ held. held ≡ record { job = job.now; page = 0; first = 0; count = 0 }) }
    {
        let plan = job.plan();
        let rows = printed_rows(alloc, plan)?;
        let tones = Tones::of(alloc, plan)?;
        let page_rows = open_page(alloc, job)?;
        Ok(HeldRows {
            job,
            page_rows,
            page: 0,
            tones,
            rows,
            places: [0; 8],
            first: 0,
            count: 0,
        })
    }

    /// Moves to the top of a page. No row is held.
    pub(crate) fn begin(&mut self, page: usize)
        ensures { self.new ≡ top_of page self.old }
    {
        turn_to(self.job, self.page, page, &mut self.page_rows);
        self.page = page;
        self.first = 0;
        self.count = 0;
    }

    /// Makes the next `count` rows of the page, which are held from then on in place of those before them.
    pub(crate) fn show(&mut self, count: u32)
        requires eight { count ≤ 8 }
        requires within { self.old.first + self.old.count + count ≤ self.old.job.plan.page_height }
        ensures { self.new ≡ next_rows count self.old }
    {
        self.forget();
        for _row in 0..count {
            self.show_next();
        }
    }

    /// Holds none of the rows made so far.
    fn forget(&mut self)
        ensures { self.new ≡ next_rows 0 self.old }
    {
        self.first += self.count;
        self.count = 0;
    }

    /// Makes the next row of the page, and holds it behind those that are held.
    fn show_next(&mut self)
        requires eight { self.old.count < 8 }
        requires within { self.old.first + self.old.count < self.old.job.plan.page_height }
        ensures { self.new ≡ record self.old { count = self.old.count + 1 } }
    {
        let k = self.count as usize;
        if k > 0 && self.page_rows.repeats() {
            self.places[k] = self.places[k - 1];
            self.page_rows.pass();
            self.count += 1;
            return;
        }
        let (colour, spot) = inks_of(self.job.plan(), self.page);
        self.places[k] = k;
        self.rows[k].paint(&mut self.page_rows, &self.tones, colour, spot);
        self.count += 1;
    }

    /// The index of the current page.
    pub(crate) fn page(&self) -> usize
        ensures { result ≡ self.now.page }
    {
        self.page
    }

    /// The number of the row after those held.
    pub(crate) fn next(&self) -> u32
        ensures { result ≡ self.now.first + self.now.count }
    {
        self.first + self.count
    }

    /// The number of rows held.
    pub(crate) fn count(&self) -> u32
        ensures count { result ≡ self.now.count }
        ensures few { result ≤ 8 }
        ensures within { self.now.first + result ≤ self.now.job.plan.page_height }
    {
        self.count
    }

    /// The number on its page of the row at an index of those held.
    pub(crate) fn number(&self, k: u32) -> u32
        requires { k < self.now.count }
        ensures number { result ≡ self.now.first + k }
        ensures within { result < self.now.job.plan.page_height }
    {
        self.first + k
    }

    /// Lends the values of the row at an index of those held, one for each pixel. At a further index they are
    /// any values.
    pub(crate) fn values(&self, k: usize, ink: Ink) -> &[u8]
        requires { k < 8 }
        ensures wide { length result.now ≡ self.now.job.plan.page_width }
        ensures shows { k < self.now.count → result.now
            ≡ printed_row self.now.job.plan self.now.job.files self.now.page ink (self.now.first + k) }
    {
        let place = self.places[k];
        self.rows[place].values(ink)
    }
}

/// Allocates the values of eight rows.
fn printed_rows(alloc: Global, plan: &Plan) -> Result<Vec<PrintedRow>, NoMemory>
    ensures count { IfOk result (λ rows. length rows.items ≡ 8) }
    ensures wide { IfOk result (λ rows. All (λ row. HasWidth row plan.now.page_width) rows.items) }
{
    let mut rows = Vec::with_capacity(alloc, 8)?;
    for _row in 0..8_usize {
        rows.push(PrintedRow::new(alloc, plan)?)?;
    }
    Ok(rows)
}
