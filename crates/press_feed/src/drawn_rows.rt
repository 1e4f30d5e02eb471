// Rows of a page in one ink, drawn as bytes of the plate's rows.
ghost use Rattle.std.specs.Prelude.{◌≡◌, ◌+◌, ◌-◌, ◌*◌, ◌<◌, ◌≤◌, IfOk, IsTrue, ◌↔◌, length};
ghost use Rattle.std.specs.Prelude.{slice_index, true};
ghost use Rattle.pr_base.specs.Bits.{SetsBits};
ghost use Rattle.press_feed.specs.Drawn.{HasRow, HasTaken, IsClearBeside, IsLike, ShowsRowOf, before_row};
ghost use Rattle.press_feed.specs.Drawn.{behind_rows, blank_rows, side_bit, side_byte};
ghost use Rattle.press_feed.specs.Screener.{IsScreener, is_diffused};
ghost use Rattle.press_feed.specs.declared.screener.Screener.TheVariants.{Tile};
ghost use Rattle.press_job.specs.Printing.{page_bit, printed_row};
ghost use Rattle.scr_tile.specs.AnyTile.{threshold_of};
ghost use Rattle.scr_tile.specs.Tile.{tile_bit};

use crate::byte_row::{ByteRow, byte_rows};
use crate::chain::Chain;
use crate::held_rows::HeldRows;
use crate::side::Side;
use pr_base::{Ink, NoMemory, row_bytes};
use press_job::Job;
use scr_tile::{AnyTile, screen_row};
use std::alloc::Global;
use std::marker::Model;

/// Consecutive rows of a page of one side, drawn in one ink at the side's place on the plate. Contracts see
/// which rows these are, and for how many there is room. So a buffer may go from one thread to another, and
/// a row is used only where it belongs.
#[derive(Drop)]
pub(crate) struct DrawnRows<'j> {
    job: &'j Job,
    side: Side,
    ink: Ink,
    page: usize,
    first: u32,
    count: u32,
    rows: Vec<ByteRow>,
}

impl<'j> Model for DrawnRows<'j> {
    ghost use Rattle.std.specs.Prelude.{length};
    ghost use Rattle.press_feed.specs.Drawn.{AreDrawn, DrawnData};

    ghost Value = { DrawnData };

    ghost view = { λ d. record {
      job = d.job.now;
      side = d.side;
      ink = d.ink;
      page = d.page;
      first = d.first;
      count = d.count;
      room = length d.rows.items;
    } };

    ghost invariant = { λ d. AreDrawn d.job.now d.side d.page d.ink d.first d.count d.rows.items };
}

impl<'j> DrawnRows<'j> {
    /// Allocates room for `room` rows. None is drawn.
    pub(crate) fn open(
        alloc: Global,
        job: &'j Job,
        side: Side,
        ink: Ink,
        room: usize,
    ) -> Result<DrawnRows<'j>, NoMemory>
        requires { room ≤ 65536 }
        ensures { IfOk result (λ drawn. drawn ≡ blank_rows job.now side room ink) }
    {
        let len = row_bytes(bit_of(job, side) + job.plan().page_width);
        let rows = byte_rows(alloc, room, len)?;
        Ok(DrawnRows {
            job,
            side,
            ink,
            page: 0,
            first: 0,
            count: 0,
            rows,
        })
    }

    /// Drops all rows. The next one will be row `first` of a page.
    pub(crate) fn begin(&mut self, page: usize, first: u32)
        ensures { self.new ≡ before_row page first self.old }
    {
        self.page = page;
        self.first = first;
        self.count = 0;
    }

    /// Draws the rows held, the next ones, under the tile of the ink.
    pub(crate) fn tile(&mut self, tile: &AnyTile, held: &HeldRows<'_>)
        requires tile { IsScreener self.old.job.plan self.old.ink (Tile tile.now) }
        requires job { held.now.job ≡ self.old.job }
        requires page { held.now.page ≡ self.old.page }
        requires next { held.now.first ≡ self.old.first + self.old.count }
        requires room { self.old.count + held.now.count ≤ self.old.room }
        ensures { self.new ≡ behind_rows held.now.count self.old }
    {
        for k in 0..held.count() {
            let values = held.values(k as usize, self.ink);
            self.tile_row(tile, held.number(k), values);
        }
    }

    /// Draws the next row, with these values.
    fn tile_row(&mut self, tile: &AnyTile, y: u32, values: &[u8])
        requires tile { IsScreener self.old.job.plan self.old.ink (Tile tile.now) }
        requires next { y ≡ self.old.first + self.old.count }
        requires width { length values.now ≡ self.old.job.plan.page_width }
        requires values { values.now
            ≡ printed_row self.old.job.plan self.old.job.files self.old.page self.old.ink y }
        requires room { self.old.count < self.old.room }
        ensures { self.new ≡ behind_rows 1 self.old }
    {
        let from = bit_of(self.job, self.side);
        self.rows[self.count as usize].tile_page(tile, y, values, from);
        self.count += 1;
    }

    /// Draws `count` of the eight rows that a chain took last, the next ones.
    pub(crate) fn diffuse(&mut self, chain: &Chain<'_>, count: u32)
        requires eight { count ≤ 8 }
        requires diffused { is_diffused self.old.job.plan self.old.ink ≡ true }
        requires taken { HasTaken self.old 0 chain.now }
        requires within { self.old.first + self.old.count + count ≤ self.old.job.plan.page_height }
        requires room { self.old.count + count ≤ self.old.room }
        ensures { self.new ≡ behind_rows count self.old }
    {
        for k in 0..count {
            self.diffuse_row(chain, k as usize);
        }
    }

    /// Draws the next row, one of the last eight of a chain.
    fn diffuse_row(&mut self, chain: &Chain<'_>, k: usize)
        requires eight { k < 8 }
        requires diffused { is_diffused self.old.job.plan self.old.ink ≡ true }
        requires taken { HasTaken self.old k chain.now }
        requires within { self.old.first + self.old.count < self.old.job.plan.page_height }
        requires room { self.old.count < self.old.room }
        ensures { self.new ≡ behind_rows 1 self.old }
    {
        let from = bit_of(self.job, self.side);
        self.rows[self.count as usize].diffuse_page(chain, k, from);
        self.count += 1;
    }

    /// Whether row `y` of a page is drawn.
    pub(crate) fn has(&self, page: usize, y: u32) -> bool
        ensures { IsTrue result ↔ HasRow self.now page y }
    {
        self.page == page && self.first <= y && y - self.first < self.count
    }

    /// Lends row `y`, which is drawn.
    pub(crate) fn row(&self, y: u32) -> &[u8]
        requires { HasRow self.now self.now.page y }
        ensures shows { ShowsRowOf self.now.job self.now.side self.now.page self.now.ink y result.now }
        ensures clear { IsClearBeside self.now.job.plan self.now.side result.now }
    {
        self.rows[(y - self.first) as usize].bytes()
    }

    /// Whether other rows are of the same side and ink, in as much room.
    pub(crate) fn is_like(&self, other: &DrawnRows<'_>) -> bool
        ensures { IsTrue result → other.now.job ≡ self.now.job → IsLike self.now other.now }
    {
        self.side == other.side && self.ink == other.ink && self.rows.len() == other.rows.len()
    }

    /// The side.
    pub(crate) fn side(&self) -> Side
        ensures { result ≡ self.now.side }
    {
        self.side
    }

    /// The ink.
    pub(crate) fn ink(&self) -> Ink
        ensures { result ≡ self.now.ink }
    {
        self.ink
    }
}

impl ByteRow {
    /// Sets the pixels from `from` on to those of row `y` of a page under a tile.
    fn tile_page(&mut self, tile: &AnyTile, y: u32, values: &[u8], from: u32)
        requires { from + length values.now ≤ 8 * length self.old }
        ensures bits { SetsBits (λ x. tile_bit (slice_index values.now x) (threshold_of tile.now x y))
            from (length values.now) self.old self.new }
        ensures long { length self.new ≡ length self.old }
    {
        screen_row(tile, y, values, &mut self.bytes, from);
    }

    /// Sets the pixels from `from` on to those of one of the last eight rows of a chain.
    fn diffuse_page(&mut self, chain: &Chain<'_>, k: usize, from: u32)
        requires eight { k < 8 }
        requires taken { 8 ≤ chain.now.count }
        requires within { chain.now.count - 8 + k < chain.now.job.plan.page_height }
        requires diffused { is_diffused chain.now.job.plan chain.now.ink ≡ true }
        requires room { from + chain.now.job.plan.page_width ≤ 8 * length self.old }
        ensures bits { SetsBits (λ x. page_bit chain.now.job.plan chain.now.job.files chain.now.page
            chain.now.ink x (chain.now.count - 8 + k))
            from chain.now.job.plan.page_width self.old self.new }
        ensures long { length self.new ≡ length self.old }
    {
        chain.draw(k, &mut self.bytes, from);
    }
}

/// The bit of the first pixel of a side's pages in the first byte that they cover.
fn bit_of(job: &Job, side: Side) -> u32
    ensures { result ≡ side_bit job.now.plan side }
{
    side.left_edge(job) % 8
}

/// The first byte of a plate's row that a side's pages cover.
pub(crate) fn byte_of(job: &Job, side: Side) -> usize
    ensures { result ≡ side_byte job.now.plan side }
{
    (side.left_edge(job) / 8) as usize
}
