// A band of frames of a plan that diffuses an ink. While threads pack the frames of one band, they draw the
// rows of the next: each thread has some inks of one side, whose rows it draws from the top of a page to
// its bottom.
ghost use Rattle.std.specs.Prelude.{All, ◌≡◌, ℕ, ◌*◌, ◌%◌, ◌<◌, ◌≤◌, IfOk, IfSome, IsTrue, Some, length, slice_get};
ghost use Rattle.std.specs.Prelude.{slice_index_or};
ghost use Rattle.std.specs.Option.{ForSome};
ghost use Rattle.plan_rows.specs.Groups.{groups_of};
ghost use Rattle.press_feed.specs.Band.{frame_bytes};
ghost use Rattle.press_feed.specs.Frames.{AreOf};
ghost use Rattle.press_feed.specs.SideBand.{AreRowsFor, AreRowsOf, IsKept, IsPartOf};
ghost use Rattle.press_feed.specs.SideRows.{SideRowsData};
ghost use Rattle.press_job.specs.Rows.{plate_frames};

use crate::band_part::BandPart;
use crate::band_rows::{BandRows, rows_after, rows_from};
use crate::drawn_rows::DrawnRows;
use crate::held_rows::BLOCK;
use crate::ink_shares::{inks_of_share, work_of};
use crate::pages::page_row;
use crate::row_maker::RowMaker;
use crate::side::Side;
use crate::wanted::Wanted;
use pr_base::{Ink, NoMemory};
use press_job::Job;
use std::alloc::Global;
use std::marker::Model;
use std::thread::{Threads, for_each_mut};

/// The largest number of frames of a band that one thread packs.
const MOST_FRAMES: usize = 1 << 16;

/// The frames of a band. Contracts see the job, and of how many rows of the pages a band has the frames.
/// Which frames are packed and which rows are drawn, each buffer states by itself.
#[derive(Drop)]
pub(crate) struct SideBand<'j> {
    job: &'j Job,
    wanted: Wanted<'j>,
    parts: Vec<BandPart<'j>>,
    threads: usize,
    height: u32,
    /// The rows drawn in the step before, of each side and ink.
    drawn: Vec<DrawnRows<'j>>,
    /// Which rows these are.
    ready: Option<BandRows>,
    /// The number of the first frame of the band, and how many frames each part packs.
    first: u64,
    each: usize,
}

impl<'j> Model for SideBand<'j> {
    ghost use Rattle.press_feed.specs.SideBand.{IsSideBand, SideBandData};

    ghost Value = { SideBandData };

    ghost view = { λ b. record { job = b.job.now; height = b.height } };

    ghost invariant = { λ b. IsSideBand b.job.now b.threads b.height b.each b.parts.items b.drawn.items };
}

impl<'j> SideBand<'j> {
    /// Allocates the buffers of a band of at most `height` rows of the pages for this many threads. No
    /// frame is packed.
    pub(crate) fn open(
        alloc: Global,
        job: &'j Job,
        wanted: Wanted<'j>,
        threads: usize,
        height: u32,
    ) -> Result<SideBand<'j>, NoMemory>
        requires threads { (1 ≤ threads) × (threads ≤ 8) }
        requires height { (height ≤ 1024) × (height % 8 ≡ 0) }
        ensures { IfOk result (λ band. band ≡ record { job = job.now; height = height }) }
    {
        let parts = open_parts(alloc, job, wanted, (threads / 2).max(1), height as usize)?;
        let drawn = open_rows(alloc, job, wanted, height as usize)?;
        Ok(SideBand {
            job,
            wanted,
            parts,
            threads,
            height,
            drawn,
            ready: None,
            first: 0,
            each: 1,
        })
    }

    /// Lends frame `n`, if it is packed.
    pub(crate) fn frame(&self, n: u64) -> Option<&[u8]>
        ensures frame { IfSome result (λ bytes.
            slice_get (plate_frames self.now.job.plan self.now.job.files) n ≡ Some bytes.now) }
        ensures len { IfSome result (λ bytes. length bytes.now ≡ frame_bytes self.now.job) }
    {
        let place = n.saturating_sub(self.first) as usize / self.each;
        if place >= self.parts.len() {
            return None;
        }
        self.parts[place].frame(n)
    }

    /// Copies frame `n`, if it is packed, and returns whether it was.
    pub(crate) fn copy(&self, n: u64, row: &mut [u8]) -> bool
        requires { length row.old ≡ frame_bytes self.now.job }
        ensures frame { IsTrue result →
            slice_get (plate_frames self.now.job.plan self.now.job.files) n ≡ Some row.new }
        ensures len { length row.new ≡ length row.old }
    {
        match self.frame(n) {
            Some(frame) => {
                row.copy_from_slice(frame);
                true
            }
            None => false,
        }
    }

    /// Makes the band with frame `n`, if the frame is wanted and not packed.
    pub(crate) fn make_wanted<T: Threads + Sync>(&mut self, rt: &T, maker: &RowMaker<'_>, n: u64)
        requires { self.old.job ≡ maker.now }
        ensures { self.new ≡ self.old }
    {
        if maker.is_wanted(n) && self.frame(n).is_none() {
            self.make(rt, n);
        }
    }

    /// Packs the frames from number `n` on, as far as the band has them, and draws the rows of the next
    /// band. A row above the pages or below them has no band.
    pub(crate) fn make<T: Threads + Sync>(&mut self, rt: &T, n: u64)
        requires { n < length (plate_frames self.old.job.plan self.old.job.files) }
        ensures { self.new ≡ self.old }
    {
        let place = self.job.rows().row_at(n);
        let Some(y) = page_row(self.job.plan(), self.job.shape(), place.y) else {
            return;
        };
        let rows = rows_from(self.job, self.height, place.group, y / BLOCK * BLOCK);
        if self.ready != Some(rows) {
            self.step(rt, n, 0, Some(rows));
        }
        let each = frames_each(self.job, rows, self.parts.len());
        let next = rows_after(self.job, self.height, self.wanted, rows);
        self.step(rt, n, each, next);
        self.first = n;
        self.each = each;
    }

    /// Packs frames from number `first` on, at most `each` in a part, as far as their rows were drawn in the
    /// step before, and draws the rows that come next.
    fn step<T: Threads + Sync>(&mut self, rt: &T, first: u64, each: usize, next: Option<BandRows>)
        requires first { first ≤ 2684313600 }
        requires each { each ≤ 65536 }
        requires next { ForSome next (AreRowsOf self.old.job self.old.height) }
        ensures { self.new ≡ self.old }
    {
        step_parts(
            rt,
            self.threads,
            first,
            each,
            &self.drawn,
            next,
            &mut self.parts,
        );
        self.exchange();
        self.ready = next;
    }

    /// Exchanges the rows of each part for those drawn in the step before.
    fn exchange(&mut self)
        ensures { self.new ≡ self.old }
    {
        for index in 0..self.parts.len() {
            self.exchange_part(index);
        }
    }

    /// The same for the part at an index.
    fn exchange_part(&mut self, index: usize)
        ensures { self.new ≡ self.old }
    {
        if index < self.parts.len() {
            self.parts[index].exchange(&mut self.drawn);
        }
    }
}

/// Lets each part of a band take a step, in parallel.
fn step_parts<T: Threads + Sync>(
    rt: &T,
    threads: usize,
    first: u64,
    each: usize,
    drawn: &[DrawnRows<'_>],
    next: Option<BandRows>,
    parts: &mut [BandPart<'_>],
)
    requires threads { 0 < threads }
    requires first { first ≤ 2684313600 }
    requires each { each ≤ 65536 }
    requires most { length parts.old ≤ 65536 }
    requires drawn { (k : ℕ) (d : SideRowsData) → k < length parts.old →
        AreOf (slice_index_or parts.old k d).job drawn.now }
    requires next { (k : ℕ) (d : SideRowsData) → k < length parts.old →
        ForSome next (AreRowsFor (slice_index_or parts.old k d)) }
    ensures { (k : ℕ) (d : SideRowsData) → k < length parts.old →
        IsKept (slice_index_or parts.old k d) (slice_index_or parts.new k d) }
{
    for_each_mut(
        rt,
        parts,
        threads,
        &|k: usize, part: &mut BandPart<'_>|
            requires few { (k < 65536) × (each ≤ 65536) × (first ≤ 2684313600) }
            requires drawn { AreOf part.now.job drawn.now }
            requires next { ForSome next (AreRowsFor part.now) }
            ensures kept { IsKept part.entry.now part.exit.now }
        { part.step(first + (k * each) as u64, each, drawn, next) },
    );
}

/// How many frames of a band each of its parts packs.
fn frames_each(job: &Job, rows: BandRows, parts: usize) -> usize
    requires { rows.group < length (groups_of job.now.plan) }
    ensures { (1 ≤ result) × (result ≤ 65536) }
{
    let inks = job.rows().group(rows.group).inks();
    let frames = (rows.count as usize).saturating_mul(inks.len());
    frames.div_ceil(parts.max(1)).clamp(1, MOST_FRAMES)
}

/// Allocates the parts of a band: `shares` of them for each side.
fn open_parts<'j>(
    alloc: Global,
    job: &'j Job,
    wanted: Wanted<'j>,
    shares: usize,
    height: usize,
) -> Result<Vec<BandPart<'j>>, NoMemory>
    requires shares { (1 ≤ shares) × (shares ≤ 8) }
    requires height { height ≤ 1024 }
    ensures parts { IfOk result (λ parts. All (IsPartOf job.now height) parts.items) }
    ensures few { IfOk result (λ parts. length parts.items ≤ 65536) }
{
    let count = 2 * shares;
    let frames = (5 * height).div_ceil(count).min(MOST_FRAMES);
    let mut parts = Vec::with_capacity(alloc, count)?;
    for part in 0..count {
        let inks = inks_of_share(job, wanted, part / 2, shares);
        parts.push(BandPart::open(alloc, job, side_of(part), inks, height, frames)?)?;
    }
    Ok(parts)
}

/// The side of a part, by its index.
fn side_of(part: usize) -> Side {
    if part % 2 == 0 {
        Side::Left
    } else {
        Side::Right
    }
}

/// Allocates the rows of both sides in each ink that is drawn, which the parts exchange for theirs.
fn open_rows<'j>(
    alloc: Global,
    job: &'j Job,
    wanted: Wanted<'j>,
    height: usize,
) -> Result<Vec<DrawnRows<'j>>, NoMemory>
    requires { height ≤ 65536 }
    ensures { IfOk result (λ rows. AreOf job.now rows.items) }
{
    let mut rows = Vec::with_capacity(alloc, 10)?;
    for index in 0..10_usize {
        let ink = Ink::ALL[index / 2];
        if work_of(job, wanted, ink) > 0 {
            rows.push(DrawnRows::open(alloc, job, side_of(index), ink, height)?)?;
        }
    }
    Ok(rows)
}
