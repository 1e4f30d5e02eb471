// The rows of a job in order.
ghost use Rattle.std.specs.Prelude.{◌≡◌, ◌%◌, ◌<◌, ◌≤◌, IfOk, IsTrue, Some, length, slice_get};
ghost use Rattle.std.specs.Option.{ForSome};
ghost use Rattle.press_feed.specs.Band.{frame_bytes};
ghost use Rattle.press_job.specs.Rows.{plate_frames};
ghost use Rattle.press_job.specs.Job.{JobData};

use crate::band::Band;
use crate::row_maker::RowMaker;
use crate::side_band::SideBand;
use crate::wanted::Wanted;
use pr_base::{Deal, NoMemory, RowFeed};
use pr_feed::PassingFeed;
use press_job::{BandFeed, Job};
use std::alloc::Global;
use std::marker::Model;
use std::thread::{Threads, available_parallelism};

/// The largest number of threads that make a band.
const MOST_THREADS: usize = 8;

/// The approximate size in bytes of the frames that one thread makes of a band.
const SHARE_BYTES: usize = 1 << 22;

/// The approximate size in bytes of the rows of the pages that are drawn for a band if an ink is diffused.
const ROWS_BYTES: usize = 24 << 20;

/// The size in bytes of all frames of a job below which a second thread does not pay.
const FEW_BYTES: u64 = 1 << 20;

/// The rows of a job from the first on, each made when it is requested, or ahead of that in a band. It never
/// holds a whole page. After it is opened, nothing is allocated and nothing fails. Contracts see the job and
/// the number of the next row.
#[derive(Drop)]
pub struct Feed<'j> {
    job: &'j Job,
    maker: RowMaker<'j>,
    band: Band<'j>,
    /// The bands if an ink is diffused. Then `band` is empty.
    wide: Option<SideBand<'j>>,
    next: u64,
}

impl<'j> Model for Feed<'j> {
    ghost use Rattle.press_feed.specs.Feed.{FeedData};

    ghost Value = { FeedData };

    ghost use Rattle.press_feed.specs.Feed.{IsFeed};

    ghost view = { λ f. record { job = f.job.now; next = f.next } };

    ghost invariant = { λ f. IsFeed f.job.now f.maker f.band f.wide f.next };
}

impl<'j> Feed<'j> {
    /// Returns the feed of a job, with all its buffers. Rows are made in the thread that requests them.
    pub fn open(alloc: Global, job: &'j Job) -> Result<Feed<'j>, NoMemory>
        ensures { IfOk result (λ feed. feed ≡ record { job = job.now; next = 0 }) }
    {
        Feed::with_threads(alloc, job, Wanted::all(), 0, 8)
    }

    /// The same with bands, made by one thread per processor, at most eight. No bands are used on one
    /// processor, or if all rows together have few bytes.
    pub fn open_wide<T: Threads>(rt: &T, alloc: Global, job: &'j Job) -> Result<Feed<'j>, NoMemory>
        ensures { IfOk result (λ feed. feed ≡ record { job = job.now; next = 0 }) }
    {
        Feed::open_for(rt, alloc, job, Wanted::all())
    }

    /// The same where only some plates' rows are requested: the bands have no other rows.
    pub fn open_for<T: Threads>(
        rt: &T,
        alloc: Global,
        job: &'j Job,
        wanted: Wanted<'j>,
    ) -> Result<Feed<'j>, NoMemory>
        ensures { IfOk result (λ feed. feed ≡ record { job = job.now; next = 0 }) }
    {
        Feed::with_threads(alloc, job, wanted, threads_for(rt, job), height_of(job))
    }

    /// The same with bands made by this many threads. If an ink is diffused, a band has the frames of at most
    /// `height` rows of the pages.
    pub fn with_threads(
        alloc: Global,
        job: &'j Job,
        wanted: Wanted<'j>,
        threads: usize,
        height: u32,
    ) -> Result<Feed<'j>, NoMemory>
        requires threads { threads ≤ 8 }
        requires height { (height ≤ 1024) × (height % 8 ≡ 0) }
        ensures { IfOk result (λ feed. feed ≡ record { job = job.now; next = 0 }) }
    {
        let by_sides = if diffuses(job, wanted) { threads } else { 0 };
        let band = Band::open(alloc, job, wanted, threads - by_sides, share_len(job))?;
        let wide = open_sides(alloc, job, wanted, by_sides, height)?;
        let maker = RowMaker::open(alloc, job, wanted)?;
        Ok(Feed {
            job,
            maker,
            band,
            wide,
            next: 0,
        })
    }
}

impl<'j> RowFeed for Feed<'j> {
    ghost use Rattle.press_feed.specs.Feed.{rows_left};

    ghost left = { rows_left };

    fn next(&mut self, row: &mut [u8]) {
        make_row(&mut self.maker, &self.band, &self.wide, self.next, row);
        self.next += 1;
    }
}

impl<'j> PassingFeed for Feed<'j> {
    fn pass(&mut self) {
        self.next += 1;
    }
}

impl<'j> BandFeed for Feed<'j> {
    fn make_band<T: Threads + Sync>(&mut self, rt: &T) {
        if !self.band.has(self.next) && self.next < self.maker.total() {
            self.band.make(rt, self.next);
        }
        make_sides(rt, &self.maker, self.next, &mut self.wide);
    }
}

/// Makes the band with frame `n`, if an ink is diffused and the frame is wanted and not packed.
fn make_sides<T: Threads + Sync>(
    rt: &T,
    maker: &RowMaker<'_>,
    n: u64,
    wide: &mut Option<SideBand<'_>>,
)
    requires { ForSome wide.old (λ w. w.job ≡ maker.now) }
    ensures { wide.new ≡ wide.old }
{
    if let Some(wide) = wide {
        wide.make_wanted(rt, maker, n);
    }
}

/// Makes frame `n`, or copies it from a band.
fn make_row(
    maker: &mut RowMaker<'_>,
    band: &Band<'_>,
    wide: &Option<SideBand<'_>>,
    n: u64,
    row: &mut [u8],
)
    requires job { band.now.job ≡ maker.old }
    requires wide { ForSome wide.now (λ w. w.job ≡ maker.old) }
    requires n { n < length (plate_frames maker.old.plan maker.old.files) }
    requires row { length row.old ≡ frame_bytes maker.old }
    ensures frame { slice_get (plate_frames maker.old.plan maker.old.files) n ≡ Some row.new }
    ensures maker { maker.new ≡ maker.old }
{
    if !band.copy(n, row) && !copy_packed(wide, n, row) {
        maker.make(n, row);
    }
}

/// Copies frame `n`, if it is packed, and returns whether it was.
fn copy_packed(wide: &Option<SideBand<'_>>, n: u64, row: &mut [u8]) -> bool
    requires { ForSome wide.now (λ w. length row.old ≡ frame_bytes w.job) }
    ensures frame { (job : JobData) → ForSome wide.now (λ w. w.job ≡ job) → IsTrue result →
        slice_get (plate_frames job.plan job.files) n ≡ Some row.new }
    ensures len { length row.new ≡ length row.old }
{
    match wide {
        Some(wide) => wide.copy(n, row),
        None => false,
    }
}

/// Returns the number of threads that make the bands of a job: none if making each row on request is as fast,
/// as on one processor.
fn threads_for<T: Threads>(rt: &T, job: &Job) -> usize
    ensures { result ≤ 8 }
{
    let bytes = job.total().saturating_mul(job.row_len() as u64);
    if bytes < FEW_BYTES {
        return 0;
    }
    match available_parallelism(rt) {
        Ok(processors) if processors.get() > 1 => processors.get().min(MOST_THREADS),
        _ => 0,
    }
}

/// Returns the bands of a job that diffuses an ink, made by this many threads, or none without threads.
fn open_sides<'j>(
    alloc: Global,
    job: &'j Job,
    wanted: Wanted<'j>,
    threads: usize,
    height: u32,
) -> Result<Option<SideBand<'j>>, NoMemory>
    requires threads { threads ≤ 8 }
    requires height { (height ≤ 1024) × (height % 8 ≡ 0) }
    ensures { IfOk result (λ wide. ForSome wide (λ w. w.job ≡ job.now)) }
{
    if threads == 0 {
        return Ok(None);
    }
    let wide = SideBand::open(alloc, job, wanted, threads, height)?;
    Ok(Some(wide))
}

/// Whether rows of a job are diffused if only some plates' rows are requested.
fn diffuses(job: &Job, wanted: Wanted<'_>) -> bool {
    let rows = job.rows();
    (0..rows.group_count()).any(|index| wanted.diffuses(job.plan(), index, rows.group(index)))
}

/// The number of frames that one thread makes of a band: a multiple of 20, so that it covers whole rows of
/// the pages in 1, 2, 4 or 5 inks.
fn share_len(job: &Job) -> usize
    ensures { (1 ≤ result) × (result ≤ 65536) }
{
    let lines = SHARE_BYTES / job.row_len().max(1) / 20;
    lines.clamp(1, 100) * 20
}

/// The largest number of rows of the pages of which a band has the frames if an ink is diffused: whole
/// blocks of eight. There are two buffers for the rows of a side in each ink, each with half a row of a
/// plate.
fn height_of(job: &Job) -> u32
    ensures { (result ≤ 1024) × (result % 8 ≡ 0) }
{
    let blocks = (ROWS_BYTES / job.row_len().max(1) / 80).clamp(1, 128) as u32;
    8 * blocks.min(job.plan().page_height.div_ceil(8))
}
