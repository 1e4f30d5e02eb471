// A feed that makes its next band when it is asked for a row.
ghost use Rattle.std.specs.Prelude.{◌≡◌, IfOk};
ghost use Rattle.std.specs.Thread.{IsSync};
ghost use Rattle.press_feed.specs.Feed.{FeedData, rows_left};

use crate::feed::Feed;
use crate::wanted::Wanted;
use pr_base::{NoMemory, RowFeed};
use pr_feed::PassingFeed;
use press_job::{BandFeed, Job};
use std::alloc::Global;
use std::marker::Model;
use std::thread::Threads;

/// Opens feeds and makes their bands.
///
/// Implementers define `may`, the condition under which bands may be made. It is kept here because neither a
/// struct nor a method of `RowFeed` can state that a value may be shared between threads.
pub trait BandMaker {
    ghost may: { Type 0 };

    /// Returns the feed of a job, with all its buffers. `wanted` says which rows are requested.
    fn open<'j>(
        &self,
        alloc: Global,
        job: &'j Job,
        wanted: Wanted<'j>,
    ) -> Result<Feed<'j>, NoMemory>
        ensures { IfOk result (λ feed. feed ≡ record { job = job.now; next = 0 }) };

    /// Makes the next rows of a feed, if none is ready.
    fn make(&self, feed: &mut Feed<'_>)
        requires { may }
        ensures { rows_left feed.new ≡ rows_left feed.old };
}

/// Makes bands in threads that this value permits.
#[derive(Drop)]
pub struct ByThreads<'t, T> {
    pub rt: &'t T,
}

impl<'t, T: Threads + Sync> BandMaker for ByThreads<'t, T> {
    ghost may = { IsSync T.row };

    fn open<'j>(
        &self,
        alloc: Global,
        job: &'j Job,
        wanted: Wanted<'j>,
    ) -> Result<Feed<'j>, NoMemory> {
        Feed::open_for(self.rt, alloc, job, wanted)
    }

    fn make(&self, feed: &mut Feed<'_>) {
        feed.make_band(self.rt);
    }
}

/// The rows of a job from the first on. When a row is requested and none is ready, the next band is made.
/// After it is opened, nothing is allocated and nothing fails. Contracts see what they see of a `Feed`.
#[derive(Drop)]
pub struct WideFeed<'m, 'j, M: BandMaker> {
    maker: &'m M,
    feed: Feed<'j>,
}

impl<'m, 'j, M: BandMaker> Model for WideFeed<'m, 'j, M> {
    ghost Value = { FeedData };

    ghost view = { λ wide. wide.feed };

    ghost invariant = { λ _. M.may };
}

impl<'m, 'j, M: BandMaker> WideFeed<'m, 'j, M> {
    /// Returns the feed of a job, with all its buffers.
    pub fn open(maker: &'m M, alloc: Global, job: &'j Job) -> Result<WideFeed<'m, 'j, M>, NoMemory>
        requires may { M.may }
        ensures { IfOk result (λ feed. feed ≡ record { job = job.now; next = 0 }) }
    {
        WideFeed::open_for(maker, alloc, job, Wanted::all())
    }

    /// The same where only some plates' rows are requested.
    pub fn open_for(
        maker: &'m M,
        alloc: Global,
        job: &'j Job,
        wanted: Wanted<'j>,
    ) -> Result<WideFeed<'m, 'j, M>, NoMemory>
        requires may { M.may }
        ensures { IfOk result (λ feed. feed ≡ record { job = job.now; next = 0 }) }
    {
        let feed = maker.open(alloc, job, wanted)?;
        Ok(WideFeed { maker, feed })
    }
}

impl<'m, 'j, M: BandMaker> RowFeed for WideFeed<'m, 'j, M> {
    ghost left = { rows_left };

    fn next(&mut self, row: &mut [u8]) {
        self.maker.make(&mut self.feed);
        self.feed.next(row);
    }
}

impl<'m, 'j, M: BandMaker> PassingFeed for WideFeed<'m, 'j, M> {
    fn pass(&mut self) {
        self.feed.pass();
    }
}
