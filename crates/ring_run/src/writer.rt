// The writer of a run, and its turn, in which bands of rows are made.
ghost use Rattle.std.specs.Thread.{IsSync};

use pr_base::Deal;
use press_job::BandFeed;
use ring_lanes::Writer;
use ring_turns::{Ahead, TurnWith, feed_ahead};
use std::thread::Threads;

/// Makes the next rows of a feed in parallel whenever none is ready, in threads that this value permits.
#[derive(Drop)]
pub(crate) struct Bands<'t, T> {
    pub(crate) rt: &'t T,
}

impl<'t, T: Threads + Sync, F: BandFeed> Ahead<F> for Bands<'t, T> {
    ghost may = { IsSync T.row };

    fn make(&self, feed: &mut F) {
        feed.make_band(self.rt);
    }
}

/// The writer of a run, together with the feed of its rows and the maker of the feed's bands.
#[derive(Drop)]
pub(crate) struct RunWriter<'t, 'f, 'r, T, F, D: Deal> {
    pub(crate) bands: Bands<'t, T>,
    pub(crate) feed: &'f mut F,
    pub(crate) end: Writer<'r, D>,
}

impl<'t, 'f, 'r, T: Threads + Sync, F: BandFeed, D: Deal, Y> TurnWith<Y>
    for RunWriter<'t, 'f, 'r, T, F, D> {
    ghost use Rattle.ring_turns.specs.Feeding.{Fed, MayFeed};
    ghost use Rattle.ring_turns.specs.Again.{fed_again, may_feed_again};

    ghost may = { λ writer _. MayFeed (F.left writer.feed.now) writer.end × IsSync T.row };

    ghost turned = { λ was _ is _. Fed (F.left is.feed.now) was.end is.end };

    /// Takes the writer's turn, whatever it is taken with.
    fn turn(&mut self, other: &mut Y, patience: u32) {
        let _ = other;
        let _end = feed_ahead(&mut self.end, &self.bands, self.feed, patience);
    }

    fn turn_alone(&mut self, patience: u32) {
        let _end = feed_ahead(&mut self.end, &self.bands, self.feed, patience);
    }

    fn rows(&self) -> Option<u64> {
        if self.end.head() < self.end.total() && self.end.joined() > 0 {
            Some(self.end.head())
        } else {
            None
        }
    }

    ghost may_again = { λ x x' y y' may fed.
        (may_feed_again (F.left x.feed.now) (F.left x'.feed.now) x.end x'.end may.0 fed, may.1) };

    ghost turned_again = { λ x x' x'' y y' y''.
        fed_again (F.left x'.feed.now) (F.left x''.feed.now) x.end x'.end x''.end };
}
