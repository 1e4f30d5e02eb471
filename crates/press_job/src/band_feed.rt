// What a run requires of the feed of a job, in addition to its rows.
ghost use Rattle.std.specs.Prelude.{◌≡◌};
ghost use Rattle.std.specs.Thread.{IsSync};

use pr_base::RowFeed;
use std::thread::Threads;

/// A feed that can make rows ahead of the calls that take them.
///
/// Implementers may make them in threads of their own. They state that the rows still to come are unchanged.
pub trait BandFeed: RowFeed {
    /// Makes the next rows in parallel, if none is ready. No call allocates memory.
    fn make_band<T: Threads + Sync>(&mut self, rt: &T)
        requires { IsSync T.row }
        ensures { Self.left self.new ≡ Self.left self.old };
}
