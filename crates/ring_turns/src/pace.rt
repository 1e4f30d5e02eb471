// How the turns of a round are taken, and how threads share them.
ghost use Rattle.std.specs.Prelude.{◌≡◌, ◌<◌, ◌≤◌};

use std::thread::{Threads, available_parallelism};

/// The least length of a row, in bytes, at which a thread sleeps at once: a ring of 64 shorter rows is used
/// up before a sleep is over.
const LONG_ROW: usize = 512;

/// How the turns of a round are taken: how many looks of each may be in vain, in how many threads those of
/// all ends but one are taken, whether a thread pauses after a look in vain, and whether it sleeps after the
/// first of them.
#[derive(Clone, Copy)]
pub struct Pace {
    pub patience: u32,
    pub threads: usize,
    pub pauses: bool,
    pub sleeps: bool,
}

impl Pace {
    /// Returns the pace for rows of this length: one thread for each processor but that of the one end, and
    /// at least two, since a rack may wait for another one. If the processors can't be counted, each turn has
    /// a thread of its own. On one processor a pause would only delay the others, so a thread sleeps at once
    /// and never pauses. With several, it sleeps at once where rows are long.
    pub fn of<T: Threads>(rt: &T, patience: u32, row_len: usize) -> Pace
        ensures { result.patience ≡ patience }
    {
        let processors = match available_parallelism(rt) {
            Ok(processors) => processors.get(),
            Err(_) => usize::MAX,
        };
        Pace {
            patience,
            threads: processors.saturating_sub(1).max(2),
            pauses: processors > 1,
            sleeps: processors < 2 || row_len >= LONG_ROW,
        }
    }

    /// Returns the same pace in this many threads.
    pub(crate) fn in_threads(self, threads: usize) -> Pace
        ensures { result.patience ≡ self.patience }
    {
        Pace {
            patience: self.patience,
            threads,
            pauses: self.pauses,
            sleeps: self.sleeps,
        }
    }

    /// Returns how many of this many ends the first half of the threads takes, so that no thread has two ends
    /// more than another one.
    pub(crate) fn share(self, ends: usize) -> usize
        requires threads { 2 ≤ self.threads }
        requires ends { 2 ≤ ends }
        ensures some_first { 0 < result }
        ensures some_last { result < ends }
    {
        let threads = self.threads.min(ends);
        let first = threads / 2;
        let more = ends % threads;
        ends / threads * first + more.saturating_sub(threads - first)
    }
}
