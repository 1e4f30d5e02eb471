// How a thread waits between its passes over the ends whose turns it takes.
use crate::pace::Pace;
use crate::ways::now;
use ring_lanes::pause;
use std::thread;
use std::time::{Clock, Duration};

/// How many looks in vain after a row are followed by a sleep. More of them would make the end of each round,
/// in which nobody makes progress, longer.
const SLEEPS: u32 = 4;

/// How long a sleep is to last, in nanoseconds. Linux makes it some fifty thousand, in which the other ends
/// deal with ten rows or more, so that one look serves for all of them.
const SLEEP: u64 = 1000;

/// How many looks precede the sleeps where rows are short: a ring of them is used up before a sleep is over.
const SPINS: u32 = 64;

/// How many pauses follow each of those looks, some eight hundred nanoseconds together.
const SPIN_PAUSES: u32 = 4;

/// How many looks were in vain since the thread's ends last dealt with a row, and how long they worked.
#[derive(Clone, Copy)]
pub(crate) struct Vain {
    rows: Option<u64>,
    looks: u32,
    /// When the last wait ended, or the turns began, in nanoseconds of the clock.
    since: u64,
    /// How long the turns took in which a row was dealt with, in nanoseconds.
    worked: u64,
}

impl Vain {
    /// Returns a count of none, for ends that dealt with this many rows.
    pub(crate) fn new<T: Clock>(rt: &T, rows: Option<u64>) -> Vain {
        Vain {
            rows,
            looks: 0,
            since: now(rt),
            worked: 0,
        }
    }

    /// Returns how long the turns took in which a row was dealt with, if the last one ends now.
    pub(crate) fn worked<T: Clock>(&self, rt: &T) -> u64 {
        self.worked
            .saturating_add(now(rt).saturating_sub(self.since))
    }

    /// Counts a look, after which the ends have dealt with this many rows.
    pub(crate) fn count(&mut self, rows: Option<u64>) {
        self.looks = if rows == self.rows {
            self.looks.saturating_add(1)
        } else {
            0
        };
        self.rows = rows;
    }

    /// Waits after the look that was counted, the `look`-th of all. The first looks after a row are followed
    /// by long waits, and the others by short ones, so that turns in which nobody makes progress end soon.
    pub(crate) fn wait<T: Clock>(&mut self, rt: &T, pace: Pace, look: u32) {
        if self.looks == 0 {
            self.worked = self.worked(rt);
        }
        let spins = if pace.sleeps { 0 } else { SPINS };
        if self.looks < spins {
            for _pause in 0..SPIN_PAUSES {
                pause(look);
            }
        } else if self.looks < spins + SLEEPS {
            thread::sleep(rt, Duration::from_nanos(SLEEP));
        } else if pace.pauses {
            pause(look);
        }
        self.since = now(rt);
    }
}
