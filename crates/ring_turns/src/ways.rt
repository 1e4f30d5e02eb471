// Whether the turns of the next round are taken side by side or all in one thread, by what a run measured.
use std::time::Clock;

/// How long turns stay in one thread at least, in nanoseconds.
const LEAST_STAY: u64 = 10_000_000;

/// How many times as long as was waited in a round that did not pay the turns then stay in one thread. Each
/// further such round doubles it, up to the most.
const FIRST_TIMES: u64 = 4;

const MOST_TIMES: u64 = 64;

/// How long the others' work stays known while turns are side by side, in nanoseconds. Then it is measured
/// anew.
const KNOWN_FOR: u64 = 500_000_000;

/// What a run measured of the two ways to take turns. A round side by side pays if the thread of the one
/// waited for the others no longer than their work takes in that thread. Where other programs keep the
/// processors busy, a thread waits for its next slice, which is longer than the work of a whole ring. The
/// first round is side by side.
#[derive(Clone, Copy)]
pub struct Ways {
    /// When turns in one thread end, or last ended, in nanoseconds of the clock.
    until: u64,
    /// How many times as long as is waited in the next round that does not pay.
    times: u64,
    /// How many rows the one dealt with in one thread since turns were last side by side.
    rows: u64,
    /// How long the others took for these rows, in nanoseconds.
    work: u64,
}

impl Ways {
    /// Returns what is known before the first round: nothing.
    pub fn new() -> Ways {
        Ways {
            until: 0,
            times: FIRST_TIMES,
            rows: 0,
            work: 0,
        }
    }

    /// Returns whether turns are taken in one thread at this time.
    pub(crate) fn stays(&self, now: u64) -> bool {
        now < self.until
    }

    /// Counts rows that were dealt with in one thread, and how long the others took for them.
    pub(crate) fn count(&mut self, rows: u64, work: u64) {
        self.rows = self.rows.saturating_add(rows);
        self.work = self.work.saturating_add(work);
    }

    /// Learns from a round side by side that ended at this time: how many rows it dealt with, and how long
    /// the thread of the one waited.
    pub(crate) fn judge(&mut self, ended: u64, rows: u64, waited: u64) {
        if self.rows > 0 && waited.saturating_mul(self.rows) > self.work.saturating_mul(rows) {
            let stay = waited.saturating_mul(self.times).max(LEAST_STAY);
            self.times = self.times.saturating_mul(2).min(MOST_TIMES);
            self.stay(ended, stay);
            return;
        }
        self.times = FIRST_TIMES;
        if self.rows == 0 || ended.saturating_sub(self.until) > KNOWN_FOR {
            self.stay(ended, LEAST_STAY);
        }
    }

    /// Takes turns in one thread from this time on, for so long, and measures the others' work anew.
    fn stay(&mut self, now: u64, long: u64) {
        self.until = now.saturating_add(long);
        self.rows = 0;
        self.work = 0;
    }
}

/// Returns the time of a clock in nanoseconds. If it can't be read, the time is past all others, so that
/// turns are always side by side.
pub(crate) fn now<T: Clock>(rt: &T) -> u64 {
    match rt.monotonic() {
        Ok(time) => time
            .as_secs()
            .wrapping_mul(1_000_000_000)
            .wrapping_add(u64::from(time.subsec_nanos())),
        Err(_) => u64::MAX,
    }
}

/// Returns how many rows were dealt with between two counts, none if there is no row left.
pub(crate) fn between(before: Option<u64>, after: Option<u64>) -> u64 {
    match (before, after) {
        (Some(before), Some(after)) => after.saturating_sub(before),
        _ => 0,
    }
}
