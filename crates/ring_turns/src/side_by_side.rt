// Turns of all ends of a ring: side by side, in as many threads as there are processors for them, or in one
// thread.
ghost use Rattle.std.specs.Prelude.{◌≡◌, ◌<◌, ◌≤◌, ℕ, length};
ghost use Rattle.std.specs.Thread.{IsSync};
ghost use Rattle.ring_turns.specs.Turns.{AreTurned, MayAllTurn};

use crate::one_thread::{turns_in_one_thread, turns_of_one, turns_together};
use crate::pace::Pace;
use crate::turn::TurnWith;
use crate::ways::{Ways, between, now};
use std::thread::{Threads, join_mut};
use std::time::Clock;

/// Takes the turn of one, and those of all others, each with the value at its index, if it has one: side by
/// side, or in one thread where side by side did not pay before.
pub fn turn_all<T, W, X, Y>(
    rt: &T,
    pace: Pace,
    ways: &mut Ways,
    one: &mut W,
    others: &mut [Y],
    all: &mut [X],
)
where
    T: Threads + Clock + Sync,
    W: TurnWith<Y> + Send,
    X: TurnWith<Y> + Send,
    Y: Send,
    requires may_one { W.may one.old None }
    requires may { MayAllTurn X.may all.old others.old }
    requires patience { 0 < pace.patience }
    ensures one { W.turned one.old None one.new None }
    ensures turned { AreTurned X.turned all.old others.old all.new others.new }
{
    let began = now(rt);
    if ways.stays(began) {
        return turns_together(rt, pace, ways, one, others, all);
    }
    let before = one.rows();
    let worked = turns_beside(rt, pace, one, others, all);
    let ended = now(rt);
    let waited = ended.saturating_sub(began).saturating_sub(worked);
    ways.judge(ended, between(before, one.rows()), waited);
}

/// Takes the turn of one, and alongside it those of all others, each with the value at its index, if it has
/// one, in as many threads as the pace says. Returns how long the one worked, in nanoseconds.
fn turns_beside<T, W, X, Y>(rt: &T, pace: Pace, one: &mut W, others: &mut [Y], all: &mut [X]) -> u64
where
    T: Threads + Clock + Sync,
    W: TurnWith<Y> + Send,
    X: TurnWith<Y> + Send,
    Y: Send,
    requires may_one { W.may one.old None }
    requires may { MayAllTurn X.may all.old others.old }
    requires patience { 0 < pace.patience }
    ensures one { W.turned one.old None one.new None }
    ensures turned { AreTurned X.turned all.old others.old all.new others.new }
{
    // The second closure runs in this thread, so that the buffers of the one stay in one processor's cache.
    let (_, worked) = join_mut(
        rt,
        &mut ||
            requires sync { IsSync T.row }
            requires may { MayAllTurn X.may all.now others.now }
            requires patience { 0 < pace.patience }
            ensures { AreTurned X.turned all.entry.now others.entry.now all.exit.now others.exit.now }
        {
            let pace = pace;
            turns(rt, pace, others, all)
        },
        &mut ||
            requires sync { IsSync T.row }
            requires may { W.may one.now None }
            requires patience { 0 < pace.patience }
            ensures { W.turned one.entry.now None one.exit.now None }
        {
            let pace = pace;
            turns_of_one::<T, W, Y>(rt, pace, one)
        },
    );
    worked
}

/// Takes the turn of each end with the value at its index, if it has one, in as many threads as the pace
/// says. They are halved until one is left, in which its share of the ends takes turns over and over again.
#[cycle(halves)]
fn turns<T: Threads + Clock + Sync, X: TurnWith<Y> + Send, Y: Send>(
    rt: &T,
    pace: Pace,
    others: &mut [Y],
    all: &mut [X],
)
    requires may { MayAllTurn X.may all.old others.old }
    requires patience { 0 < pace.patience }
    ensures turned { AreTurned X.turned all.old others.old all.new others.new }
{
    if all.len() < 2 || pace.threads < 2 {
        return turns_in_one_thread(rt, pace, others, all);
    }
    let half = pace.share(all.len());
    let (a, b) = all.split_at_mut(half);
    let (c, d) = others.split_at_mut(half.min(others.len()));
    join_halves(rt, pace, a, b, c, d);
}

/// Takes the turns of both halves side by side, each in half of the threads.
#[cycle(halves)]
fn join_halves<T: Threads + Clock + Sync, X: TurnWith<Y> + Send, Y: Send>(
    rt: &T,
    pace: Pace,
    a: &mut [X],
    b: &mut [X],
    c: &mut [Y],
    d: &mut [Y],
)
    requires some_first { 0 < length a.old }
    requires some_last { 0 < length b.old }
    requires may_first { MayAllTurn X.may a.old c.old }
    requires may_last { MayAllTurn X.may b.old d.old }
    requires patience { 0 < pace.patience }
    ensures first { AreTurned X.turned a.old c.old a.new c.new }
    ensures last { AreTurned X.turned b.old d.old b.new d.new }
{
    let first = pace.in_threads(pace.threads / 2);
    let last = pace.in_threads(pace.threads - pace.threads / 2);
    join_mut(
        rt,
        &mut ||
            requires sync { IsSync T.row }
            requires may { MayAllTurn X.may a.now c.now }
            requires patience { 0 < first.patience }
            ensures { AreTurned X.turned a.entry.now c.entry.now a.exit.now c.exit.now }
        {
            let first = first;
            turns(rt, first, c, a)
        },
        &mut ||
            requires sync { IsSync T.row }
            requires may { MayAllTurn X.may b.now d.now }
            requires patience { 0 < last.patience }
            ensures { AreTurned X.turned b.entry.now d.entry.now b.exit.now d.exit.now }
        {
            let last = last;
            turns(rt, last, d, b)
        },
    );
}
