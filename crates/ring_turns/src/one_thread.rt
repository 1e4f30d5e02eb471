// Turns that are taken in one thread, one after the other and over and over again.
ghost use Rattle.std.specs.Prelude.{◌≡◌, ◌<◌, ◌≤◌, ◌/◌, length, max};
ghost use Rattle.ring_turns.specs.Turns.{AreTurned, MayAllTurn};

use crate::pace::Pace;
use crate::turn::TurnWith;
use crate::waiting::Vain;
use crate::ways::{Ways, between, now};
use std::time::Clock;

/// Takes turns of each end with the value at its index, if it has one, each until it looked in vain once,
/// until all of them together looked in vain as often as the patience allows, or none has a row left. The
/// thread waits only after a pass over all, so no end waits while another one of the thread has rows.
pub(crate) fn turns_in_one_thread<T: Clock, X: TurnWith<Y>, Y>(
    rt: &T,
    pace: Pace,
    others: &mut [Y],
    all: &mut [X],
)
    requires may { MayAllTurn X.may all.old others.old }
    requires patience { 0 < pace.patience }
    ensures turned { AreTurned X.turned all.old others.old all.new others.new }
{
    let passes = passes(pace.patience, all.len());
    let mut vain = Vain::new(rt, all_rows(all));
    ask_each(others, all);
    for pass in 1..passes {
        let rows = all_rows(all);
        if rows.is_none() {
            return;
        }
        vain.count(rows);
        vain.wait(rt, pace, pass);
        ask_each(others, all);
    }
}

/// Takes turns of one end alone, each until it looked in vain once, as many as the patience allows, or until
/// it has no row left. Returns how long it worked, in nanoseconds.
pub(crate) fn turns_of_one<T: Clock, X: TurnWith<Y>, Y>(rt: &T, pace: Pace, one: &mut X) -> u64
    requires may { X.may one.old None }
    requires patience { 0 < pace.patience }
    ensures turned { X.turned one.old None one.new None }
{
    let mut vain = Vain::new(rt, one.rows());
    one.turn_alone(1);
    for look in 1..pace.patience {
        let rows = one.rows();
        if rows.is_none() {
            return vain.worked(rt);
        }
        vain.count(rows);
        vain.wait(rt, pace, look);
        one.turn_alone(1);
    }
    vain.worked(rt)
}

/// Takes turns of one end and of all others, with the value at its index, if it has one, in this thread: as
/// often as the patience allows, or until turns are to be side by side again or the others have no row left.
/// Nobody waits: each end deals with all rows that the turns before it left to it.
pub(crate) fn turns_together<T: Clock, W: TurnWith<Y>, X: TurnWith<Y>, Y>(
    rt: &T,
    pace: Pace,
    ways: &mut Ways,
    one: &mut W,
    others: &mut [Y],
    all: &mut [X],
)
    requires may_one { W.may one.old None }
    requires may { MayAllTurn X.may all.old others.old }
    requires patience { 0 < pace.patience }
    ensures one { W.turned one.old None one.new None }
    ensures turned { AreTurned X.turned all.old others.old all.new others.new }
{
    ask_all(rt, ways, one, others, all);
    for _pass in 1..pace.patience {
        if all_rows(all).is_none() || !ways.stays(now(rt)) {
            return;
        }
        ask_all(rt, ways, one, others, all);
    }
}

/// Takes a turn of one end and then of all others, each until it looked in vain once, and counts how long the
/// others took.
fn ask_all<T: Clock, W: TurnWith<Y>, X: TurnWith<Y>, Y>(
    rt: &T,
    ways: &mut Ways,
    one: &mut W,
    others: &mut [Y],
    all: &mut [X],
)
    requires may_one { W.may one.old None }
    requires may { MayAllTurn X.may all.old others.old }
    ensures one { W.turned one.old None one.new None }
    ensures turned { AreTurned X.turned all.old others.old all.new others.new }
{
    let before = one.rows();
    one.turn_alone(1);
    let rows = between(before, one.rows());
    let began = now(rt);
    ask_each(others, all);
    ways.count(rows, now(rt).saturating_sub(began));
}

/// Returns how many rows the ends that have rows left dealt with, together; none if no end has rows left.
fn all_rows<X: TurnWith<Y>, Y>(all: &[X]) -> Option<u64> {
    let mut sum = None;
    for one in all {
        if let Some(rows) = one.rows() {
            sum = Some(rows.wrapping_add(sum.unwrap_or(0)));
        }
    }
    sum
}

/// Returns how many passes over so many ends make as many looks as the patience allows, at least one.
fn passes(patience: u32, ends: usize) -> u32
    ensures { result ≡ patience / max ends 1 }
{
    (patience as usize / ends.max(1)) as u32
}

/// Takes a turn of each end with the value at its index, if it has one, each until it looked in vain once.
fn ask_each<X: TurnWith<Y>, Y>(others: &mut [Y], all: &mut [X])
    requires may { MayAllTurn X.may all.old others.old }
    ensures turned { AreTurned X.turned all.old others.old all.new others.new }
{
    for i in 0..all.len() {
        if i < others.len() {
            all[i].turn(&mut others[i], 1);
            continue;
        }
        all[i].turn_alone(1);
    }
}
