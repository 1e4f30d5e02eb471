// The schedule, event by event.
ghost use Rattle.std.specs.Prelude.{◌≤◌};
ghost use Rattle.ring_core.specs.Sound.{IsSound};
ghost use Rattle.ring_core.specs.Shown.{schedule_in};

use crate::deal::are_all;
use ring_core::Event::{Advance, Close, Fill, Leave, Look, Open, Publish, See};
use ring_core::{Core, Event, Stage};
use std::process::Abort;

// The writer looks at both readers, fills their lanes and publishes.
const ROUND: [Event; 5] = [Look(0), Look(1), Fill(0), Fill(1), Publish];

// Applies these events, and compares whether each was possible.
fn apply(rt: &impl Abort, core: &mut Core, events: &[Event], possible: bool)
    requires { IsSound (schedule_in core.old) }
    ensures { IsSound (schedule_in core.new) }
{
    for event in events {
        let done = core.step(*event).expect(rt, "memory");
        assert!(rt; done == possible, "{event:?}");
    }
}

// Two readers and two places: the writer fills both places, then must wait for reader 0 and for reader 1.
#[test]
fn waits_for_the_slowest(rt: HostRuntime) {
    let mut core = Core::new(rt.alloc(), 2, 2, 3).expect(&rt, "memory");
    apply(&rt, &mut core, &ROUND, true);
    apply(&rt, &mut core, &ROUND, true);
    apply(&rt, &mut core, &[Look(0), Look(1)], true);
    apply(&rt, &mut core, &[Fill(0)], false);
    let served = [See(0), Open(0), Close(0), Advance(0), Look(0), Fill(0)];
    apply(&rt, &mut core, &served, true);
    apply(&rt, &mut core, &[Fill(1), Publish], false);
    assert!(rt; has_readers(&core, &[Some(1), Some(0)]), "readers");
    assert!(rt; has_lanes(&core), "lanes");
}

// Whether the readers have these cursors, and the writer knows them.
fn has_readers(core: &Core, cursors: &[Option<u64>]) -> bool {
    core.known.as_slice() == cursors && core.cursor.as_slice() == cursors
}

// Whether the core is in the state that the run with two places ends in.
fn has_lanes(core: &Core) -> bool {
    are_all(&[
        core.head == 2,
        core.seen.as_slice() == [2, 0].as_slice(),
        core.filled.as_slice() == [true, false].as_slice(),
        core.stage.as_slice() == [Stage::Idle, Stage::Idle].as_slice(),
        core.lane.as_slice() == [Some(2), Some(1), Some(0), Some(1)].as_slice(),
    ])
}

#[test]
fn knows_no_other_reader(rt: HostRuntime) {
    let mut core = Core::new(rt.alloc(), 1, 2, 1).expect(&rt, "memory");
    apply(&rt, &mut core, &[Look(2), Fill(2)], false);
    let events = [See(2), Open(2), Close(2), Advance(2), Leave(2)];
    apply(&rt, &mut core, &events, false);
    assert!(rt; has_readers(&core, &[Some(0), Some(0)]), "readers");
}

// Thousands of events, possible and impossible, for each number of readers and one to five places.
#[test]
fn keeps_its_rows_in_order(rt: HostRuntime) {
    let mut seed = 1;
    let mut published: u64 = 0;
    for readers in 1..18 {
        for places in 1..6 {
            let mut core = Core::new(rt.alloc(), places, readers, 40).expect(&rt, "memory");
            drive(&rt, &mut core, readers, &mut seed);
            published = published.saturating_add(core.head);
            assert!(rt; is_in_order(&core));
        }
    }
    assert!(rt; published > 0);
}

// Whether each reader took the first rows in order, and none beyond the published ones.
fn is_in_order(core: &Core) -> bool {
    for rows in core.taken.iter() {
        if rows.len() as u64 > core.head || !are_first(rows) {
            return false;
        }
    }
    true
}

fn are_first(rows: &[u64]) -> bool {
    for (number, row) in rows.iter().enumerate() {
        if *row != number as u64 {
            return false;
        }
    }
    true
}

// Applies a hundred events of a fixed sequence.
fn drive(rt: &impl Abort, core: &mut Core, readers: u32, seed: &mut u64)
    requires sound { IsSound (schedule_in core.old) }
    requires few { readers ≤ 17 }
{
    for _turn in 0..100 {
        core.step(next_event(seed, readers)).expect(rt, "memory");
    }
}

// Returns the next event of the sequence. Reader numbers go up to one that no reader has.
fn next_event(seed: &mut u64, readers: u32) -> Event
    requires { readers ≤ 17 }
{
    *seed = seed
        .wrapping_mul(6364136223846793005)
        .wrapping_add(1442695040888963407);
    let reader = ((*seed >> 40) % (u64::from(readers) + 1)) as u32;
    match (*seed >> 33) % 29 {
        0..=3 => Look(reader),
        4..=7 => Fill(reader),
        8..=11 => Publish,
        12..=15 => See(reader),
        16..=19 => Open(reader),
        20..=23 => Close(reader),
        24..=27 => Advance(reader),
        _ => Leave(reader),
    }
}
