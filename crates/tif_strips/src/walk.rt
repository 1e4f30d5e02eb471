// The tests of the strips of an image, in order or by several threads.
ghost use Rattle.std.specs.Prelude.{◌≡◌, ◌+◌, ◌-◌, ◌*◌, ◌^◌, ◌<◌, ◌≤◌, ◌↔◌, IsTrue, None, Some, length};
ghost use Rattle.std.specs.Thread.{IsSync};
ghost use Rattle.tif_strips.specs.Marks.{AreMarks, marks_per_strip};
ghost use Rattle.tif_strips.specs.Strips.{fault_of_strip, strip_count};
ghost use Rattle.tif_strips.specs.Walk.{IsTested, Passed, fault_among};

use crate::marking::unmark;
use crate::strip::Strip;
use crate::strip_table::StripTable;
use pr_base::TagFault;
use std::thread::{Threads, join_mut};

/// Returns the first fault of `count` strips from strip `first` on. If they have none, sets `per` marks of
/// each. Consecutive strips with the same offset, size and needed bytes are tested once: `passed` is the last
/// that was tested.
#[cycle(parts)]
pub(crate) fn test(
    table: &StripTable<'_>,
    first: u32,
    count: u32,
    per: usize,
    marks: &mut [u32],
    passed: &mut Option<Strip>,
) -> Option<TagFault>
    requires within { first + count ≤ strip_count table.now.shape }
    requires fits { first + count < 2 ^ 32 }
    requires few { per ≤ 1023 }
    requires room { length marks.old ≡ count * per }
    requires passed { Passed table.now passed.old }
    ensures fault { result ≡ fault_among table.now first count }
    ensures marks { result ≡ None → AreMarks table.now first count per marks.new }
    ensures passed { Passed table.now passed.new }
{
    if count == 0 {
        return None;
    }
    if count == 1 {
        return test_one(table, first, per, marks, passed);
    }
    let half = count / 2;
    let (front, back) = marks.split_at_mut(half as usize * per);
    if let Some(fault) = test(table, first, half, per, front, passed) {
        return Some(fault);
    }
    test(table, first + half, count - half, per, back, passed)
}

// Returns the fault of strip `i`, or sets its marks: none if it equals the last one that passed.
fn test_one(
    table: &StripTable<'_>,
    i: u32,
    per: usize,
    marks: &mut [u32],
    passed: &mut Option<Strip>,
) -> Option<TagFault>
    requires within { i < strip_count table.now.shape }
    requires room { length marks.old ≡ per }
    requires passed { Passed table.now passed.old }
    ensures fault { result ≡ fault_among table.now i 1 }
    ensures marks { result ≡ None → AreMarks table.now i 1 per marks.new }
    ensures passed { Passed table.now passed.new }
{
    let strip = table.strip(i);
    if is_again(*passed, strip) {
        unmark(marks);
        return None;
    }
    match table.check(strip, marks) {
        Ok(()) => {
            *passed = Some(strip);
            None
        }
        Err(fault) => Some(fault),
    }
}

/// Returns the same, found by at most `threads` threads, each of which tests a part of the strips.
#[cycle(halves)]
pub(crate) fn test_wide<T: Threads + Sync>(
    rt: &T,
    threads: usize,
    table: &StripTable<'_>,
    first: u32,
    count: u32,
    per: usize,
    marks: &mut [u32],
) -> Option<TagFault>
    requires within { first + count ≤ strip_count table.now.shape }
    requires fits { first + count < 2 ^ 32 }
    requires few { per ≤ 1023 }
    requires room { length marks.old ≡ count * per }
    ensures fault { result ≡ fault_among table.now first count }
    ensures marks { result ≡ None → AreMarks table.now first count per marks.new }
{
    if threads < 2 || count < 2 {
        return test(table, first, count, per, marks, &mut None);
    }
    let half = count / 2;
    let (room, _behind) = rooms(count, half, per);
    let (front, back) = marks.split_at_mut(room);
    let (one, other) = test_both(
        rt,
        threads,
        table,
        first,
        half,
        count - half,
        per,
        front,
        back,
    );
    match one {
        Some(fault) => Some(fault),
        None => other,
    }
}

// Returns the same of two parts, `half` strips and the `rest` behind them, tested side by side.
#[cycle(halves)]
fn test_both<T: Threads + Sync>(
    rt: &T,
    threads: usize,
    table: &StripTable<'_>,
    first: u32,
    half: u32,
    rest: u32,
    per: usize,
    front: &mut [u32],
    back: &mut [u32],
) -> (Option<TagFault>, Option<TagFault>)
    requires some_first { 0 < half }
    requires some_last { 0 < rest }
    requires within { first + half + rest ≤ strip_count table.now.shape }
    requires fits { first + half + rest < 2 ^ 32 }
    requires few { per ≤ 1023 }
    requires front { length front.old ≡ half * per }
    requires back { length back.old ≡ rest * per }
    ensures one { IsTested table.now first half per result.0 front.new }
    ensures other { IsTested table.now (first + half) rest per result.1 back.new }
{
    let middle = first + half;
    let fewer = threads / 2;
    let more = threads - fewer;
    join_mut(
        rt,
        &mut || -> Option<TagFault>
            requires { IsSync T.row × (first + half ≤ strip_count table.now.shape)
                × (first + half < 2 ^ 32) × (per ≤ 1023) × (length front.now ≡ half * per) }
            ensures { IsTested table.entry.now first half per result front.exit.now }
        { test_wide(rt, fewer, table, first, half, per, front) },
        &mut || -> Option<TagFault>
            requires { IsSync T.row × (middle + rest ≤ strip_count table.now.shape)
                × (middle + rest < 2 ^ 32) × (per ≤ 1023) × (length back.now ≡ rest * per) }
            ensures { IsTested table.entry.now middle rest per result back.exit.now }
        { test_wide(rt, more, table, middle, rest, per, back) },
    )
}

// Returns the room of the marks of the first `half` of `count` strips, and of the others.
#[tactic(auto, using(crate::proofs::Marks::rooms_add))]
fn rooms(count: u32, half: u32, per: usize) -> (usize, usize)
    requires within { half ≤ count }
    requires few { per ≤ 1023 }
    ensures front { result.0 ≡ half * per }
    ensures back { result.1 ≡ (count - half) * per }
    ensures all { result.0 + result.1 ≡ count * per }
{
    (half as usize * per, (count - half) as usize * per)
}

// Returns whether the strip equals the last one that passed.
fn is_again(passed: Option<Strip>, strip: Strip) -> bool
    ensures { IsTrue result ↔ (passed ≡ Some strip) }
{
    passed == Some(strip)
}
