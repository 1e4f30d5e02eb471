// Commands with a desk, racks and sinks in memory.
use crate::files::{Kept, have};
use pr_rack::MemRack;
use std::process::Abort;
use std::thread::Threads;
use std::time::Clock;
use test_room::{Desk, Ended, Failing, File, racks_after};

/// The arguments that make what changed between the job of old.json and that of plan.json.
pub const REPLATE: [&str; 6] = ["replate", "old.json", "OLD", "plan.json", "FILES", "OUT"];

/// The files of a desk and the calls that fail, then the expected status, output, line of the error output,
/// number of loads, and contents of racks, from the first on.
#[derive(Clone, Copy)]
pub struct Case<'a> {
    pub files: &'a [File<'a>],
    pub failing: Failing,
    pub status: u8,
    pub text: &'a str,
    pub line: &'a str,
    pub loads: u64,
    pub kept: &'a [Kept<'a>],
}

/// Returns the racks after a command with these arguments, if it has the expected status, output, line and
/// number of loads.
pub fn racks_of<R: Abort + AllocGlobal + Threads + Clock + Sync>(
    rt: &R,
    words: &[&str],
    case: &Case<'_>,
) -> Option<Vec<MemRack>> {
    let mut desk = Desk::new(rt.alloc(), case.files, &[], &[], case.failing.shelf);
    let ended = Ended {
        status: case.status,
        out: case.text.as_bytes(),
        line: case.line,
    };
    let racks = racks_after(rt, rt.alloc(), words, &mut desk, case.failing, &ended);
    let racks = racks.expect(rt, "memory");
    if desk.loads == case.loads {
        racks
    } else {
        None
    }
}

/// Whether a command with these arguments has the expected result.
pub fn does<R: Abort + AllocGlobal + Threads + Clock + Sync>(
    rt: &R,
    words: &[&str],
    case: &Case<'_>,
) -> bool {
    match racks_of(rt, words, case) {
        Some(racks) => have(rt, &racks, case.kept),
        None => false,
    }
}

/// Asserts that row `n` of a table holds.
pub fn check(rt: &impl Abort, n: usize, holds: bool) {
    assert!(rt; holds, "row {n}");
}
