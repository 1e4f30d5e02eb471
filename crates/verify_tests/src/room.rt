// Commands with a desk, racks and sinks in memory.
use std::process::Abort;
use std::thread::Threads;
use std::time::Clock;
use test_room::{CALM, Desk, Ended, Failing, File, Held, Plate, leaves_racks};

/// The arguments that verify the plates.
pub const VERIFY: [&str; 4] = ["verify", "plan.json", "FILES", "OUT"];

/// The plan and the plates of a desk, what is there in place of some, and the calls that fail, then the
/// expected status, output, line of the error output, and number of loads.
#[derive(Clone, Copy)]
pub struct Case<'a> {
    pub plan: Held<'a>,
    pub plates: &'a [Plate<'a>],
    pub wrong: &'a [File<'a>],
    pub failing: Failing,
    pub status: u8,
    pub out: &'a str,
    pub line: &'a str,
    pub loads: u64,
}

/// Whether a command with these arguments has the expected result, and leaves the racks unchanged.
pub fn does<R: Abort + AllocGlobal + Threads + Clock + Sync>(
    rt: &R,
    words: &[&str],
    case: &Case<'_>,
) -> bool {
    let files = [("plan.json", case.plan), ("FILES/a.tif", Held::Image)];
    let mut desk = Desk::new(
        rt.alloc(),
        &files,
        case.plates,
        case.wrong,
        case.failing.shelf,
    );
    let ended = Ended {
        status: case.status,
        out: case.out.as_bytes(),
        line: case.line,
    };
    let left = leaves_racks(rt, rt.alloc(), words, &mut desk, case.failing, &ended);
    left.expect(rt, "memory") && desk.loads == case.loads
}

/// Whether `verify` on these plates of a plan, some of them wrong, ends with this status and this text, the
/// line of the error output for status 5 and the output otherwise, after so many loads.
pub fn finds<R: Abort + AllocGlobal + Threads + Clock + Sync>(
    rt: &R,
    plan: Held<'_>,
    plates: &[Plate<'_>],
    wrong: &[File<'_>],
    status: u8,
    text: &str,
    loads: u64,
) -> bool {
    let (out, line) = if status == 5 { ("", text) } else { (text, "") };
    let case = Case {
        plan,
        plates,
        wrong,
        failing: CALM,
        status,
        out,
        line,
        loads,
    };
    does(rt, &VERIFY, &case)
}

/// Asserts that row `n` of a table holds.
pub fn check(rt: &impl Abort, n: usize, holds: bool) {
    assert!(rt; holds, "row {n}");
}
