// Runs with a desk, racks and sinks in memory.
use pr_rack::MemRack;
use ring_lanes::Source;
use std::process::Abort;
use std::thread::Threads;
use std::time::Clock;
use test_room::{
    Desk, Ended, Failing, File, Held, Plate, SmallPlan, have_plates, plan_text, racks_after, took,
};

/// The default arguments of a run.
pub const RUN: [&str; 4] = ["run", "plan.json", "FILES", "OUT"];

/// The expected result of a run: its status, its report, its line on the error output, and, for racks from
/// the first on, the plates, and the sources and numbers of the rows that they took.
#[derive(Clone, Copy)]
pub struct Want<'a> {
    pub status: u8,
    pub report: &'a str,
    pub line: &'a str,
    pub plates: &'a [&'a [Plate<'a>]],
    pub taken: &'a [(Source, &'a [u64])],
}

/// Returns the files of a plan that may name a.tif and b.tif.
pub fn files_of<'a>(plan: &'a str, first: &'a [u8], second: &'a [u8]) -> [File<'a>; 3] {
    [
        ("plan.json", Held::Plan(plan)),
        ("FILES/a.tif", Held::Bytes(first)),
        ("FILES/b.tif", Held::Bytes(second)),
    ]
}

/// Returns the racks after a run with these arguments, if it has the expected status, report and line.
pub fn racks_of<R: Abort + AllocGlobal + Threads + Clock + Sync>(
    rt: &R,
    words: &[&str],
    files: &[File<'_>],
    failing: Failing,
    want: &Want<'_>,
) -> Option<Vec<MemRack>> {
    let mut desk = Desk::new(rt.alloc(), files, &[], &[], failing.shelf);
    let ended = Ended {
        status: want.status,
        out: want.report.as_bytes(),
        line: want.line,
    };
    racks_after(rt, rt.alloc(), words, &mut desk, failing, &ended).expect(rt, "memory")
}

/// Whether a run with these arguments has the expected result. Its plan may name the files a.tif and b.tif.
pub fn runs<R: Abort + AllocGlobal + Threads + Clock + Sync>(
    rt: &R,
    words: &[&str],
    plan: &str,
    files: [&[u8]; 2],
    failing: Failing,
    want: &Want<'_>,
) -> bool {
    let [first, second] = files;
    let files = files_of(&*plan, &*first, &*second);
    match racks_of(rt, words, &files, failing, want) {
        Some(racks) => has_all(rt, &racks, want),
        None => false,
    }
}

/// The same for a plan of small pages.
pub fn runs_small<R: Abort + AllocGlobal + Threads + Clock + Sync>(
    rt: &R,
    words: &[&str],
    plan: &SmallPlan<'_>,
    file: &[u8],
    failing: Failing,
    want: &Want<'_>,
) -> bool {
    let plan = plan_text(rt.alloc(), plan).expect(rt, "memory");
    runs(rt, words, plan.as_str(), [file, &[]], failing, want)
}

// Whether racks have the expected plates and took the expected rows.
fn has_all<R: Abort + AllocGlobal>(rt: &R, racks: &[MemRack], want: &Want<'_>) -> bool {
    have_plates(rt.alloc(), racks, want.plates).expect(rt, "memory") && took(racks, want.taken)
}

/// Asserts that row `n` of a table holds.
pub fn check(rt: &impl Abort, n: usize, holds: bool) {
    assert!(rt; holds, "row {n}");
}
