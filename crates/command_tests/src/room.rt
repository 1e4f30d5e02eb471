// Commands with a desk, racks and sinks in memory.
use std::process::Abort;
use std::thread::Threads;
use std::time::Clock;
use test_room::{Desk, Ended, Failing, Held, leaves_racks};

/// The arguments that print the plate of a.tif.
pub const ONE: [&str; 2] = ["one", "a.tif"];

/// Whether a command with these arguments, and this file as a.tif, ends so and leaves the racks unchanged.
pub fn does<R: Abort + AllocGlobal + Threads + Clock + Sync>(
    rt: &R,
    words: &[&str],
    file: Held<'_>,
    failing: Failing,
    want: &Ended<'_>,
) -> bool {
    let files = [("a.tif", file)];
    let mut desk = Desk::new(rt.alloc(), &files, &[], &[], failing.shelf);
    leaves_racks(rt, rt.alloc(), words, &mut desk, failing, want).expect(rt, "memory")
}

/// Asserts that row `n` of a table holds.
pub fn check(rt: &impl Abort, n: usize, holds: bool) {
    assert!(rt; holds, "row {n}");
}
