// How tests fail: each call under test returns whether it did what was expected.
use std::process::Abort;

/// Asserts that each of these holds, and names the first call that failed.
pub fn check(rt: &impl Abort, holds: &[bool]) {
    for (n, one) in holds.iter().enumerate() {
        assert!(rt; *one, "call {n}");
    }
}
