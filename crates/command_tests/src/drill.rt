// Tests of drills. The expected texts are those of check/drill.py, which works from the definitions alone.
use crate::room::{check, does};
use std::process::Abort;
use std::thread::Threads;
use std::time::Clock;
use test_room::{CALM, Ended, Held};

const SEVEN: &str = "site S0 finished plates 13 rows 832
site S1 finished plates 13 rows 832
site S2 finished plates 13 rows 832
site S3 finished plates 13 rows 832
total rows 1088 sites 4
dots S0 41149
dots S1 41041
dots S2 41149
dots S3 41041
";

const LEAST: &str = "site S0 finished plates 5 rows 320
total rows 320 sites 1
dots S0 14653
";

// The drill with the largest images.
const LARGEST: &str = "site S0 finished plates 13 rows 10192
site S1 finished plates 13 rows 10192
site S2 finished plates 13 rows 10192
site S3 finished plates 13 rows 10192
total rows 13328 sites 4
dots S0 10497016
dots S1 10466863
dots S2 10497016
dots S3 10466863
";

const LAST: &str = "site S0 finished plates 13 rows 10192
site S1 finished plates 13 rows 10192
site S2 finished plates 13 rows 10192
site S3 finished plates 13 rows 10192
total rows 13328 sites 4
dots S0 10496538
dots S1 10466308
dots S2 10496538
dots S3 10466308
";

const WORDS: Ended<'static> = Ended {
    status: 2,
    out: &[],
    line: "plateroom: words\n",
};

// The drill of number 7 with rings of 64, 1, 2, 64 and 1,024 places.
const RINGS: [&[&str]; 5] = [
    &["drill", "7"],
    &["drill", "7", "1", "1"],
    &["drill", "7", "2"],
    &["drill", "7", "64"],
    &["drill", "7", "1024"],
];

// Arguments that are not a drill.
const NONE: [&[&str]; 6] = [
    &["drill"],
    &["drill", "01"],
    &["drill", "4294967296"],
    &["drill", "7", "0"],
    &["drill", "7", "64", "65537"],
    &["drill", "7", "64", "1024", "7"],
];

// Whether a drill with these arguments succeeds and prints this text.
fn prints<R: Abort + AllocGlobal + Threads + Clock + Sync>(
    rt: &R,
    words: &[&str],
    text: &str,
) -> bool {
    let want = Ended {
        status: 0,
        out: text.as_bytes(),
        line: "",
    };
    does(rt, words, Held::Missing, CALM, &want)
}

#[test]
fn prints_the_same_over_every_ring(rt: HostRuntime) {
    for (n, words) in RINGS.iter().enumerate() {
        check(&rt, n, prints(&rt, words, SEVEN));
    }
}

#[test]
fn drills_the_least(rt: HostRuntime) {
    assert!(rt; prints(&rt, &["drill", "0"], LEAST));
}

#[test]
fn drills_the_largest(rt: HostRuntime) {
    assert!(rt; prints(&rt, &["drill", "127"], LARGEST));
}

#[test]
fn drills_the_last(rt: HostRuntime) {
    assert!(rt; prints(&rt, &["drill", "4294967295"], LAST));
}

#[test]
fn refuses_words_that_are_no_drill(rt: HostRuntime) {
    for (n, words) in NONE.iter().enumerate() {
        check(&rt, n, does(&rt, words, Held::Missing, CALM, &WORDS));
    }
}
