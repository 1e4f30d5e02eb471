// Runs that count ink keys: the lines after the report, whether or not sites drop out.
use crate::editions::{ONE_SITE, SPOT, makes_two_pages};
use crate::faults::ends_unreported;
use crate::files::{four_by_one, spot_line};
use crate::leaving::EMPTY;
use crate::room::{Want, check, runs, runs_small};
use std::process::Abort;
use std::thread::Threads;
use std::time::Clock;
use test_room::{CALM, FOUR_PAGES, Failing, TWO_PAGES, plan_text};

// Whether a run of the two pages with these arguments makes their plate and reports this line of counts. The
// first site takes its rows from a ring of this many places.
fn counts<R: Abort + AllocGlobal + Threads + Clock + Sync>(
    rt: &R,
    words: &[&str],
    places: u32,
    line: &str,
) -> bool {
    let report = format!(in rt.alloc(); "{ONE_SITE}keys 0 A-001-K {line}\n").expect(rt, "memory");
    makes_two_pages(rt, words, report.as_str(), 2, places)
}

// The row 0xAB has set pixels in columns 0, 2, 4, 6 and 7, and 0x13 in columns 3, 6 and 7.
#[test]
fn counts_follow_the_report(rt: HostRuntime) {
    let words = ["keys", "plan.json", "FILES", "OUT", "4"];
    assert!(rt; counts(&rt, &words, 64, "3 5 0 0"));
}

// A ring of one place, and a patience of one look per turn.
#[test]
fn counts_at_one_place(rt: HostRuntime) {
    let words = ["keys", "plan.json", "FILES", "OUT", "3", "1", "1"];
    assert!(rt; counts(&rt, &words, 1, "4 4 0"));
}

#[test]
fn counts_of_a_column_each(rt: HostRuntime) {
    let words = ["keys", "plan.json", "FILES", "OUT", "16", "2"];
    assert!(rt; counts(&rt, &words, 2, "1 0 1 1 1 0 2 2 0 0 0 0 0 0 0 0"));
}

// Arguments that are refused: a missing, zero, too large or malformed count of keys, an empty path, or too
// many arguments.
const BAD: [&[&str]; 8] = [
    &["keys", "plan.json", "FILES", "OUT"],
    &["keys", "plan.json", "FILES", "OUT", "0"],
    &["keys", "plan.json", "FILES", "OUT", "65"],
    &["keys", "plan.json", "FILES", "OUT", "01"],
    &["keys", "plan.json", "FILES", "OUT", "+1"],
    &["keys", "plan.json", "FILES", "OUT", ""],
    &["keys", "plan.json", "FILES", "", "4"],
    &["keys", "plan.json", "FILES", "OUT", "4", "1", "1", "1"],
];

const REFUSED: Want<'static> = Want {
    status: 2,
    report: "",
    line: "plateroom: words\n",
    plates: &[&[]],
    taken: &[],
};

#[test]
fn refuses_keys(rt: HostRuntime) {
    let file = four_by_one(&rt);
    for (n, words) in BAD.iter().enumerate() {
        let holds = runs_small(&rt, words, &TWO_PAGES, &file, CALM, &REFUSED);
        check(&rt, n, holds);
    }
}

// The failing calls of the two racks, and the report. All rows are counted, even those that no site has.
const LEFT: [([Option<u64>; 2], &str); 3] = [
    (
        [None, Some(5)],
        "site OSLO finished plates 2 rows 4
site BERGEN left plates 1 row 2 call row file OUT/BERGEN/E1-A-002-K.tif
total rows 4 sites 2
keys 0 A-001-K 0
keys 1 A-002-K 8
",
    ),
    (
        [Some(0), Some(0)],
        "site OSLO left plates 0 row 0 call begin file OUT/OSLO/E1-A-001-K.tif
site BERGEN left plates 0 row 0 call begin file OUT/BERGEN/E1-A-001-K.tif
total rows 4 sites 2
keys 0 A-001-K 0
keys 1 A-002-K 8
",
    ),
    (
        [Some(1), Some(4)],
        "site OSLO left plates 0 row 0 call row file OUT/OSLO/E1-A-001-K.tif
site BERGEN left plates 1 row 2 call begin file OUT/BERGEN/E1-A-002-K.tif
total rows 4 sites 2
keys 0 A-001-K 0
keys 1 A-002-K 8
",
    ),
];

// Whether a run with one key, of this plan for two sites, reports this where these calls of the racks fail.
fn leaves<R: Abort + AllocGlobal + Threads + Clock + Sync>(
    rt: &R,
    plan: &str,
    racks: [Option<u64>; 2],
    report: &str,
) -> bool {
    let want = Want {
        status: 1,
        report,
        line: "",
        plates: &[],
        taken: &[],
    };
    let words = ["keys", "plan.json", "FILES", "OUT", "1"];
    let failing = Failing { racks, ..CALM };
    runs(rt, &words, plan, [&four_by_one(rt), &[]], failing, &want)
}

#[test]
fn counts_are_whole_where_sites_leave(rt: HostRuntime) {
    let plan = plan_text(rt.alloc(), &FOUR_PAGES).expect(&rt, "memory");
    for (n, (racks, report)) in LEFT.iter().enumerate() {
        check(&rt, n, leaves(&rt, plan.as_str(), *racks, report));
    }
}

const BLANK: &str = "site OSLO finished plates 2 rows 4
site BERGEN left plates 1 row 2 call row file OUT/BERGEN/E1-A-002-K.tif
total rows 4 sites 2
keys 0 A-001-K 0
keys 1 A-002-K 0
";

#[test]
fn counts_of_empty_pages(rt: HostRuntime) {
    assert!(rt; leaves(&rt, EMPTY, [None, Some(5)], BLANK));
}

const SPOT_KEYS: Want<'static> = Want {
    status: 0,
    report: "site OSLO finished plates 2 rows 4
total rows 4 sites 1
keys 0 A-001-K 0 0 0 0
keys 0 A-001-S 4 4 0 0
",
    line: "",
    plates: &[],
    taken: &[],
};

#[test]
fn counts_a_spot(rt: HostRuntime) {
    let line = spot_line(&rt);
    let words = ["keys", "plan.json", "FILES", "OUT", "4"];
    assert!(rt; runs(&rt, &words, SPOT, [&line, &[]], CALM, &SPOT_KEYS));
}

// The output takes the report and the counts in one call, once the plates are complete.
#[test]
fn ends_where_the_output_takes_no_counts(rt: HostRuntime) {
    let words = ["keys", "plan.json", "FILES", "OUT", "4"];
    assert!(rt; ends_unreported(&rt, &words));
}
