// What `replate` reports of its arguments, of two jobs, and of a shelf that fails.
use crate::changes::EIGHTH;
use crate::room::{Case, REPLATE, check, does};
use std::process::Abort;
use std::thread::Threads;
use std::time::Clock;
use test_room::{CALM, Failing, Held, TWO_PAGES};

// The plan, a.tif and b.tif of a job.
type Job<'a> = [Held<'a>; 3];

// Whether a command with these arguments and jobs, of whose files the load with this number fails, prints and
// makes nothing, and ends with this status and this line.
fn refuses<R: Abort + AllocGlobal + Threads + Clock + Sync>(
    rt: &R,
    words: &[&str],
    jobs: &[Job<'_>; 2],
    load: Option<u64>,
    answer: Answer<'_>,
) -> bool {
    let ([old, new], (status, line, loads)) = (jobs, answer);
    let files = [
        ("old.json", old[0]),
        ("OLD/a.tif", old[1]),
        ("OLD/b.tif", old[2]),
        ("plan.json", new[0]),
        ("FILES/a.tif", new[1]),
        ("FILES/b.tif", new[2]),
    ];
    let failing = Failing {
        shelf: load,
        ..CALM
    };
    let case = Case {
        files: &files,
        failing,
        status,
        text: "",
        line,
        loads,
        kept: &[],
    };
    does(rt, words, &case)
}

// A status, a line, and a number of loads.
type Answer<'a> = (u8, &'a str, u64);

// The two pages.
const PAGES: Job<'static> = [Held::Small(&TWO_PAGES), Held::Image, Held::Missing];

// The two pages, and the same with another screen.
const GOOD: [Job<'static>; 2] = [PAGES, [Held::Small(&EIGHTH), Held::Image, Held::Missing]];

// Arguments that are not a command. `replate` takes no ring size.
const WORDS: [&[&str]; 10] = [
    &["replate"],
    &["replate", "old.json", "OLD", "plan.json", "FILES"],
    &[
        "replate",
        "old.json",
        "OLD",
        "plan.json",
        "FILES",
        "OUT",
        "64",
    ],
    &[
        "replate",
        "old.json",
        "OLD",
        "plan.json",
        "FILES",
        "OUT",
        "",
    ],
    &["replate", "", "OLD", "plan.json", "FILES", "OUT"],
    &["replate", "old.json", "", "plan.json", "FILES", "OUT"],
    &["replate", "old.json", "OLD", "", "FILES", "OUT"],
    &["replate", "old.json", "OLD", "plan.json", "", "OUT"],
    &["replate", "old.json", "OLD", "plan.json", "FILES", ""],
    &["Replate", "old.json", "OLD", "plan.json", "FILES", "OUT"],
];

#[test]
fn refuses_other_words(rt: HostRuntime) {
    for (n, words) in WORDS.iter().enumerate() {
        let holds = refuses(&rt, words, &GOOD, None, (2, "plateroom: words\n", 0));
        check(&rt, n, holds);
    }
}

// The two pages without a resolution.
const NO_DPI: &str = r#"{"plan":1,"edition":"E1","page":[8,2],"screens":{"K":"bayer4"},
"pages":[{"name":"w","inks":"K","layers":[]},
{"name":"p","inks":"K","layers":[{"kind":"contone","file":"a.tif","scale":2}]}],
"sections":[{"name":"A","pages":["w","p"]}],"sites":[{"name":"OSLO"}]}"#;

// The two pages with a second image over the first.
const TWO_FILES: &str =
    r#"{"plan":1,"edition":"E1","dpi":1200,"page":[8,2],"screens":{"K":"bayer4"},
"pages":[{"name":"w","inks":"K","layers":[]},
{"name":"p","inks":"K","layers":[{"kind":"contone","file":"a.tif","scale":2},
{"kind":"contone","file":"b.tif"}]}],
"sections":[{"name":"A","pages":["w","p"]}],"sites":[{"name":"OSLO"}]}"#;

// The image has four samples per pixel, and linework has one.
const AS_LINE: &str = r#"{"plan":1,"edition":"E1","dpi":1200,"page":[8,2],
"pages":[{"name":"w","inks":"K","layers":[{"kind":"line","file":"a.tif"}]}],
"sections":[{"name":"A","pages":["w","w"]}],"sites":[{"name":"OSLO"}]}"#;

// Compression 5 is LZW.
const LZW: Held<'static> = Held::Changed(54, 5);

// No file.
const NONE: Held<'static> = Held::Missing;

// Any fault of the old job is reported before the new plan is loaded.
const OLD: [(Job<'static>, Job<'static>, Answer<'static>); 6] = [
    (
        [NONE, NONE, NONE],
        [Held::Plan(NO_DPI), NONE, NONE],
        (5, "plateroom: shelf: old.json\n", 1),
    ),
    (
        [Held::Plan(NO_DPI), NONE, NONE],
        [Held::Plan("{"), NONE, NONE],
        (3, "plateroom: old plan /dpi: missing\n", 1),
    ),
    (
        [Held::TooLong, NONE, NONE],
        [Held::TooLong, NONE, NONE],
        (3, "plateroom: old plan: too long\n", 1),
    ),
    (
        [Held::Small(&TWO_PAGES), Held::TooLong, NONE],
        [Held::Plan(NO_DPI), NONE, NONE],
        (4, "plateroom: old file a.tif: tag 0: too long\n", 2),
    ),
    (
        [Held::Plan(TWO_FILES), Held::Image, LZW],
        [Held::Plan(TWO_FILES), Held::TooLong, NONE],
        (4, "plateroom: old file b.tif: tag 259: compression\n", 3),
    ),
    (
        [Held::Plan(AS_LINE), Held::Image, NONE],
        [NONE, NONE, NONE],
        (4, "plateroom: old file a.tif: tag 277: samples\n", 2),
    ),
];

#[test]
fn tells_what_is_wrong_with_the_old_job(rt: HostRuntime) {
    for (n, (old, new, answer)) in OLD.iter().enumerate() {
        check(&rt, n, refuses(&rt, &REPLATE, &[*old, *new], None, *answer));
    }
}

// The old job is that of the two pages.
const NEW: [(Job<'static>, Answer<'static>); 5] = [
    (
        [Held::Plan(NO_DPI), NONE, NONE],
        (3, "plateroom: plan /dpi: missing\n", 3),
    ),
    (
        [Held::TooLong, NONE, NONE],
        (3, "plateroom: plan: too long\n", 3),
    ),
    (
        [Held::Small(&TWO_PAGES), Held::TooLong, NONE],
        (4, "plateroom: file a.tif: tag 0: too long\n", 4),
    ),
    (
        [Held::Plan(TWO_FILES), Held::Image, LZW],
        (4, "plateroom: file b.tif: tag 259: compression\n", 5),
    ),
    (
        [Held::Plan(AS_LINE), Held::Image, NONE],
        (4, "plateroom: file a.tif: tag 277: samples\n", 4),
    ),
];

#[test]
fn tells_what_is_wrong_with_the_new_job(rt: HostRuntime) {
    for (n, (new, answer)) in NEW.iter().enumerate() {
        check(
            &rt,
            n,
            refuses(&rt, &REPLATE, &[PAGES, *new], None, *answer),
        );
    }
}

// Each load fails in turn. The line for a failed load names the path alone.
const LOADS: [&str; 4] = [
    "plateroom: shelf: old.json\n",
    "plateroom: shelf: OLD/a.tif\n",
    "plateroom: shelf: plan.json\n",
    "plateroom: shelf: FILES/a.tif\n",
];

#[test]
fn tells_which_load_failed(rt: HostRuntime) {
    for (n, line) in LOADS.iter().enumerate() {
        let load = n as u64;
        let holds = refuses(
            &rt,
            &REPLATE,
            &GOOD,
            Some(load),
            (5, line, load.saturating_add(1)),
        );
        check(&rt, n, holds);
    }
}
