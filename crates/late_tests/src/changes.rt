// Replates of an edition that changed, in which no call fails.
use crate::files::Kept;
use crate::room::{Case, REPLATE, check, does};
use std::process::Abort;
use std::thread::Threads;
use std::time::Clock;
use test_room::{CALM, FOUR_PAGES, File, Held, Plate, Sides, SmallPlan, TWO_PAGES, ZONED};

// The two pages, the second in four inks.
const COLOURS: SmallPlan<'static> = SmallPlan {
    inks: "CMYK",
    ..TWO_PAGES
};

// The same with another screen for black.
const COLOURS_EIGHTH: SmallPlan<'static> = SmallPlan {
    screen: "bayer8",
    ..COLOURS
};

/// The two pages with another screen.
pub const EIGHTH: SmallPlan<'static> = SmallPlan {
    screen: "bayer8",
    ..TWO_PAGES
};

/// The two pages in another edition.
pub const SECOND: SmallPlan<'static> = SmallPlan {
    edition: "E2",
    ..TWO_PAGES
};

// The second of the sites of `FOUR_PAGES` is removed, and a new one is inserted before the first.
const OTHER_SITES: SmallPlan<'static> = SmallPlan {
    sites: r#"{"name":"NEW"},{"name":"OSLO"}"#,
    ..FOUR_PAGES
};

// The image with a black of 254 instead of 1. With the thresholds 0 127 31 159 and 191 63 223 95 its rows are
// EB and D3, and those of the image itself are AB and 13.
const OTHER: Held<'static> = Held::Changed(133, 254);

// The plans, the new image, the expected output, and the expected contents of racks. The old image is the
// unchanged image.
type Change<'a> = (
    &'a SmallPlan<'a>,
    &'a SmallPlan<'a>,
    Held<'a>,
    &'a str,
    &'a [Kept<'a>],
);

const CHANGES: [Change<'static>; 7] = [
    (
        &TWO_PAGES,
        &TWO_PAGES,
        Held::Image,
        "site OSLO made 0 kept 1\ntotal made 0\n",
        &[],
    ),
    // With the thresholds 0 127 31 159 7 135 39 167 and 191 63 223 95 199 71 231 103 the rows are the same.
    (
        &TWO_PAGES,
        &EIGHTH,
        Held::Image,
        "site OSLO made 1 kept 0\ntotal made 1\n",
        &[(
            &[Plate {
                path: "OUT/OSLO/E1-A-001-K.tif",
                sides: Sides::SixteenByTwo,
                rows: &[1, 0xAB, 0, 1, 0x13, 0],
            }],
            &[0, 1],
        )],
    ),
    // Only the rows of black are made, 3 and 7.
    (
        &COLOURS,
        &COLOURS_EIGHTH,
        Held::Image,
        "site OSLO made 1 kept 3\ntotal made 1\n",
        &[(
            &[Plate {
                path: "OUT/OSLO/E1-A-001-K.tif",
                sides: Sides::SixteenByTwo,
                rows: &[1, 0xAB, 0, 1, 0x13, 0],
            }],
            &[3, 7],
        )],
    ),
    (
        &FOUR_PAGES,
        &FOUR_PAGES,
        OTHER,
        "site OSLO made 1 kept 1\nsite BERGEN made 1 kept 1\ntotal made 2\n",
        &[
            (
                &[Plate {
                    path: "OUT/OSLO/E1-A-002-K.tif",
                    sides: Sides::SixteenByTwo,
                    rows: &[1, 0, 0xEB, 1, 0, 0xD3],
                }],
                &[2, 3],
            ),
            (
                &[Plate {
                    path: "OUT/BERGEN/E1-A-002-K.tif",
                    sides: Sides::SixteenByTwo,
                    rows: &[1, 0, 0xEB, 1, 0, 0xD3],
                }],
                &[2, 3],
            ),
        ],
    ),
    (
        &TWO_PAGES,
        &SECOND,
        Held::Image,
        "site OSLO made 1 kept 0\ndropped OUT/OSLO/E1-A-001-K.tif\ntotal made 1\n",
        &[(
            &[Plate {
                path: "OUT/OSLO/E2-A-001-K.tif",
                sides: Sides::SixteenByTwo,
                rows: &[1, 0xAB, 0, 1, 0x13, 0],
            }],
            &[0, 1],
        )],
    ),
    // The second pair of OSLO comes between the first pair of both sites and the second pair of BERGEN.
    (
        &ZONED,
        &ZONED,
        OTHER,
        "site OSLO made 0 kept 2\nsite BERGEN made 1 kept 1\ntotal made 1\n",
        &[
            (&[], &[]),
            (
                &[Plate {
                    path: "OUT/BERGEN/E1-A-002-K.tif",
                    sides: Sides::SixteenByTwo,
                    rows: &[1, 0, 0xEB, 1, 0, 0xD3],
                }],
                &[4, 5],
            ),
        ],
    ),
    (
        &FOUR_PAGES,
        &OTHER_SITES,
        Held::Image,
        "site NEW made 2 kept 0\nsite OSLO made 0 kept 2\ndropped OUT/BERGEN/E1-A-001-K.tif\n\
        dropped OUT/BERGEN/E1-A-002-K.tif\ntotal made 2\n",
        &[(
            &[
                Plate {
                    path: "OUT/NEW/E1-A-001-K.tif",
                    sides: Sides::SixteenByTwo,
                    rows: &[1, 0, 0, 1, 0, 0],
                },
                Plate {
                    path: "OUT/NEW/E1-A-002-K.tif",
                    sides: Sides::SixteenByTwo,
                    rows: &[1, 0, 0xAB, 1, 0, 0x13],
                },
            ],
            &[0, 1, 2, 3],
        )],
    ),
];

// Whether a replate with these arguments and files makes exactly these plates and prints this text.
fn makes<R: Abort + AllocGlobal + Threads + Clock + Sync>(
    rt: &R,
    words: &[&str],
    files: &[File<'_>],
    text: &str,
    kept: &[Kept<'_>],
) -> bool {
    let case = Case {
        files,
        failing: CALM,
        status: 0,
        text,
        line: "",
        loads: 4,
        kept,
    };
    does(rt, words, &case)
}

fn makes_change<R: Abort + AllocGlobal + Threads + Clock + Sync>(
    rt: &R,
    change: &Change<'_>,
) -> bool {
    let (old_plan, plan, image, text, kept) = *change;
    let files = [
        ("old.json", Held::Small(old_plan)),
        ("OLD/a.tif", Held::Image),
        ("plan.json", Held::Small(plan)),
        ("FILES/a.tif", image),
    ];
    makes(rt, &REPLATE, &files, text, kept)
}

#[test]
fn makes_what_changed(rt: HostRuntime) {
    for (n, change) in CHANGES.iter().enumerate() {
        check(&rt, n, makes_change(&rt, change));
    }
}

// A job compared with itself, which is loaded twice.
#[test]
fn makes_nothing_of_the_same_job(rt: HostRuntime) {
    let words = ["replate", "plan.json", "FILES", "plan.json", "FILES", "OUT"];
    let files = [
        ("plan.json", Held::Small(&TWO_PAGES)),
        ("FILES/a.tif", Held::Image),
    ];
    let text = "site OSLO made 0 kept 1\ntotal made 0\n";
    assert!(rt; makes(&rt, &words, &files, text, &[]));
}
