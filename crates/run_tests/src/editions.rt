// Small editions: their plates byte for byte, and the rows that the racks of their sites took.
use crate::files::{four_by_one, pixel, spot_line};
use crate::room::{RUN, Want, runs, runs_small};
use ring_lanes::Source;
use std::process::Abort;
use std::thread::Threads;
use std::time::Clock;
use test_room::{CALM, Plate, Sides, TWO_PAGES, ZONED};

/// The report of a run of the two pages.
pub const ONE_SITE: &str = "site OSLO finished plates 1 rows 2\ntotal rows 2 sites 1\n";

/// A page with a spot ink, from linework.
pub const SPOT: &str = r#"{"plan":2,"edition":"E1","dpi":1200,"page":[8,2],
"pages":[{"name":"w","inks":"K","layers":[]},{"name":"p","inks":"KS","layers":[
{"kind":"line","file":"a.tif","ink":[0,0,0,0,255],"paint":"overprint"}]}],
"sections":[{"name":"A","pages":["w","p"]}],"sites":[{"name":"OSLO"}]}"#;

// A flat image with error diffusion.
const DIFFUSED: &str =
    r#"{"plan":1,"edition":"E1","dpi":1200,"page":[4,2],"screens":{"K":"diffuse"},
"pages":[{"name":"w","inks":"K","layers":[]},
{"name":"p","inks":"K","layers":[{"kind":"contone","file":"a.tif","scale":4}]}],
"sections":[{"name":"A","pages":["w","p"]}],"sites":[{"name":"OSLO"}]}"#;

/// The plate of the two pages.
pub const TWO_PAGES_PLATE: Plate<'static> = Plate {
    path: "OUT/OSLO/E1-A-001-K.tif",
    sides: Sides::SixteenByTwo,
    rows: &[1, 0xAB, 0, 1, 0x13, 0],
};

/// Whether a run of the two pages with these arguments makes their plate and prints this report. The site
/// takes its rows as the first of `readers` readers of a ring of this many places.
pub fn makes_two_pages<R: Abort + AllocGlobal + Threads + Clock + Sync>(
    rt: &R,
    words: &[&str],
    report: &str,
    readers: u32,
    places: u32,
) -> bool {
    let source = Source::Ring {
        reader: 0,
        readers,
        places,
    };
    let want = Want {
        status: 0,
        report,
        line: "",
        plates: &[&[TWO_PAGES_PLATE]],
        taken: &[(source, &[0, 1])],
    };
    runs_small(rt, words, &TWO_PAGES, &four_by_one(rt), CALM, &want)
}

#[test]
fn runs_an_edition(rt: HostRuntime) {
    assert!(rt; makes_two_pages(&rt, &RUN, ONE_SITE, 1, 64));
}

// A ring of one place, and a patience of one look per turn.
#[test]
fn runs_at_one_place(rt: HostRuntime) {
    let words = ["run", "plan.json", "FILES", "OUT", "1", "1"];
    assert!(rt; makes_two_pages(&rt, &words, ONE_SITE, 1, 1));
}

const EMPTY: [u8; 6] = [1, 0, 0, 1, 0, 0];

const ZONES: Want<'static> = Want {
    status: 0,
    report: "site OSLO finished plates 2 rows 4
site BERGEN finished plates 2 rows 4
total rows 6 sites 2
",
    line: "",
    plates: &[
        &[
            Plate {
                path: "OUT/OSLO/E1-A-001-K.tif",
                sides: Sides::SixteenByTwo,
                rows: &EMPTY,
            },
            Plate {
                path: "OUT/OSLO/E1-A-002-K.tif",
                sides: Sides::SixteenByTwo,
                rows: &EMPTY,
            },
        ],
        &[
            Plate {
                path: "OUT/BERGEN/E1-A-001-K.tif",
                sides: Sides::SixteenByTwo,
                rows: &EMPTY,
            },
            Plate {
                path: "OUT/BERGEN/E1-A-002-K.tif",
                sides: Sides::SixteenByTwo,
                rows: &[1, 0, 0xAB, 1, 0, 0x13],
            },
        ],
    ],
    taken: &[
        (
            Source::Ring {
                reader: 0,
                readers: 2,
                places: 64,
            },
            &[0, 1, 2, 3],
        ),
        (
            Source::Ring {
                reader: 1,
                readers: 2,
                places: 64,
            },
            &[0, 1, 4, 5],
        ),
    ],
};

// Two sites share the first pair, and each has a second pair of its own.
#[test]
fn runs_zones(rt: HostRuntime) {
    let file = four_by_one(&rt);
    assert!(rt; runs_small(&rt, &RUN, &ZONED, &file, CALM, &ZONES));
}

const SPOT_PLATES: Want<'static> = Want {
    status: 0,
    report: "site OSLO finished plates 2 rows 4\ntotal rows 4 sites 1\n",
    line: "",
    plates: &[&[
        Plate {
            path: "OUT/OSLO/E1-A-001-K.tif",
            sides: Sides::SixteenByTwo,
            rows: &EMPTY,
        },
        Plate {
            path: "OUT/OSLO/E1-A-001-S.tif",
            sides: Sides::SixteenByTwo,
            rows: &[1, 0xF0, 0, 1, 0x0F, 0],
        },
    ]],
    taken: &[],
};

#[test]
fn runs_a_spot(rt: HostRuntime) {
    let line = spot_line(&rt);
    assert!(rt; runs(&rt, &RUN, SPOT, [&line, &[]], CALM, &SPOT_PLATES));
}

const DIFFUSED_PLATE: Want<'static> = Want {
    status: 0,
    report: ONE_SITE,
    line: "",
    plates: &[&[Plate {
        path: "OUT/OSLO/E1-A-001-K.tif",
        sides: Sides::EightByTwo,
        rows: &[0, 0xA0, 0, 0x50],
    }]],
    taken: &[],
};

#[test]
fn runs_a_diffused_screen(rt: HostRuntime) {
    let file = pixel(&rt, [0, 0, 0, 128]);
    assert!(rt; runs(&rt, &RUN, DIFFUSED, [&file, &[]], CALM, &DIFFUSED_PLATE));
}
