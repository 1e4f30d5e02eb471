// Plates of two sites, and which of the wrong ones is reported. The order is group, ink, site.
use crate::files::{EMPTY_PLATE, FOUR_INKS, GROUPS};
use crate::room::{check, finds};
use std::process::Abort;
use std::thread::Threads;
use std::time::Clock;
use test_room::{File, Held, Plate, ZONED};

// The paths of the eight plates of `FOUR_INKS`.
const INKS: [&str; 8] = [
    "OUT/OSLO/E1-A-001-C.tif",
    "OUT/BERGEN/E1-A-001-C.tif",
    "OUT/OSLO/E1-A-001-M.tif",
    "OUT/BERGEN/E1-A-001-M.tif",
    "OUT/OSLO/E1-A-001-Y.tif",
    "OUT/BERGEN/E1-A-001-Y.tif",
    "OUT/OSLO/E1-A-001-K.tif",
    "OUT/BERGEN/E1-A-001-K.tif",
];

// The wrong plates, the status, the text, and the number of loads.
type Row<'a> = (&'a [File<'a>], u8, &'a str, u64);

// One pair in four inks at two sites: eight plates, loaded after the plan.
const INK_ROWS: [Row<'static>; 7] = [
    (&[], 0, "same plates 8 sites 2\n", 9),
    (
        &[("OUT/BERGEN/E1-A-001-C.tif", Held::Turned(11))],
        8,
        "differs OUT/BERGEN/E1-A-001-C.tif byte 11 row 1\n",
        3,
    ),
    // Ink before site: cyan of the second site comes before magenta of the first.
    (
        &[
            ("OUT/OSLO/E1-A-001-M.tif", Held::Turned(8)),
            ("OUT/BERGEN/E1-A-001-C.tif", Held::Turned(9)),
        ],
        8,
        "differs OUT/BERGEN/E1-A-001-C.tif byte 9 row 0\n",
        3,
    ),
    // A missing plate after a wrong one is not loaded.
    (
        &[
            ("OUT/OSLO/E1-A-001-K.tif", Held::Turned(9)),
            ("OUT/BERGEN/E1-A-001-K.tif", Held::Missing),
        ],
        8,
        "differs OUT/OSLO/E1-A-001-K.tif byte 9 row 0\n",
        8,
    ),
    (
        &[("OUT/BERGEN/E1-A-001-C.tif", Held::Missing)],
        5,
        "plateroom: shelf: OUT/BERGEN/E1-A-001-C.tif\n",
        3,
    ),
    (
        &[
            ("OUT/OSLO/E1-A-001-Y.tif", Held::Missing),
            ("OUT/BERGEN/E1-A-001-Y.tif", Held::Turned(9)),
        ],
        5,
        "plateroom: shelf: OUT/OSLO/E1-A-001-Y.tif\n",
        6,
    ),
    // The last byte of the last plate is missing.
    (
        &[("OUT/BERGEN/E1-A-001-K.tif", Held::Front(179))],
        8,
        "differs OUT/BERGEN/E1-A-001-K.tif byte 179\n",
        9,
    ),
];

// Two pairs at two sites, which share the first: three groups, loaded after the plan and the image.
const GROUP_ROWS: [Row<'static>; 4] = [
    (&[], 0, "same plates 4 sites 2\n", 6),
    // Group before site: the first pair of the second site comes before the second pair of the first.
    (
        &[
            ("OUT/OSLO/E1-A-002-K.tif", Held::Turned(8)),
            ("OUT/BERGEN/E1-A-001-K.tif", Held::Turned(11)),
        ],
        8,
        "differs OUT/BERGEN/E1-A-001-K.tif byte 11 row 1\n",
        4,
    ),
    (
        &[
            ("OUT/OSLO/E1-A-002-K.tif", Held::Turned(12)),
            ("OUT/BERGEN/E1-A-002-K.tif", Held::Turned(8)),
        ],
        8,
        "differs OUT/OSLO/E1-A-002-K.tif byte 12 row 1\n",
        5,
    ),
    (
        &[("OUT/BERGEN/E1-A-002-K.tif", Held::Turned(13))],
        8,
        "differs OUT/BERGEN/E1-A-002-K.tif byte 13 row 1\n",
        6,
    ),
];

// Whether `verify` on the plates of a plan ends as a row says.
fn ends<R: Abort + AllocGlobal + Threads + Clock + Sync>(
    rt: &R,
    plan: Held<'_>,
    plates: &[Plate<'_>],
    row: &Row<'_>,
) -> bool {
    let (wrong, status, text, loads) = *row;
    finds(rt, plan, plates, wrong, status, text, loads)
}

#[test]
fn tells_the_first_ink_and_site(rt: HostRuntime) {
    let plates = INKS.map(|path| Plate {
        path,
        ..EMPTY_PLATE
    });
    for (n, row) in INK_ROWS.iter().enumerate() {
        check(&rt, n, ends(&rt, Held::Plan(FOUR_INKS), &plates, row));
    }
}

#[test]
fn tells_the_first_group(rt: HostRuntime) {
    for (n, row) in GROUP_ROWS.iter().enumerate() {
        check(&rt, n, ends(&rt, Held::Small(&ZONED), &GROUPS, row));
    }
}
