// One plate: where it differs, and in which row.
use crate::files::{ONE_ROW, ONE_ROW_PLATE, PATH, TWO_PAGES_PLATE};
use crate::room::{check, finds};
use std::process::Abort;
use std::thread::Threads;
use std::time::Clock;
use test_room::{Held, Plate, SmallPlan, TWO_PAGES};

// What is in the place of a plate, the status, and the text.
type Row<'a> = (Held<'a>, u8, &'a str);

// Checks each row on the only plate of a plan. There are three loads: of the plan, the image and the plate.
fn check_rows<R: Abort + AllocGlobal + Threads + Clock + Sync>(
    rt: &R,
    plan: &SmallPlan<'_>,
    plate: Plate<'_>,
    rows: &[Row<'_>],
) {
    for (n, (held, status, text)) in rows.iter().enumerate() {
        let (plates, wrong) = ([plate], [(PATH, *held)]);
        let holds = finds(rt, Held::Small(&*plan), &plates, &wrong, *status, text, 3);
        check(rt, n, holds);
    }
}

// The plate of two rows. They are the bytes 8 to 10 and 11 to 13; the bytes before and after belong to no
// row. A truncated plate differs in the row that the first missing byte belongs to.
const TWO_ROWS: [Row<'static>; 15] = [
    (Held::Right, 0, "same plates 1 sites 1\n"),
    (
        Held::Missing,
        5,
        "plateroom: shelf: OUT/OSLO/E1-A-001-K.tif\n",
    ),
    (
        Held::Turned(0),
        8,
        "differs OUT/OSLO/E1-A-001-K.tif byte 0\n",
    ),
    (
        Held::Turned(7),
        8,
        "differs OUT/OSLO/E1-A-001-K.tif byte 7\n",
    ),
    (
        Held::Turned(8),
        8,
        "differs OUT/OSLO/E1-A-001-K.tif byte 8 row 0\n",
    ),
    (
        Held::Turned(10),
        8,
        "differs OUT/OSLO/E1-A-001-K.tif byte 10 row 0\n",
    ),
    (
        Held::Turned(11),
        8,
        "differs OUT/OSLO/E1-A-001-K.tif byte 11 row 1\n",
    ),
    (
        Held::Turned(12),
        8,
        "differs OUT/OSLO/E1-A-001-K.tif byte 12 row 1\n",
    ),
    (
        Held::Turned(14),
        8,
        "differs OUT/OSLO/E1-A-001-K.tif byte 14\n",
    ),
    (
        Held::Turned(179),
        8,
        "differs OUT/OSLO/E1-A-001-K.tif byte 179\n",
    ),
    (
        Held::Front(179),
        8,
        "differs OUT/OSLO/E1-A-001-K.tif byte 179\n",
    ),
    (
        Held::Front(9),
        8,
        "differs OUT/OSLO/E1-A-001-K.tif byte 9 row 0\n",
    ),
    (
        Held::Front(0),
        8,
        "differs OUT/OSLO/E1-A-001-K.tif byte 0\n",
    ),
    (
        Held::Longer,
        8,
        "differs OUT/OSLO/E1-A-001-K.tif byte 180\n",
    ),
    (Held::TooLong, 8, "differs OUT/OSLO/E1-A-001-K.tif long\n"),
];

#[test]
fn finds_the_first_byte_and_its_row(rt: HostRuntime) {
    check_rows(&rt, &TWO_PAGES, TWO_PAGES_PLATE, &TWO_ROWS);
}

// The row of the plate of one row is the bytes 8 to 10. A pad byte follows, then the directory.
const PADDED: [Row<'static>; 5] = [
    (Held::Right, 0, "same plates 1 sites 1\n"),
    (
        Held::Turned(10),
        8,
        "differs OUT/OSLO/E1-A-001-K.tif byte 10 row 0\n",
    ),
    (
        Held::Turned(11),
        8,
        "differs OUT/OSLO/E1-A-001-K.tif byte 11\n",
    ),
    (
        Held::Front(11),
        8,
        "differs OUT/OSLO/E1-A-001-K.tif byte 11\n",
    ),
    (
        Held::Turned(12),
        8,
        "differs OUT/OSLO/E1-A-001-K.tif byte 12\n",
    ),
];

#[test]
fn a_pad_byte_is_in_no_row(rt: HostRuntime) {
    check_rows(&rt, &ONE_ROW, ONE_ROW_PLATE, &PADDED);
}
