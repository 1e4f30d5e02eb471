// Sites that drop out because their racks fail, and an output that fails.
use crate::changes::{EIGHTH, SECOND};
use crate::files::Kept;
use crate::room::{Case, REPLATE, check, does};
use std::process::Abort;
use std::thread::Threads;
use std::time::Clock;
use test_room::{CALM, FOUR_PAGES, Failing, File, Held, Plate, Sides, SmallPlan, TWO_PAGES};

// Six pages for two sites. The image is pages 1 and 3, which are in the first and the third pair.
const SIX_PAGES: SmallPlan<'static> = SmallPlan {
    pages: r#""p","w","p","w","w","w""#,
    ..FOUR_PAGES
};

// The old plan, the new one, and the new image. The old image is the unchanged image.
type Change<'a> = (&'a SmallPlan<'a>, &'a SmallPlan<'a>, Held<'a>);

// The six pages, and the same with another byte in the image.
const SIX: Change<'static> = (&SIX_PAGES, &SIX_PAGES, Held::Changed(133, 254));

// The two pages, and the same with another screen.
const SCREENED: Change<'static> = (&TWO_PAGES, &EIGHTH, Held::Image);

// The two pages, and the same in another edition.
const RENAMED: Change<'static> = (&TWO_PAGES, &SECOND, Held::Image);

const NONE_MADE: &str = "site OSLO made 2 kept 1
site BERGEN left made 0 file OUT/BERGEN/E1-A-001-K.tif
total made 2
";

const ONE_MADE: &str = "site OSLO made 2 kept 1
site BERGEN left made 1 file OUT/BERGEN/E1-A-003-K.tif
total made 3
";

// The plates and rows of OSLO. The unchanged pair has rows 2 and 3.
const WHOLE: Kept<'static> = (
    &[
        Plate {
            path: "OUT/OSLO/E1-A-001-K.tif",
            sides: Sides::SixteenByTwo,
            rows: &[1, 0, 0xEB, 1, 0, 0xD3],
        },
        Plate {
            path: "OUT/OSLO/E1-A-003-K.tif",
            sides: Sides::SixteenByTwo,
            rows: &[1, 0, 0xEB, 1, 0, 0xD3],
        },
    ],
    &[0, 1, 4, 5],
);

// The plates of BERGEN.
const FIRST: Plate<'static> = Plate {
    path: "OUT/BERGEN/E1-A-001-K.tif",
    sides: Sides::SixteenByTwo,
    rows: &[1, 0, 0xEB, 1, 0, 0xD3],
};

const THIRD: Plate<'static> = Plate {
    path: "OUT/BERGEN/E1-A-003-K.tif",
    sides: Sides::SixteenByTwo,
    rows: &[1, 0, 0xEB, 1, 0, 0xD3],
};

// The call of the second rack that fails, the expected output, and the expected contents of both racks. A
// plate takes four calls: begin, row, row and finish.
const CALLS: [(u64, &str, [Kept<'static>; 2]); 4] = [
    (2, NONE_MADE, [WHOLE, (&[], &[0])]),
    (4, ONE_MADE, [WHOLE, (&[FIRST], &[0, 1])]),
    (6, ONE_MADE, [WHOLE, (&[FIRST], &[0, 1, 4])]),
    (7, ONE_MADE, [WHOLE, (&[FIRST], &[0, 1, 4, 5])]),
];

// Returns the files of both jobs of a change.
fn files_of<'a>(change: &Change<'a>) -> [File<'a>; 4] {
    let (old, plan, image) = *change;
    [
        ("old.json", Held::Small(old)),
        ("OLD/a.tif", Held::Image),
        ("plan.json", Held::Small(plan)),
        ("FILES/a.tif", image),
    ]
}

// Whether a replate of these files with these failing calls ends with this status and this text, and the
// racks have these contents.
fn ends<R: Abort + AllocGlobal + Threads + Clock + Sync>(
    rt: &R,
    files: &[File<'_>],
    failing: Failing,
    status: u8,
    text: &str,
    kept: &[Kept<'_>],
) -> bool {
    let case = Case {
        files,
        failing,
        status,
        text,
        line: "",
        loads: 4,
        kept,
    };
    does(rt, &REPLATE, &case)
}

// Whether a replate of the six pages, where this call of the second rack fails, ends so with status 1.
fn leaves<R: Abort + AllocGlobal + Threads + Clock + Sync>(
    rt: &R,
    call: u64,
    text: &str,
    kept: &[Kept<'_>],
) -> bool {
    let failing = Failing {
        racks: [None, Some(call)],
        ..CALM
    };
    ends(rt, &files_of(&SIX), failing, 1, text, kept)
}

#[test]
fn a_site_leaves(rt: HostRuntime) {
    for (n, (call, text, kept)) in CALLS.iter().enumerate() {
        check(&rt, n, leaves(&rt, *call, text, kept));
    }
}

// A change at one site, the call of its rack that fails, the expected output, and the expected contents of
// the rack.
type Alone<'a> = (&'a Change<'a>, u64, &'a str, &'a [Kept<'a>]);

const ALONE: [Alone<'static>; 2] = [
    (
        &SCREENED,
        0,
        "site OSLO left made 0 file OUT/OSLO/E1-A-001-K.tif\ntotal made 0\n",
        &[],
    ),
    (
        &RENAMED,
        3,
        "site OSLO left made 0 file OUT/OSLO/E2-A-001-K.tif\n\
        dropped OUT/OSLO/E1-A-001-K.tif\ntotal made 0\n",
        &[(&[], &[0, 1])],
    ),
];

fn leaves_alone<R: Abort + AllocGlobal + Threads + Clock + Sync>(rt: &R, row: &Alone<'_>) -> bool {
    let (change, call, text, kept) = *row;
    let failing = Failing {
        racks: [Some(call), None],
        ..CALM
    };
    ends(rt, &files_of(change), failing, 1, text, kept)
}

#[test]
fn the_only_site_leaves(rt: HostRuntime) {
    for (n, row) in ALONE.iter().enumerate() {
        check(&rt, n, leaves_alone(&rt, row));
    }
}

// The call of the second rack that fails, and the expected contents of both racks.
const UNPRINTED: [(Option<u64>, [Kept<'static>; 2]); 2] = [
    (None, [WHOLE, (&[FIRST, THIRD], &[0, 1, 4, 5])]),
    (Some(6), [WHOLE, (&[FIRST], &[0, 1, 4])]),
];

// Whether a replate where the output and this call of the second rack fail leaves these contents in the
// racks.
fn stands<R: Abort + AllocGlobal + Threads + Clock + Sync>(
    rt: &R,
    call: Option<u64>,
    kept: &[Kept<'_>],
) -> bool {
    let failing = Failing {
        racks: [None, call],
        out: Some(0),
        ..CALM
    };
    ends(rt, &files_of(&SIX), failing, 7, "", kept)
}

#[test]
fn plates_stand_where_the_output_fails(rt: HostRuntime) {
    for (n, (call, kept)) in UNPRINTED.iter().enumerate() {
        check(&rt, n, stands(&rt, *call, kept));
    }
}
