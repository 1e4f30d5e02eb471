// Row plans of plans read from texts.
use plan_json::{Plan, read_plan};
use plan_rows::{Group, RowPlace, RowPlan, plate_path};
use pr_base::Ink;
use std::process::Abort;

// Two sites; the second prints a different page 3.
const TWO_SITES: &[u8] = br#"{"plan": 1, "edition": "E1", "dpi": 1200, "page": [8, 2],
    "pages": [{"name": "p", "inks": "K", "layers": []}, {"name": "q", "inks": "K", "layers": []},
        {"name": "r", "inks": "K", "layers": []}, {"name": "s", "inks": "K", "layers": []},
        {"name": "z", "inks": "K", "layers": []}],
    "sections": [{"name": "A", "pages": ["p", "q", "r", "s"]}],
    "zones": [{"name": "Z", "replace": [{"section": "A", "page": 3, "with": "z"}]}],
    "sites": [{"name": "OSLO"}, {"name": "BERGEN", "zone": "Z"}]}"#;

// Three sites with two zones over two sections, in colour and with a spot ink.
const THREE_SITES: &[u8] = br#"{"plan": 2, "edition": "E1", "dpi": 1200, "page": [8, 2],
    "pages": [{"name": "a", "inks": "K", "layers": []}, {"name": "c", "inks": "CMYK", "layers": []},
        {"name": "k", "inks": "K", "layers": []}, {"name": "s", "inks": "KS", "layers": []},
        {"name": "z", "inks": "K", "layers": []}],
    "sections": [{"name": "A", "pages": ["a", "c"]}, {"name": "B", "pages": ["k", "k", "s", "k"]}],
    "zones": [{"name": "Y", "replace": [{"section": "A", "page": 1, "with": "z"}]},
        {"name": "Z", "replace": [{"section": "A", "page": 1, "with": "z"},
            {"section": "B", "page": 2, "with": "z"}]}],
    "sites": [{"name": "S0"}, {"name": "S1", "zone": "Y"}, {"name": "S2", "zone": "Z"}]}"#;

// The first and the last row of each group, and each ink: number, group, y, ink, slot.
#[rattlefmt::skip]
const PLACES: [(u64, usize, u32, Ink, usize); 16] = [
    (0, 0, 0, Ink::C, 0), (3, 0, 0, Ink::K, 3), (4, 0, 1, Ink::C, 0), (7, 0, 1, Ink::K, 3),
    (8, 1, 0, Ink::C, 0), (9, 1, 0, Ink::M, 1), (10, 1, 0, Ink::Y, 2), (15, 1, 1, Ink::K, 3),
    (16, 2, 0, Ink::K, 3), (17, 2, 1, Ink::K, 3),
    (18, 3, 0, Ink::K, 3), (19, 3, 0, Ink::S, 4), (20, 3, 1, Ink::K, 3), (21, 3, 1, Ink::S, 4),
    (22, 4, 0, Ink::K, 3), (25, 4, 1, Ink::S, 4),
];

#[test]
fn two_sites_share_a_pair(rt: HostRuntime) {
    let rows = row_plan(&rt, TWO_SITES);
    expect_groups(
        &rt,
        &rows,
        &[
            black(1, 3, 0, 3, 0),
            black(2, 1, 2, 1, 2),
            black(2, 1, 4, 2, 4),
        ],
    );
    assert!(rt; rows.total() == 6);
    for n in 0..6 {
        expect_kept(&rt, &rows, 0, n, n < 4);
        expect_kept(&rt, &rows, 1, n, n < 2 || n >= 4);
    }
}

// Makes the row plan of a plan's text.
fn row_plan<R: Abort + AllocGlobal>(rt: &R, text: &[u8]) -> RowPlan {
    let plan = read_plan(rt.alloc(), text).expect(rt, "no plan");
    RowPlan::of(rt.alloc(), &plan).expect(rt, "memory")
}

fn expect_groups(rt: &impl Abort, rows: &RowPlan, groups: &[Group]) {
    assert!(rt; rows.groups() == groups);
}

fn expect_kept(rt: &impl Abort, rows: &RowPlan, site: usize, n: u64, kept: bool) {
    assert!(rt; site < 16 && n < rows.total());
    assert!(rt; rows.keeps(site, n) == kept, "row {n} of site {site}");
}

// Makes a group of section 0 in black only.
fn black(pair: u32, left: usize, right: usize, sites: u16, first: u64) -> Group {
    group(0, pair, [left, right], sites, [false, false], first)
}

#[test]
fn three_sites_are_parted_by_their_pages(rt: HostRuntime) {
    let rows = row_plan(&rt, THREE_SITES);
    expect_groups(
        &rt,
        &rows,
        &[
            group(0, 1, [1, 0], 1, [true, false], 0),
            group(0, 1, [1, 4], 6, [true, false], 8),
            group(1, 1, [2, 2], 7, [false, false], 16),
            group(1, 2, [2, 3], 3, [false, true], 18),
            group(1, 2, [4, 3], 4, [false, true], 22),
        ],
    );
    shared(&rows);
}

// Compiles only if row plans can be moved to threads and shared between them.
fn shared<T: Send + Sync>(_value: &T) {}

// Makes a group from its section, pair, pages, sites, colour and spot flags, and first row.
fn group(
    section: u32,
    pair: u32,
    pages: [usize; 2],
    sites: u16,
    inks: [bool; 2],
    first: u64,
) -> Group {
    Group {
        section,
        pair,
        left: pages[0],
        right: pages[1],
        sites,
        colour: inks[0],
        spot: inks[1],
        first,
    }
}

#[test]
fn rows_stand_at_their_places(rt: HostRuntime) {
    let rows = row_plan(&rt, THREE_SITES);
    assert!(rt; rows.total() == 26);
    for (n, group, y, ink, slot) in PLACES {
        let place = RowPlace {
            group,
            y,
            ink,
            slot,
        };
        expect_place(&rt, &rows, n, place);
    }
}

fn expect_place(rt: &impl Abort, rows: &RowPlan, n: u64, place: RowPlace) {
    assert!(rt; n < rows.total());
    assert!(rt; rows.row_at(n) == place, "row {n}");
}

#[test]
fn plates_have_paths(rt: HostRuntime) {
    let plan = read_plan(rt.alloc(), THREE_SITES).expect(&rt, "no plan");
    let colour = group(0, 1, [1, 4], 6, [true, false], 8);
    expect_path(&rt, &plan, 1, &colour, Ink::C, "OUT/S1/E1-A-001-C.tif");
    let spot = group(1, 2, [4, 3], 4, [false, true], 22);
    expect_path(&rt, &plan, 2, &spot, Ink::S, "OUT/S2/E1-B-002-S.tif");
}

fn expect_path<R: Abort + AllocGlobal>(
    rt: &R,
    plan: &Plan,
    site: usize,
    group: &Group,
    ink: Ink,
    path: &str,
) {
    let section = group.section as usize;
    assert!(rt; site < plan.sites.len() && section < plan.sections.len());
    let made = plate_path(rt.alloc(), plan, "OUT", site, group, ink).expect(rt, "memory");
    assert!(rt; made.as_str() == path, "{path}");
}
