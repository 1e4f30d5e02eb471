// Pages and marks of a plan read from a text.
ghost use Rattle.std.specs.Prelude.{◌≡◌, ◌<◌, length};
ghost use Rattle.plan_pages.specs.Pages.{section_pages};

use plan_json::{Plan, read_plan};
use plan_pages::{PlateShape, chosen, mark_row, plate_shape};
use pr_base::Ink;
use std::process::Abort;

const PLAN: &[u8] =
    br#"{"plan": 1, "edition": "E1", "dpi": 1200, "page": [8, 2], "margins": [4, 2, 5, 1], "gutter": 3,
    "marks": [{"inks": "CK", "x": 5, "y": 1, "w": 13, "h": 2}, {"inks": "K", "x": 1, "y": 2, "w": 2, "h": 1}],
    "pages": [{"name": "a", "inks": "K", "layers": []}, {"name": "b", "inks": "K", "layers": []},
        {"name": "z", "inks": "K", "layers": []}],
    "sections": [{"name": "A", "pages": ["a", "b"]}, {"name": "B", "pages": ["b", "a"]}],
    "zones": [{"name": "Z", "replace": [{"section": "B", "page": 2, "with": "z"}]}],
    "sites": [{"name": "OSLO"}, {"name": "BERGEN", "zone": "Z"}]}"#;

const SHAPE: PlateShape = PlateShape {
    width: 28,
    height: 5,
    left_x: 4,
    right_x: 15,
    top_y: 2,
};

// Ink, row of the plate, and the expected row after the marks: before, the first pixel and a padding bit were
// set.
const ROWS: [(Ink, u32, [u8; 4]); 6] = [
    (Ink::K, 0, [0x80, 0x00, 0x00, 0x01]),
    (Ink::K, 1, [0x87, 0xFF, 0xC0, 0x01]),
    (Ink::K, 2, [0xE7, 0xFF, 0xC0, 0x01]),
    (Ink::K, 3, [0x80, 0x00, 0x00, 0x01]),
    (Ink::C, 2, [0x87, 0xFF, 0xC0, 0x01]),
    (Ink::M, 1, [0x80, 0x00, 0x00, 0x01]),
];

// Site, section, page, and the index of the page printed there.
const CHOSEN: [(usize, usize, u32, usize); 4] = [
    (0, 1, 2, 0),
    (1, 1, 2, 2),
    (1, 1, 1, 1),
    (1, 0, 2, 1),
];

#[test]
fn marks_are_set_and_all_else_stays(rt: HostRuntime) {
    let plan = read_plan(rt.alloc(), PLAN).expect(&rt, "no plan");
    for (ink, y, row) in ROWS {
        expect_row(&rt, &plan, ink, y, row);
    }
}

fn expect_row(rt: &impl Abort, plan: &Plan, ink: Ink, y: u32, wanted: [u8; 4]) {
    let shape = plate_shape(plan);
    assert!(rt; shape == SHAPE && y < 5);
    let mut row = [0x80, 0x00, 0x00, 0x01];
    mark_row(plan, ink, y, &mut row);
    assert!(rt; row == wanted, "row {y} of {ink:?}");
}

#[test]
fn a_zone_replaces_a_page_of_its_section(rt: HostRuntime) {
    let plan = read_plan(rt.alloc(), PLAN).expect(&rt, "no plan");
    for (site, section, page, wanted) in CHOSEN {
        expect_chosen(&rt, &plan, [site, section], page, wanted);
    }
}

fn expect_chosen(rt: &impl Abort, plan: &Plan, at: [usize; 2], page: u32, wanted: usize) {
    let [site, section] = at;
    assert!(rt; site < plan.sites.len() && section < plan.sections.len());
    assert!(rt; 1 <= page && page as usize <= own_pages(plan, section).len());
    assert!(rt;
        chosen(plan, site, section, page) == wanted,
        "page {page} of {site}"
    );
}

// Returns the pages of a section.
fn own_pages(plan: &Plan, section: usize) -> &[usize]
    requires { section < length plan.now.sections }
    ensures { result.now ≡ section_pages plan.now section }
{
    &plan.sections[section].pages
}
