// What a run reports of its arguments, its plan and its files, and of a shelf and sinks that fail.
ghost use Rattle.tif_make.specs.Form.{IsForm};
ghost use Rattle.tif_make.specs.Made.{HasRows};

use crate::editions::{ONE_SITE, TWO_PAGES_PLATE};
use crate::files::{four_by_one, image, patch};
use crate::room::{RUN, Want, check, runs, runs_small};
use std::process::Abort;
use std::thread::Threads;
use std::time::Clock;
use test_room::{CALM, FORM, Failing, TWO_PAGES, plan_text};
use tif_make::{ImageForm, Kind};

// Arguments of a run of one plate, with the least and the greatest ring size and patience.
const GOOD: [&[&str]; 2] = [
    &["run", "plan.json", "FILES", "OUT", "1", "1"],
    &["run", "plan.json", "FILES", "OUT", "1024", "65536"],
];

// Arguments that are not a command.
const BAD: [&[&str]; 7] = [
    &["run", "plan.json", "FILES", "OUT", "0"],
    &["run", "plan.json", "FILES", "OUT", "01"],
    &["run", "plan.json", "FILES", "OUT", "+1"],
    &["run", "plan.json", "FILES", "OUT", "1025"],
    &["run", "plan.json", "FILES", "OUT", "1", "65537"],
    &["run", "plan.json", "FILES", "OUT", "1", "1", "1"],
    &["run", "plan.json", "", "OUT"],
];

// Checks that each run of the two pages with one of these lines of arguments has the expected result.
fn check_words<R: Abort + AllocGlobal + Threads + Clock + Sync>(
    rt: &R,
    lines: &[&[&str]],
    file: &[u8],
    want: &Want<'_>,
) {
    for (n, words) in lines.iter().enumerate() {
        check(rt, n, runs_small(rt, words, &TWO_PAGES, file, CALM, want));
    }
}

#[test]
fn reads_ring_and_patience(rt: HostRuntime) {
    let finished = Want {
        status: 0,
        report: ONE_SITE,
        line: "",
        plates: &[],
        taken: &[],
    };
    check_words(&rt, &GOOD, &four_by_one(&rt), &finished);
}

#[test]
fn refuses_ring_and_patience(rt: HostRuntime) {
    let refused = Want {
        status: 2,
        report: "",
        line: "plateroom: words\n",
        plates: &[&[]],
        taken: &[],
    };
    check_words(&rt, &BAD, &four_by_one(&rt), &refused);
}

// Whether a run of this plan, with these files, prints no report and reports this line, and its site has no
// plates.
fn ends<R: Abort + AllocGlobal + Threads + Clock + Sync>(
    rt: &R,
    plan: &str,
    files: [&[u8]; 2],
    failing: Failing,
    status: u8,
    line: &str,
) -> bool {
    let want = Want {
        status,
        report: "",
        line,
        plates: &[&[]],
        taken: &[],
    };
    runs(rt, &RUN, plan, files, failing, &want)
}

// A crop that does not fit, followed by a second file.
const LATER: &str = r#"{"plan":1,"edition":"E1","dpi":1200,"page":[8,2],"screens":{"K":"bayer4"},
"pages":[{"name":"w","inks":"K","layers":[]},{"name":"p","inks":"K","layers":[
{"kind":"contone","file":"a.tif","crop":[2,0,3,1]},{"kind":"contone","file":"b.tif"}]}],
"sections":[{"name":"A","pages":["w","p"]}],"sites":[{"name":"OSLO"}]}"#;

// The second file has compression 5, which is LZW. Files are checked before layers. If the error output
// fails, nothing is reported.
fn refuses_second<R: Abort + AllocGlobal + Threads + Clock + Sync>(
    rt: &R,
    first: &[u8],
    lzw: &[u8],
) -> bool {
    let line = "plateroom: file b.tif: tag 259: compression\n";
    let failing = Failing {
        note: Some(0),
        ..CALM
    };
    ends(rt, LATER, [first, lzw], CALM, 4, line) && ends(rt, LATER, [first, lzw], failing, 7, "")
}

#[test]
fn refuses_a_later_file(rt: HostRuntime) {
    let mut lzw = four_by_one(&rt);
    patch(&mut lzw, 54, 5);
    assert!(rt; refuses_second(&rt, &four_by_one(&rt), &lzw));
}

// Whether a plan whose page is a.tif with this key is refused with this line. The second file is a mask,
// b.tif.
fn refuses_layer<R: Abort + AllocGlobal + Threads + Clock + Sync>(
    rt: &R,
    key: &str,
    mask: &[u8],
    line: &str,
) -> bool {
    let front = r#"{"plan":1,"edition":"E1","dpi":1200,"page":[8,2],"pages":[{"name":"w","inks":"K",
"layers":[{"kind":"contone","file":"a.tif","#;
    let back = r#"}]}],"sections":[{"name":"A","pages":["w","w"]}],"sites":[{"name":"OSLO"}]}"#;
    let plan = format!(in rt.alloc(); "{front}{key}{back}").expect(rt, "memory");
    ends(rt, plan.as_str(), [&four_by_one(rt), mask], CALM, 4, line)
}

#[test]
fn refuses_a_crop_that_ends_outside_its_image(rt: HostRuntime) {
    let across = "plateroom: file a.tif: tag 256: crop\n";
    assert!(rt; refuses_layer(&rt, r#""crop":[2,0,3,1]"#, &[], across));
    let down = "plateroom: file a.tif: tag 257: crop\n";
    assert!(rt; refuses_layer(&rt, r#""crop":[0,0,1,2]"#, &[], down));
}

// Whether a mask of this form with these rows is refused with this line.
fn refuses_mask<R: Abort + AllocGlobal + Threads + Clock + Sync>(
    rt: &R,
    form: &ImageForm,
    rows: &[u8],
    line: &str,
) -> bool
    requires form { IsForm form.now }
    requires rows { HasRows form.now rows.now }
{
    refuses_layer(rt, r#""mask":"b.tif""#, &image(rt, form, rows), line)
}

// The mask of the four pixels.
const MASK: ImageForm = ImageForm {
    kind: Kind::Mask,
    ..FORM
};

#[test]
fn refuses_a_mask_of_another_width_than_its_image(rt: HostRuntime) {
    let narrow = ImageForm { width: 3, ..MASK };
    let line = "plateroom: file b.tif: tag 256: mask size\n";
    assert!(rt; refuses_mask(&rt, &narrow, &[0xE0], line));
}

#[test]
fn refuses_a_mask_of_another_length_than_its_image(rt: HostRuntime) {
    let long = ImageForm { length: 2, ..MASK };
    let line = "plateroom: file b.tif: tag 257: mask size\n";
    assert!(rt; refuses_mask(&rt, &long, &[0xF0, 0xF0], line));
}

const HEAD: &str = r#"{"plan":1,"edition":"E1","dpi":1200,"page":[8,2],"#;

const SECTIONS: &str = r#""sections":[{"name":"A","pages":["w","w"]}],"#;

const SITES: &str = r#""sites":[{"name":"OSLO"}]}"#;

// The keys before the pages of a plan, its sections and its sites, one of them wrong, and the line.
const PLANS: [[&str; 4]; 5] = [
    [
        r#"{"plan":1,"edition":"E1","dpi":1200,"page":[8,2],"colour":1,"#,
        SECTIONS,
        SITES,
        "plateroom: plan /colour: unknown\n",
    ],
    [
        HEAD,
        SECTIONS,
        r#""sites":[{"name":"OSLO"},{"name":"OSLO"}]}"#,
        "plateroom: plan /sites/1/name: repeat\n",
    ],
    [
        HEAD,
        r#""sections":[{"name":"A","pages":["w","w","w"]}],"#,
        SITES,
        "plateroom: plan /sections/0/pages: range\n",
    ],
    [
        r#"{"plan":1,"edition":"E1","page":[8,2],"#,
        SECTIONS,
        SITES,
        "plateroom: plan /dpi: missing\n",
    ],
    [
        r#"{"plan":1,"edition":"E1","dpi":"x","page":[8,2],"#,
        SECTIONS,
        SITES,
        "plateroom: plan /dpi: kind\n",
    ],
];

// Whether a run of the plan with these keys is refused with this line.
fn refuses_keys<R: Abort + AllocGlobal + Threads + Clock + Sync>(
    rt: &R,
    [head, sections, sites, line]: [&str; 4],
) -> bool {
    let pages = r#""pages":[{"name":"w","inks":"K","layers":[]}],"#;
    let plan = format!(in rt.alloc(); "{head}{pages}{sections}{sites}").expect(rt, "memory");
    ends(rt, plan.as_str(), [&[], &[]], CALM, 3, line)
}

#[test]
fn refuses_a_plan(rt: HostRuntime) {
    for (n, keys) in PLANS.iter().enumerate() {
        check(&rt, n, refuses_keys(&rt, *keys));
    }
}

#[test]
fn refuses_what_is_no_plan(rt: HostRuntime) {
    let line = "plateroom: plan: not JSON\n";
    assert!(rt; ends(&rt, "{", [&[], &[]], CALM, 3, line));
    let line = "plateroom: plan : kind\n";
    assert!(rt; ends(&rt, "[]", [&[], &[]], CALM, 3, line));
}

// The load at which the shelf fails, and the line.
const LOADS: [(u64, &str); 2] = [
    (0, "plateroom: shelf: plan.json\n"),
    (1, "plateroom: shelf: FILES/a.tif\n"),
];

// Whether a run of the two pages whose shelf fails at this load is refused with this line.
fn misses<R: Abort + AllocGlobal + Threads + Clock + Sync>(rt: &R, load: u64, line: &str) -> bool {
    let failing = Failing {
        shelf: Some(load),
        ..CALM
    };
    let plan = plan_text(rt.alloc(), &TWO_PAGES).expect(rt, "memory");
    ends(rt, plan.as_str(), [&four_by_one(rt), &[]], failing, 5, line)
}

#[test]
fn tells_what_the_shelf_failed_at(rt: HostRuntime) {
    for (n, (load, line)) in LOADS.iter().enumerate() {
        check(&rt, n, misses(&rt, *load, line));
    }
}

const UNREPORTED: Want<'static> = Want {
    status: 7,
    report: "",
    line: "",
    plates: &[&[TWO_PAGES_PLATE]],
    taken: &[],
};

/// Whether a run of the two pages with these arguments, whose output fails, reports nothing and leaves their
/// plate.
pub fn ends_unreported<R: Abort + AllocGlobal + Threads + Clock + Sync>(
    rt: &R,
    words: &[&str],
) -> bool {
    let failing = Failing {
        out: Some(0),
        ..CALM
    };
    runs_small(
        rt,
        words,
        &TWO_PAGES,
        &four_by_one(rt),
        failing,
        &UNREPORTED,
    )
}

// The output takes the whole report in one call, once the plates are complete.
#[test]
fn ends_where_the_output_fails(rt: HostRuntime) {
    assert!(rt; ends_unreported(&rt, &RUN));
}
