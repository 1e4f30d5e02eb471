// What `verify` reports of its arguments, its plan and its image, and of a shelf and sinks that fail.
use crate::files::TWO_PAGES_PLATE;
use crate::room::{Case, VERIFY, check, does};
use std::process::Abort;
use std::thread::Threads;
use std::time::Clock;
use test_room::{CALM, Failing, Held, TWO_PAGES};

// Whether `verify` with these arguments, right plates and these failing calls prints nothing, and ends with
// this status and this line.
fn refuses<R: Abort + AllocGlobal + Threads + Clock + Sync>(
    rt: &R,
    words: &[&str],
    plan: Held<'_>,
    failing: Failing,
    status: u8,
    line: &str,
    loads: u64,
) -> bool {
    let case = Case {
        plan,
        plates: &[TWO_PAGES_PLATE],
        wrong: &[],
        failing,
        status,
        out: "",
        line,
        loads,
    };
    does(rt, words, &case)
}

// Arguments that are not a command. `verify` takes no ring size.
const WORDS: [&[&str]; 8] = [
    &["verify"],
    &["verify", "plan.json", "FILES"],
    &["verify", "plan.json", "FILES", "OUT", "64"],
    &["verify", "plan.json", "FILES", "OUT", ""],
    &["verify", "plan.json", "FILES", ""],
    &["verify", "plan.json", "", "OUT"],
    &["verify", "", "FILES", "OUT"],
    &["Verify", "plan.json", "FILES", "OUT"],
];

#[test]
fn refuses_other_words(rt: HostRuntime) {
    for (n, words) in WORDS.iter().enumerate() {
        let line = "plateroom: words\n";
        let holds = refuses(&rt, words, Held::Small(&TWO_PAGES), CALM, 2, line, 0);
        check(&rt, n, holds);
    }
}

// The image has four samples per pixel, and linework has one.
const AS_LINE: &str = r#"{"plan":1,"edition":"E1","dpi":1200,"page":[8,2],
"pages":[{"name":"w","inks":"K","layers":[{"kind":"line","file":"a.tif"}]}],
"sections":[{"name":"A","pages":["w","w"]}],"sites":[{"name":"OSLO"}]}"#;

// A plan that is refused, the status, the line, and the number of loads: of the plan and the image.
const REFUSED: [(&str, u8, &str, u64); 2] = [
    ("{", 3, "plateroom: plan: not JSON\n", 1),
    (AS_LINE, 4, "plateroom: file a.tif: tag 277: samples\n", 2),
];

#[test]
fn tells_what_is_refused(rt: HostRuntime) {
    for (n, (plan, status, line, loads)) in REFUSED.iter().enumerate() {
        let holds = refuses(&rt, &VERIFY, Held::Plan(plan), CALM, *status, line, *loads);
        check(&rt, n, holds);
    }
}

// The failing calls of the shelf, the output and the error output, the status, the line, and the number of
// loads: of the plan, the image and the plate.
const FAILED: [([Option<u64>; 3], u8, &str, u64); 5] = [
    ([Some(0), None, None], 5, "plateroom: shelf: plan.json\n", 1),
    (
        [Some(1), None, None],
        5,
        "plateroom: shelf: FILES/a.tif\n",
        2,
    ),
    (
        [Some(2), None, None],
        5,
        "plateroom: shelf: OUT/OSLO/E1-A-001-K.tif\n",
        3,
    ),
    ([None, Some(0), None], 7, "", 3),
    ([Some(2), None, Some(0)], 7, "", 3),
];

#[test]
fn tells_what_failed(rt: HostRuntime) {
    for (n, (calls, status, line, loads)) in FAILED.iter().enumerate() {
        let [shelf, out, note] = *calls;
        let failing = Failing {
            shelf,
            out,
            note,
            ..CALM
        };
        let plan = Held::Small(&TWO_PAGES);
        let holds = refuses(&rt, &VERIFY, plan, failing, *status, line, *loads);
        check(&rt, n, holds);
    }
}
