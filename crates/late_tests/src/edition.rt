// An edition that is made and, after a change, remade with `replate`, compared with the new edition made at
// once.
use crate::room::{Case, REPLATE, racks_of};
use pr_rack::MemRack;
use std::process::Abort;
use std::thread::Threads;
use std::time::Clock;
use test_room::{CALM, File, Held};

// The front of both plans: two sections, of which page 3 is in four inks. The sites of zone Z have another
// page 3, in black.
const FRONT: &str = r#"{"plan":1,"edition":"E1","dpi":1200,"page":[8,2],"screens":{"K":"bayer4"},
"pages":[{"name":"w","inks":"K","layers":[]},
{"name":"p","inks":"K","layers":[{"kind":"contone","file":"a.tif","scale":2}]},
{"name":"q","inks":"K","layers":[{"kind":"contone","file":"b.tif","scale":2}]},
{"name":"c","inks":"CMYK","layers":[{"kind":"contone","file":"b.tif","scale":2}]}],
"sections":[{"name":"A","pages":["q","w","c","w"]},{"name":"B","pages":["p","w"]}],
"zones":[{"name":"Z","replace":[{"section":"A","page":3,"with":"p"}]}],"#;

const BEFORE: &str = r#""sites":[{"name":"OSLO"},{"name":"BERGEN","zone":"Z"}]}"#;

// BERGEN is removed, OSLO has BERGEN's page 3, and a site is added.
const AFTER: &str = r#""sites":[{"name":"NEW"},{"name":"OSLO","zone":"Z"}]}"#;

// The second image also changes.
const FILES: [File<'static>; 6] = [
    ("old.json", Held::Parts(FRONT, BEFORE)),
    ("OLD/a.tif", Held::Image),
    ("OLD/b.tif", Held::Image),
    ("plan.json", Held::Parts(FRONT, AFTER)),
    ("FILES/a.tif", Held::Image),
    ("FILES/b.tif", Held::Changed(133, 254)),
];

const MADE: &str = "site NEW made 6 kept 0
site OSLO made 2 kept 1
dropped OUT/OSLO/E1-A-002-C.tif
dropped OUT/OSLO/E1-A-002-M.tif
dropped OUT/OSLO/E1-A-002-Y.tif
dropped OUT/BERGEN/E1-A-001-K.tif
dropped OUT/BERGEN/E1-A-002-K.tif
dropped OUT/BERGEN/E1-B-001-K.tif
total made 8
";

// The plates that are reported as dropped.
const DROPPED: [&str; 6] = [
    "OUT/OSLO/E1-A-002-C.tif",
    "OUT/OSLO/E1-A-002-M.tif",
    "OUT/OSLO/E1-A-002-Y.tif",
    "OUT/BERGEN/E1-A-001-K.tif",
    "OUT/BERGEN/E1-A-002-K.tif",
    "OUT/BERGEN/E1-B-001-K.tif",
];

// The plates of the old job, of the replate, and of a run of the new job.
#[derive(Clone, Copy)]
struct Plates<'a> {
    old: &'a [MemRack],
    made: &'a [MemRack],
    new: &'a [MemRack],
}

// Finds the bytes of the plate at a path.
fn find<'a>(racks: &'a [MemRack], path: &str) -> Option<&'a [u8]> {
    for rack in racks {
        for file in rack.files() {
            if file.0.as_str() == path {
                return Some(file.1.as_slice());
            }
        }
    }
    None
}

fn is_dropped(path: &str) -> bool {
    DROPPED.iter().any(|dropped| *dropped == path)
}

// Returns what is at a path after the plates that were made are stored and those that are dropped are
// deleted.
fn lying<'a>(plates: Plates<'a>, path: &str) -> Option<&'a [u8]> {
    if is_dropped(path) {
        return None;
    }
    match find(plates.made, path) {
        Some(bytes) => Some(bytes),
        None => find(plates.old, path),
    }
}

// Whether a run of the new job has the same at a path.
fn is_right(plates: Plates<'_>, path: &str) -> bool {
    match (lying(plates, path), find(plates.new, path)) {
        (Some(lying), Some(new)) => lying == new,
        (None, None) => true,
        _ => false,
    }
}

// Whether it has the same at each path of these racks.
fn are_right(plates: Plates<'_>, racks: &[MemRack]) -> bool {
    racks.iter().all(|rack| rack
        .files()
        .iter()
        .all(|file| is_right(plates, file.0.as_str())))
}

// Returns the racks after a command with these arguments, if it prints this text and ends with status 0.
fn done<R: Abort + AllocGlobal + Threads + Clock + Sync>(
    rt: &R,
    words: &[&str],
    text: &str,
    loads: u64,
) -> Option<Vec<MemRack>> {
    let case = Case {
        files: &FILES,
        failing: CALM,
        status: 0,
        text,
        line: "",
        loads,
        kept: &[],
    };
    racks_of(rt, words, &case)
}

const RAN: &str = "site OSLO finished plates 6 rows 12
site BERGEN finished plates 3 rows 6
total rows 14 sites 2
";

const RAN_ANEW: &str = "site NEW finished plates 6 rows 12
site OSLO finished plates 3 rows 6
total rows 14 sites 2
";

// Runs the old job, makes what changed and runs the new job, then compares the plates.
fn holds<R: Abort + AllocGlobal + Threads + Clock + Sync>(rt: &R) -> bool {
    let old = done(rt, &["run", "old.json", "OLD", "OUT"], RAN, 3);
    let made = done(rt, &REPLATE, MADE, 6);
    let new = done(rt, &["run", "plan.json", "FILES", "OUT"], RAN_ANEW, 3);
    match (&old, &made, &new) {
        (Some(old), Some(made), Some(new)) => all_lie(old, made, new),
        _ => false,
    }
}

// Whether the plates present in the end are those of the new job, byte for byte, and no others.
fn all_lie(old: &[MemRack], made: &[MemRack], new: &[MemRack]) -> bool {
    let plates = Plates { old, made, new };
    are_right(plates, old) && are_right(plates, made) && are_right(plates, new)
}

#[test]
fn lies_as_made_at_once(rt: HostRuntime) {
    assert!(rt; holds(&rt));
}
