// Sites that drop out because their racks fail.
use crate::room::{RUN, Want, check, runs};
use std::process::Abort;
use std::thread::Threads;
use std::time::Clock;
use test_room::{CALM, Failing, Plate};

/// Four empty pages for two sites.
pub const EMPTY: &str = r#"{"plan":1,"edition":"E1","dpi":1200,"page":[8,2],
"pages":[{"name":"w","inks":"K","layers":[]}],
"sections":[{"name":"A","pages":["w","w","w","w"]}],"sites":[{"name":"OSLO"},{"name":"BERGEN"}]}"#;

// The call of the second rack that fails, the number of its plates, the row at which it dropped out, the name
// of the failed call, and the plate.
const CALLS: [(u64, u64, u64, &str, &str); 8] = [
    (0, 0, 0, "begin", "001"),
    (1, 0, 0, "row", "001"),
    (2, 0, 1, "row", "001"),
    (3, 0, 1, "finish", "001"),
    (4, 1, 2, "begin", "002"),
    (5, 1, 2, "row", "002"),
    (6, 1, 3, "row", "002"),
    (7, 1, 3, "finish", "002"),
];

// Whether a run where these calls of the two racks fail ends with this report and these plates.
fn ends<R: Abort + AllocGlobal + Threads + Clock + Sync>(
    rt: &R,
    racks: [Option<u64>; 2],
    report: &str,
    plates: &[&[Plate<'_>]],
) -> bool {
    let want = Want {
        status: 1,
        report,
        line: "",
        plates,
        taken: &[],
    };
    let failing = Failing { racks, ..CALM };
    runs(rt, &RUN, EMPTY, [&[], &[]], failing, &want)
}

fn leaves<R: Abort + AllocGlobal + Threads + Clock + Sync>(
    rt: &R,
    case: &(u64, u64, u64, &str, &str),
) -> bool {
    let (call, plates, row, name, plate) = *case;
    let report = format!(in rt.alloc();
        "site OSLO finished plates 2 rows 4\n\
        site BERGEN left plates {plates} row {row} call {name} \
        file OUT/BERGEN/E1-A-{plate}-K.tif\ntotal rows 4 sites 2\n"
    )
    .expect(rt, "memory");
    ends(rt, [None, Some(call)], report.as_str(), &[])
}

#[test]
fn a_site_leaves(rt: HostRuntime) {
    for (n, case) in CALLS.iter().enumerate() {
        check(&rt, n, leaves(&rt, case));
    }
}

const BOTH: &str = "site OSLO left plates 0 row 0 call begin file OUT/OSLO/E1-A-001-K.tif
site BERGEN left plates 0 row 0 call begin file OUT/BERGEN/E1-A-001-K.tif
total rows 4 sites 2
";

#[test]
fn both_sites_leave(rt: HostRuntime) {
    assert!(rt; ends(&rt, [Some(0), Some(0)], BOTH, &[&[], &[]]));
}
