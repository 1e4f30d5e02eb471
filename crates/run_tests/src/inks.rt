// Runs of one pair of pages of 2 by 1 pixels, in one ink or four: what remains of each ink after curves,
// limit and paint.
use crate::files::pixel;
use crate::room::{RUN, Want, runs};
use std::process::Abort;
use std::thread::Threads;
use std::time::Clock;
use test_room::{CALM, Plate, Sides};

const FOUR: &str = "site OSLO finished plates 4 rows 4\ntotal rows 4 sites 1\n";

const ONE: &str = "site OSLO finished plates 1 rows 1\ntotal rows 1 sites 1\n";

// Whether a run of a plan with these keys has this result. Its left page has these
// inks, the layer a.tif, and these layers above it. The files have one pixel each.
fn makes<R: Abort + AllocGlobal + Threads + Clock + Sync>(
    rt: &R,
    [keys, inks, layers]: [&str; 3],
    [first, second]: [[u8; 4]; 2],
    want: &Want<'_>,
) -> bool {
    let plan = format!(in rt.alloc();
        r#"{{"plan":1,"edition":"E1","dpi":1200,"page":[2,1],{keys}
"sections":[{{"name":"A","pages":["w","p"]}}],"sites":[{{"name":"OSLO"}}],
"pages":[{{"name":"w","inks":"K","layers":[]}},
{{"name":"p","inks":"{inks}","layers":[
{{"kind":"contone","file":"a.tif","scale":2}}{layers}]}}]}}"#
    )
    .expect(rt, "memory");
    let first = pixel(rt, first);
    let second = pixel(rt, second);
    runs(rt, &RUN, plan.as_str(), [&first, &second], CALM, want)
}

// Whether a run in four inks makes plates of these bytes: cyan, magenta, yellow and black.
fn makes_four<'a, R: Abort + AllocGlobal + Threads + Clock + Sync>(
    rt: &R,
    keys: &'a str,
    layers: &'a str,
    files: [[u8; 4]; 2],
    dots: [u8; 4],
) -> bool {
    let [c, m, y, k] = dots;
    let sides = Sides::FourByOne;
    let want = Want {
        status: 0,
        report: FOUR,
        line: "",
        plates: &[&[
            Plate {
                path: "OUT/OSLO/E1-A-001-C.tif",
                sides,
                rows: &[0, c],
            },
            Plate {
                path: "OUT/OSLO/E1-A-001-M.tif",
                sides,
                rows: &[0, m],
            },
            Plate {
                path: "OUT/OSLO/E1-A-001-Y.tif",
                sides,
                rows: &[0, y],
            },
            Plate {
                path: "OUT/OSLO/E1-A-001-K.tif",
                sides,
                rows: &[0, k],
            },
        ]],
        taken: &[],
    };
    makes(rt, [keys, "CMYK", layers], files, &want)
}

// 255 in four inks under a limit of 612 becomes 119, 119, 119 and 255. A tile of 118 and 119 distinguishes
// 119 from both of its neighbours.
#[test]
fn a_limit_leaves_black(rt: HostRuntime) {
    let keys = r#""limit":612,"tiles":[{"name":"T","width":2,"height":1,"at":[118,119]}],
"screens":{"C":"tile:T","M":"tile:T","Y":"tile:T","K":"tile:T"},"#;
    let dots = [0x80, 0x80, 0x80, 0xC0];
    assert!(rt; makes_four(&rt, keys, "", [[255; 4], [0; 4]], dots));
}

// Ink in cyan and black alone, and in black alone.
const TWO_INKS: [u8; 4] = [0x80, 0, 0, 0xC0];

const BLACK: [u8; 4] = [0, 0, 0, 0xC0];

// The curve turns 200 into 192, and the limit of 300 leaves 45 of it beside a black of 255. Applying the
// limit first would leave 38.
#[test]
fn curves_come_before_the_limit(rt: HostRuntime) {
    let keys = r#""limit":300,"tiles":[{"name":"T","width":2,"height":1,"at":[44,45]}],
"screens":{"C":"tile:T","K":"tile:T"},"curves":{"C":[[0,0],[128,110],[255,255]]},"#;
    let files = [[200, 0, 0, 255], [0; 4]];
    assert!(rt; makes_four(&rt, keys, "", files, TWO_INKS));
}

const BAYER: &str = r#""screens":{"C":"bayer2","K":"bayer2"},"#;

const OVERPRINT: &str = r#",{"kind":"contone","file":"b.tif","scale":2,"paint":"overprint"}"#;

const KNOCKOUT: &str = r#",{"kind":"contone","file":"b.tif","scale":2,"paint":"knockout"}"#;

// The pixels of the two files: cyan, and black.
const COLOURS: [[u8; 4]; 2] = [[100, 0, 0, 0], [0, 0, 0, 255]];

const BLACK_ALONE: Want<'static> = Want {
    status: 0,
    report: ONE,
    line: "",
    plates: &[&[Plate {
        path: "OUT/OSLO/E1-A-001-K.tif",
        sides: Sides::FourByOne,
        rows: &[0, 0xC0],
    }]],
    taken: &[],
};

// Black over cyan: overprint keeps the cyan, knockout removes it, and a page in black alone prints none.
#[test]
fn black_over_cyan(rt: HostRuntime) {
    assert!(rt; makes_four(&rt, BAYER, OVERPRINT, COLOURS, TWO_INKS));
    assert!(rt; makes_four(&rt, BAYER, KNOCKOUT, COLOURS, BLACK));
    assert!(rt; makes(&rt, [BAYER, "K", OVERPRINT], COLOURS, &BLACK_ALONE));
}
