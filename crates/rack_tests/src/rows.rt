// The rows that the tests give to a site, and the plates that the site makes of them.
ghost use Rattle.std.specs.Prelude.{◌≡◌, ◌∷◌, ◌+◌, ◌<◌, []};
ghost use Rattle.tif_packbits.specs.Frame.{frame_of};
ghost use Rattle.plan_rows.specs.Rows.{rows_of};

use plan_json::{Plan, read_plan};
use plan_rows::RowPlan;
use pr_base::Deal;
use pr_rack::MemRack;
use ring_lanes::Source;
use std::process::Abort;
use tif_packbits::frame_row;

/// Rows of two bytes in frames: row n is n + 1 and 0.
#[derive(Drop)]
pub struct Numbered {
    pub count: u8,
}

impl Deal for Numbered {
    ghost use Rattle.rack_tests.specs.Numbered.{numbered};

    ghost rows = { λ d. numbered d.count };

    ghost size = { λ _. 5 };

    fn total(&self) -> u64 {
        self.count as u64
    }

    fn row_len(&self) -> usize {
        5
    }
}

/// Returns the frame of row `n`.
pub fn frame(n: u8) -> [u8; 5]
    requires { n < 255 }
    ensures { result ≡ frame_of ((n + 1) ∷ 0 ∷ []) }
{
    let mut frame = [0u8; 5];
    frame_row(&[n + 1, 0], &mut frame);
    frame
}

/// A plate file of 16 by 2 pixels at 1200 dpi, laid out by its parts and directory entries. Its two rows are
/// 1 and 0, and 2 and 0.
#[rattlefmt::skip]
const PLATE: [u8; 180] = [
    0x49, 0x49, 0x2A, 0x00, 14, 0, 0, 0,
    1, 1, 0,
    1, 2, 0,
    12, 0,
    0x00, 0x01, 4, 0, 1, 0, 0, 0, 16, 0, 0, 0,
    0x01, 0x01, 4, 0, 1, 0, 0, 0, 2, 0, 0, 0,
    0x02, 0x01, 3, 0, 1, 0, 0, 0, 1, 0, 0, 0,
    0x03, 0x01, 3, 0, 1, 0, 0, 0, 0x05, 0x80, 0, 0,
    0x06, 0x01, 3, 0, 1, 0, 0, 0, 0, 0, 0, 0,
    0x11, 0x01, 4, 0, 1, 0, 0, 0, 8, 0, 0, 0,
    0x15, 0x01, 3, 0, 1, 0, 0, 0, 1, 0, 0, 0,
    0x16, 0x01, 4, 0, 1, 0, 0, 0, 0x00, 0x10, 0, 0,
    0x17, 0x01, 4, 0, 1, 0, 0, 0, 6, 0, 0, 0,
    0x1A, 0x01, 5, 0, 1, 0, 0, 0, 164, 0, 0, 0,
    0x1B, 0x01, 5, 0, 1, 0, 0, 0, 172, 0, 0, 0,
    0x28, 0x01, 3, 0, 1, 0, 0, 0, 2, 0, 0, 0,
    0, 0, 0, 0,
    0xB0, 0x04, 0, 0, 1, 0, 0, 0,
    0xB0, 0x04, 0, 0, 1, 0, 0, 0,
];

// Whether this is the plate file with these two rows.
fn is_plate(bytes: &[u8], top: u8, last: u8) -> bool {
    let mut plate = PLATE;
    plate[9] = top.wrapping_add(1);
    plate[12] = last.wrapping_add(1);
    bytes == plate.as_slice()
}

fn has_plates(rack: &MemRack, plates: &[(&str, u8, u8)]) -> bool {
    let files = rack.files();
    if files.len() != plates.len() {
        return false;
    }
    for (file, (path, top, last)) in files.iter().zip(plates) {
        if file.0.as_str() != *path || !is_plate(&file.1, *top, *last) {
            return false;
        }
    }
    true
}

fn took(rack: &MemRack, source: Source, count: usize) -> bool {
    let rows = rack.taken();
    if rows.len() != count {
        return false;
    }
    for (n, row) in rows.iter().enumerate() {
        if *row != (n as u64, source) {
            return false;
        }
    }
    true
}

/// Checks that a rack has these plates, each given by its path and the numbers of its two rows, and took this
/// many rows from this source.
pub fn check_rack(
    rt: &impl Abort,
    rack: &MemRack,
    source: Source,
    plates: &[(&str, u8, u8)],
    taken: usize,
) {
    assert!(rt; has_plates(rack, plates), "plates");
    assert!(rt; took(rack, source, taken), "rows taken");
}

/// Reads the plan of a text.
pub fn plan_of<R: Abort + AllocGlobal>(rt: &R, text: &[u8]) -> Plan {
    read_plan(rt.alloc(), text).expect(rt, "no plan")
}

/// Returns the rows of a plan.
pub fn plan_rows<R: Abort + AllocGlobal>(rt: &R, plan: &Plan) -> RowPlan
    ensures { result ≡ rows_of plan.now }
{
    RowPlan::of(rt.alloc(), plan).expect(rt, "memory")
}
