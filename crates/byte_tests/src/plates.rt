// The tails of the smallest plate, of one whose rows end at an odd offset, and of one of two strips. The
// expected bytes are hex dumps.
ghost use Rattle.std.specs.Prelude.{◌≡◌, ◌≤◌, length};
ghost use Rattle.tif_plate.specs.Plate.{IsSide, strip_count};
ghost use Rattle.tif_plate.specs.Tail.{IsPlaceable, tail_room};

use crate::checks::check;
use std::process::Abort;
use tif_plate::{Tail, plate_front, plate_tail, rows_per_strip, strips};
use worked_files::PLATE;

// Asserts the length of the tail of a plate at 1200 dpi and the offset of its directory in the plate, and
// that nothing is written after it. Returns the buffer, which starts with the tail.
fn tail_of(rt: &impl Abort, width: u32, height: u32, counts: &[u32], want: Tail) -> [u8; 183]
    requires width { IsSide width }
    requires height { IsSide height }
    requires counts { length counts.now ≡ strip_count width height }
    requires sum { IsPlaceable counts.now }
    requires room { tail_room width height ≤ 183 }
{
    let mut into = [0xEE; 183];
    assert!(rt; plate_tail(width, height, 1200, counts, &mut into) == want);
    assert!(rt; want.len <= 183);
    assert!(rt; into[want.len..].iter().all(|byte| *byte == 0xEE));
    into
}

#[test]
fn begins_with_the_mark_of_its_byte_order(rt: HostRuntime) {
    check(&rt, &[plate_front() == [0x49, 0x49, 0x2A, 0, 0, 0, 0, 0]]);
}

#[test]
fn cuts_rows_into_strips(rt: HostRuntime) {
    let cut = [
        strips(4, 1) == 1,
        strips(32768, 3) == 2,
        rows_per_strip(9) == 4096,
        rows_per_strip(32768) == 2,
    ];
    check(&rt, &cut);
}

// The tail comes after the front and a packed row of two bytes.
#[test]
fn writes_the_tail_of_one_strip(rt: HostRuntime) {
    let tail = tail_of(&rt, 4, 1, &[2], Tail { len: 166, at: 10 });
    check(&rt, &[tail.starts_with(&PLATE[10..])]);
}

#[test]
fn begins_at_an_even_place(rt: HostRuntime) {
    let tail = tail_of(&rt, 9, 1, &[3], Tail { len: 167, at: 12 });
    check(&rt, &[tail.starts_with(&[0, 0x0C, 0, 0x00, 1])]);
}

#[test]
fn writes_the_table_of_two_strips(rt: HostRuntime) {
    let tail = tail_of(&rt, 32768, 3, &[128, 64], Tail { len: 182, at: 200 });
    let offsets = tail[62..].starts_with(&[0x11, 1, 4, 0, 2, 0, 0, 0, 0x6E, 1, 0, 0]);
    let values = tail[166..] == [8, 0, 0, 0, 136, 0, 0, 0, 128, 0, 0, 0, 64, 0, 0, 0, 0xEE];
    check(&rt, &[offsets, values]);
}
