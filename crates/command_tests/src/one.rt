// The plates that `one` prints, byte for byte.
use crate::files::{append, blacks, four_by_one, image, patch, plain, plate_of};
use crate::room::{ONE, does};
use std::process::Abort;
use std::thread::Threads;
use std::time::Clock;
use test_room::{CALM, Ended, FORM, Held, PLATE};
use tif_make::{Compression, ImageForm, Order, Planar};

// Asserts that `one` prints this plate of this file, and reports nothing.
fn assert_prints<R: Abort + AllocGlobal + Threads + Clock + Sync>(
    rt: &R,
    file: &[u8],
    plate: &[u8],
) {
    let want = Ended {
        status: 0,
        out: plate,
        line: "",
    };
    assert!(rt; does(rt, &ONE, Held::Bytes(file), CALM, &want));
}

// The forms of a file: plain, packed, planar, and most significant byte first.
const FORMS: [(Order, Planar, Compression); 4] = [
    (Order::Little, Planar::Chunky, Compression::Uncompressed),
    (Order::Little, Planar::Chunky, Compression::PackBits),
    (Order::Little, Planar::Separate, Compression::Uncompressed),
    (Order::Big, Planar::Chunky, Compression::Uncompressed),
];

#[test]
fn prints_the_smallest_plate_from_each_form(rt: HostRuntime) {
    for (order, planar, compression) in FORMS {
        let file = four_by_one(&rt, order, planar, compression);
        assert_prints(&rt, &file, &PLATE);
    }
}

// 9 by 1 pixels, all black: two bytes per row, the second padded, and a pad byte before the directory.
#[test]
fn prints_a_padded_row(rt: HostRuntime) {
    let changes: [(usize, &[u8]); 6] = [
        (4, &[12]),
        (22, &[9]),
        (106, &[0, 16]),
        (118, &[3]),
        (130, &[0xA2]),
        (142, &[0xAA]),
    ];
    let plate = plate_of(&rt, &[(1, [1, 0xFF]), (1, [0x80, 0])], &[], &changes);
    let form = ImageForm { width: 9, ..FORM };
    let file = image(&rt, &form, &blacks(&rt, 9, 255));
    assert_prints(&rt, &file, &plate);
}

// 32,768 by 3 pixels without ink: rows of 4,096 bytes, packed to 64 bytes, in two strips.
#[test]
fn prints_white_in_two_strips(rt: HostRuntime) {
    let table = [8, 0, 0, 0, 136, 0, 0, 0, 128, 0, 0, 0, 64, 0, 0, 0];
    let changes: [(usize, &[u8]); 8] = [
        (4, &[200]),
        (210, &[0, 0x80]),
        (222, &[3]),
        (266, &[2, 0, 0, 0, 0x6E, 1]),
        (294, &[2, 0]),
        (302, &[2, 0, 0, 0, 0x76, 1]),
        (318, &[0x5E, 1]),
        (330, &[0x66, 1]),
    ];
    let plate = plate_of(&rt, &[(96, [0x81, 0])], &table, &changes);
    let form = ImageForm {
        width: 32_768,
        length: 3,
        ..FORM
    };
    let file = image(&rt, &form, &blacks(&rt, 3 * 32_768, 0));
    assert_prints(&rt, &file, &plate);
}

// 65,535 by 2 pixels, all black: one strip for each row of 8,192 bytes, packed to 130 bytes.
#[test]
fn prints_the_widest_plate(rt: HostRuntime) {
    let rows = [
        (63, [0x81, 0xFF]),
        (1, [0x82, 0xFF]),
        (1, [0, 0xFE]),
        (63, [0x81, 0xFF]),
        (1, [0x82, 0xFF]),
        (1, [0, 0xFE]),
    ];
    let table = [8, 0, 0, 0, 138, 0, 0, 0, 130, 0, 0, 0, 130, 0, 0, 0];
    let changes: [(usize, &[u8]); 8] = [
        (4, &[12, 1]),
        (278, &[0xFF, 0xFF]),
        (290, &[2]),
        (334, &[2, 0, 0, 0, 0xB2, 1]),
        (362, &[1, 0]),
        (370, &[2, 0, 0, 0, 0xBA, 1]),
        (386, &[0xA2, 1]),
        (398, &[0xAA, 1]),
    ];
    let plate = plate_of(&rt, &rows, &table, &changes);
    let form = ImageForm {
        width: 65_535,
        length: 2,
        ..FORM
    };
    let file = image(&rt, &form, &blacks(&rt, 2 * 65_535, 255));
    assert_prints(&rt, &file, &plate);
}

// The nine directory entries in reverse order.
#[test]
fn reads_entries_in_any_order(rt: HostRuntime) {
    let file = plain(&rt);
    assert!(rt; file.len() == 146);
    let (front, rest) = file.as_slice().split_at(10);
    let (entries, back) = rest.split_at(108);
    let mut turned = Vec::new(rt.alloc());
    append(&rt, &mut turned, front);
    for entry in entries.chunks_exact(12).rev() {
        append(&rt, &mut turned, entry);
    }
    append(&rt, &mut turned, back);
    assert_prints(&rt, &turned, &PLATE);
}

// Two entries of ImageWidth, of which the first counts. The other replaces Compression, whose default is 1.
#[test]
fn takes_the_first_entry(rt: HostRuntime) {
    let mut file = plain(&rt);
    patch(&mut file, &[(46, &[0x00, 1, 4, 0, 1, 0, 0, 0, 9])]);
    assert_prints(&rt, &file, &PLATE);
}
