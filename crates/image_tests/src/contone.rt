// A contone image of 4 by 1 pixels, the results of its tests after a byte is changed, and the same image
// written in other ways.
use crate::strips;
use crate::strips::has_rows;
use pr_base::{FaultKind, TagFault};
use std::alloc::Global;
use std::process::Abort;
use std::thread::Threads;
use tif_image::{Contone, Usage, test_image};
use tif_strips::Shape;
use worked_files::{LEAST_FIRST, MOST_FIRST, PLANES, SAMPLES, changed};

// Packed samples: 16 header bytes that expand to nothing.
const NOTHING: [(usize, u8); 18] = [
    (54, 5),
    (55, 0x80),
    (130, 0x80),
    (131, 0x80),
    (132, 0x80),
    (133, 0x80),
    (134, 0x80),
    (135, 0x80),
    (136, 0x80),
    (137, 0x80),
    (138, 0x80),
    (139, 0x80),
    (140, 0x80),
    (141, 0x80),
    (142, 0x80),
    (143, 0x80),
    (144, 0x80),
    (145, 0x80),
];

// Returns the shape or the fault that the tests of a file give.
fn answer(bytes: &[u8]) -> Result<Shape, TagFault> {
    Ok(Contone::check(bytes)?.shape())
}

// Asserts that the file with these changes is rejected with this fault.
fn assert_refused(rt: &impl Abort, changes: &[(usize, u8)], tag: u16, kind: FaultKind) {
    let bytes = changed(LEAST_FIRST, changes);
    assert!(rt;
        answer(&bytes) == Err(TagFault { tag, kind }),
        "tag {tag}: {changes:?}"
    );
}

// Asserts that an image 4 pixels wide has exactly these rows, also when it is opened again without tests.
fn assert_image<T: Abort + Threads + Sync>(rt: &T, alloc: Global, bytes: &[u8], rows: &[[u8; 16]]) {
    let image = Contone::check(bytes).expect(rt, "no image");
    assert!(rt; shows(&image, rows));
    let found = test_image(rt, alloc, bytes, Usage::Contone).expect(rt, "no image");
    assert!(rt; shows(&Contone::of_tested(bytes, &found), rows));
}

fn shows(image: &Contone<'_>, rows: &[[u8; 16]]) -> bool {
    image.width() == 4 && image.length() as usize == rows.len() && has_rows(image.rows(), rows)
}

#[test]
fn takes_both_orders(rt: HostRuntime) {
    let shape = Shape {
        length: 1,
        planar: 1,
        ..strips::PLANES
    };
    for bytes in [LEAST_FIRST, MOST_FIRST] {
        assert!(rt; answer(&bytes) == Ok(shape));
        assert_image(&rt, rt.alloc(), &bytes, &[SAMPLES]);
    }
}

#[test]
fn refuses_each_front(rt: HostRuntime) {
    use FaultKind::{Directory, FieldPlace, Header, StripPlace};

    for len in 0..146 {
        let front = LEAST_FIRST.get(..len).expect(&rt, "a part");
        let (tag, kind) = match len {
            0..=7 => (0, Header),
            8..=117 => (0, Directory),
            118..=129 => (258, FieldPlace),
            _ => (273, StripPlace),
        };
        assert!(rt; answer(front) == Err(TagFault { tag, kind }), "{len} bytes");
    }
}

#[test]
fn names_the_first_test_that_fails(rt: HostRuntime) {
    use FaultKind::*;

    const CASES: [(&[(usize, u8)], u16, FaultKind); 48] = [
        (&[(1, 0x4d)], 0, Header),
        (&[(2, 43)], 0, Header),
        (&[(8, 255), (9, 255)], 0, Directory),
        // The entry of 259 becomes the entry of a tile field; in the last two of these six cases so does that
        // of 257.
        (&[(46, 0x42)], 322, Tiled),
        (&[(46, 0x43)], 323, Tiled),
        (&[(46, 0x44), (48, 5)], 324, Tiled),
        (&[(46, 0x45), (18, 0)], 325, Tiled),
        (&[(46, 0x45), (22, 0x44)], 324, Tiled),
        (&[(46, 0x42), (22, 0x45)], 322, Tiled),
        (&[(10, 2)], 256, Missing),
        (&[(12, 5)], 256, FieldType),
        (&[(17, 1)], 256, FieldPlace),
        (&[(14, 0)], 256, FieldCount),
        (&[(18, 0)], 256, Width),
        (&[(18, 0), (20, 1)], 256, Width),
        (&[(18, 0), (30, 0)], 256, Width),
        (&[(30, 0)], 257, Length),
        (&[(30, 0), (32, 1), (90, 5)], 257, Length),
        (&[(90, 5)], 277, Samples),
        (&[(90, 3), (38, 3)], 277, Samples),
        // Without the field a pixel has one sample.
        (&[(82, 0x18)], 277, Samples),
        (&[(38, 3)], 258, FieldCount),
        (&[(128, 16)], 258, Bits),
        // Without the field a sample has one bit.
        (&[(34, 0x18)], 258, Bits),
        (&[(122, 1), (54, 5)], 258, Bits),
        (&[(54, 5)], 259, Compression),
        (&[(54, 5), (66, 2)], 259, Compression),
        (&[(58, 7)], 262, Missing),
        (&[(66, 2)], 262, Photometric),
        // The entry of 259 becomes that of a field missing from the file.
        (&[(46, 0x0a), (54, 2)], 266, FillOrder),
        (&[(46, 0x12), (54, 2)], 274, Orientation),
        (&[(46, 0x1c), (54, 3)], 284, Planar),
        (&[(46, 0x1c), (54, 0), (102, 0)], 284, Planar),
        (&[(46, 0x4c), (54, 2)], 332, InkSet),
        (&[(46, 0x50)], 336, FieldCount),
        (&[(46, 0x50), (50, 0)], 336, FieldCount),
        (&[(46, 0x50), (50, 2), (54, 0), (56, 254)], 336, DotRange),
        // A DotRange of three bytes, and one of eight bytes of the samples.
        (
            &[(46, 0x50), (48, 1), (50, 3), (54, 0), (55, 255)],
            336,
            DotRange,
        ),
        (&[(46, 0x50), (48, 1), (50, 8), (54, 130)], 336, DotRange),
        (&[(102, 0)], 278, RowsPerStrip),
        (
            &[(74, 255), (75, 255), (76, 255), (77, 255)],
            273,
            FieldPlace,
        ),
        (&[(106, 0x18)], 279, Missing),
        (&[(78, 0xe8), (79, 3)], 273, StripPlace),
        (&[(78, 131)], 273, StripPlace),
        (&[(114, 15)], 273, Short),
        (
            &[
                (78, 255),
                (79, 255),
                (80, 255),
                (81, 255),
                (114, 255),
                (115, 255),
                (116, 255),
                (117, 255),
            ],
            273,
            StripPlace,
        ),
        (&NOTHING, 273, Short),
        (&[(114, 17)], 273, StripPlace),
    ];
    for (changes, tag, kind) in CASES {
        assert_refused(&rt, changes, tag, kind);
    }
}

#[test]
fn takes_packed_samples(rt: HostRuntime) {
    // 255, 128 times, of which 16 are needed.
    let packed = changed(
        LEAST_FIRST,
        &[(54, 5), (55, 0x80), (114, 2), (130, 0x81), (131, 0xff)],
    );
    let front = packed.get(..132).expect(&rt, "a part");
    assert_image(&rt, rt.alloc(), front, &[[255; 16]]);
}

#[test]
fn takes_other_fields(rt: HostRuntime) {
    let cases: [&[(usize, u8)]; 3] = [
        // The entry of 259 becomes one of 336: the values 0 and 255, and then eight bytes of the samples.
        &[(46, 0x50), (50, 2), (54, 0), (56, 255)],
        &[
            (46, 0x50),
            (48, 1),
            (50, 8),
            (54, 130),
            (131, 255),
            (133, 255),
            (135, 255),
            (137, 255),
        ],
        // The entry of 257 becomes one of 256, and that of 256 one of 257.
        &[(10, 1), (18, 1), (22, 0), (30, 4)],
    ];
    for changes in cases {
        let bytes = changed(LEAST_FIRST, changes);
        assert!(rt; answer(&bytes) == answer(&LEAST_FIRST), "{changes:?}");
    }
}

#[test]
fn takes_planes(rt: HostRuntime) {
    let rows = [
        [
            10, 20, 30, 40, 11, 21, 31, 41, 12, 22, 32, 42, 13, 23, 33, 43,
        ],
        [
            14, 24, 34, 44, 15, 25, 35, 45, 16, 26, 36, 46, 17, 27, 37, 47,
        ],
    ];
    assert_image(&rt, rt.alloc(), &PLANES, &rows);
}
