// Small images with their strips, from a directory that has only StripOffsets and StripByteCounts.
ghost use Rattle.std.specs.Prelude.{◌≡◌};
ghost use Rattle.tif_strips.specs.Strips.{IsStriped, row_length};

use pr_base::{FaultKind, TagFault};
use std::alloc::Global;
use std::process::Abort;
use std::thread::Threads;
use tif_dir::read_dir;
use tif_strips::{RowCursor, Shape, Strips};
use worked_files::changed;

/// Eight pixels a row of one bit each; two rows in one packed strip, in `PACKET` a packet at byte 34.
pub const BITS: Shape = Shape {
    width: 8,
    length: 2,
    samples: 1,
    bits: 1,
    planar: 1,
    packed: true,
    rows_per_strip: 2,
};

const PACKET: [u8; 36] = [
    0x49, 0x49, 0x2a, 0x00, 0x08, 0x00, 0x00, 0x00, 0x02, 0x00, // 8: two entries
    0x11, 0x01, 0x04, 0x00, 0x01, 0x00, 0x00, 0x00, 0x22, 0x00, 0x00, 0x00, // 273 LONG 1: 34
    0x17, 0x01, 0x04, 0x00, 0x01, 0x00, 0x00, 0x00, 0x02, 0x00, 0x00, 0x00, // 279 LONG 1: 2
    0xff, 0xaa, // 34
];

/// Four pixels of four inks a row, two rows, a plane for each ink and a strip for each row.
pub const PLANES: Shape = Shape {
    width: 4,
    length: 2,
    samples: 4,
    bits: 8,
    planar: 2,
    packed: false,
    rows_per_strip: 1,
};

/// The pixels of `PLANES` in `EIGHT_STRIPS`.
pub const PLANE_ROWS: [[u8; 16]; 2] = [
    [1, 11, 21, 31, 2, 12, 22, 32, 3, 13, 23, 33, 4, 14, 24, 34],
    [5, 15, 25, 35, 6, 16, 26, 36, 7, 17, 27, 37, 8, 18, 28, 38],
];

/// Two pixels whose samples are side by side, in one strip of more rows than the image has.
pub const SIDE_BY_SIDE: Shape = Shape {
    width: 2,
    length: 1,
    planar: 1,
    rows_per_strip: 4_294_967_295,
    ..PLANES
};

/// Five rows of bits in three strips: the last strip has one.
pub const THREE_STRIPS: Shape = Shape {
    width: 16,
    length: 5,
    samples: 1,
    bits: 1,
    rows_per_strip: 2,
    ..PLANES
};

/// The rows of `THREE_STRIPS` in `EIGHT_STRIPS`.
pub const FIVE_ROWS: [[u8; 2]; 5] = [[1, 2], [3, 4], [5, 6], [7, 8], [11, 12]];

/// The change to `EIGHT_STRIPS` by which its first strip has eight bytes.
pub const LONGER: [(usize, u8); 1] = [(50, 8)];

/// The directory of two fields, and the strips of eight rows.
pub const EIGHT_STRIPS: [u8; 98] = [
    0x4d, 0x4d, 0x00, 0x2a, 0x00, 0x00, 0x00, 0x08, 0x00, 0x02, //
    0x01, 0x11, 0x00, 0x03, 0x00, 0x00, 0x00, 0x08, 0x00, 0x00, 0x00, 0x22, // 273 SHORT 8 at 34
    0x01, 0x17, 0x00, 0x01, 0x00, 0x00, 0x00, 0x08, 0x00, 0x00, 0x00, 0x32, // 279 BYTE 8 at 50
    0, 58, 0, 62, 0, 66, 0, 70, 0, 74, 0, 78, 0, 82, 0, 86, // the offsets
    4, 4, 4, 4, 4, 4, 4, 4, // the sizes
    1, 2, 3, 4, 5, 6, 7, 8, // 58: cyan
    11, 12, 13, 14, 15, 16, 17, 18, // magenta
    21, 22, 23, 24, 25, 26, 27, 28, // yellow
    31, 32, 33, 34, 35, 36, 37, 38, // black
    0, 0, 0, 0, 0, 0, 0, 0,
];

fn check(bytes: &[u8], shape: Shape) -> Result<(), TagFault>
    requires { IsStriped shape }
{
    let dir = read_dir(bytes)?;
    Strips::check(bytes, &dir, shape)?;
    Ok(())
}

// Asserts that the image has exactly these rows.
fn assert_image<const N: usize>(rt: &impl Abort, bytes: &[u8], shape: Shape, rows: &[[u8; N]])
    requires striped { IsStriped shape }
    requires size { row_length shape ≡ N }
{
    let dir = read_dir(bytes).expect(rt, "no directory");
    let strips = Strips::check(bytes, &dir, shape).expect(rt, "no strips");
    assert!(rt; has_rows(strips.rows(), rows));
}

/// Returns whether these rows are left, and no others.
pub fn has_rows<const N: usize>(mut cursor: RowCursor<'_>, rows: &[[u8; N]]) -> bool
    requires { row_length cursor.shape ≡ N }
{
    for row in rows {
        if cursor.left() == 0 {
            return false;
        }
        let mut into = [0xee; N];
        cursor.next_row(&mut into);
        if into != *row {
            return false;
        }
    }
    cursor.left() == 0
}

#[test]
fn packets_cross_rows(rt: HostRuntime) {
    assert_image(&rt, &PACKET, BITS, &[[0xaa], [0xaa]]);
    // FF, 128 times, for a row of four pixels in four inks: what is not needed is ignored.
    let shape = Shape {
        width: 4,
        length: 1,
        samples: 4,
        bits: 8,
        ..BITS
    };
    let bytes = changed(PACKET, &[(34, 0x81), (35, 0xff)]);
    assert_image(&rt, &bytes, shape, &[[0xff; 16]]);
}

#[test]
fn planes_are_joined_pixel_by_pixel(rt: HostRuntime) {
    assert_image(&rt, &EIGHT_STRIPS, PLANES, &PLANE_ROWS);
    let narrow = Shape {
        width: 1,
        length: 2,
        ..SIDE_BY_SIDE
    };
    let bytes = changed(EIGHT_STRIPS, &LONGER);
    assert_image(&rt, &bytes, narrow, &[[1, 2, 3, 4], [5, 6, 7, 8]]);
    assert_image(&rt, &EIGHT_STRIPS, THREE_STRIPS, &FIVE_ROWS);
}

// Returns whether all rows that are left are 64 pixels without ink.
fn is_blank(mut cursor: RowCursor<'_>) -> bool
    requires { row_length cursor.shape ≡ 256 }
{
    for _y in 0..cursor.left() {
        let mut row = [0xee; 256];
        cursor.next_row(&mut row);
        if row != [0; 256] {
            return false;
        }
    }
    cursor.left() == 0
}

// Returns the front of `PACKET` up to its number of bytes, and these bytes after it.
fn with_front<R: Abort + AllocGlobal>(rt: &R, behind: &[u8]) -> Vec<u8> {
    let mut bytes = Vec::from_slice(rt.alloc(), &PACKET[..30]).expect(rt, "memory");
    bytes.extend_from_slice(behind).expect(rt, "memory");
    bytes
}

// Appends 256 packets of three zeros so many times.
fn put_zeros(rt: &impl Abort, bytes: &mut Vec<u8>, times: u32) {
    let mut packets = [0; 512];
    for i in 0..256 {
        packets[2 * i] = 0xfe;
    }
    for _time in 0..times {
        bytes.extend_from_slice(&packets).expect(rt, "memory");
    }
}

// One packed strip of 65,535 rows of 64 pixels in four inks.
const HIGH: Shape = Shape {
    width: 64,
    length: 65_535,
    samples: 4,
    bits: 8,
    rows_per_strip: 65_535,
    ..BITS
};

// Asserts that this strip is blank.
fn assert_blank(rt: &impl Abort, bytes: &[u8]) {
    let dir = read_dir(bytes).expect(rt, "no directory");
    let strips = Strips::check(bytes, &dir, HIGH).expect(rt, "no strips");
    assert!(rt; is_blank(strips.rows()));
}

#[test]
fn long_strip_is_expanded_once(rt: HostRuntime) {
    // 5,592,320 packets of three zeros. StripByteCounts is 11,184,640.
    let mut bytes = with_front(&rt, &[0x00, 0xaa, 0xaa, 0x00]);
    put_zeros(&rt, &mut bytes, 21_845);
    assert_blank(&rt, &bytes);
}

// Asserts that the tests of a file with these changes find this fault first.
fn assert_fault<const N: usize>(
    rt: &impl Abort,
    file: [u8; N],
    changes: &[(usize, u8)],
    shape: Shape,
    fault: TagFault,
)
    requires { IsStriped shape }
{
    let bytes = changed(file, changes);
    assert!(rt; check(&bytes, shape) == Err(fault), "{changes:?}");
}

#[test]
fn first_fault_is_told(rt: HostRuntime) {
    use FaultKind::{FieldType, Missing, Short, StripPlace};

    assert!(&rt; check(&PACKET, BITS) == Ok(()));
    for (change, tag, kind) in &[
        ((34, 0x00), 273, Short),
        ((18, 0x23), 273, StripPlace),
        ((10, 0x00), 273, Missing),
        ((22, 0x00), 279, Missing),
        ((24, 0x05), 279, FieldType),
    ] {
        let (tag, kind) = (*tag, *kind);
        assert_fault(&rt, PACKET, &[*change], BITS, TagFault { tag, kind });
    }
}

#[test]
fn first_fault_of_eight_strips_is_told(rt: HostRuntime) {
    use FaultKind::{FieldCount, Short, StripPlace};

    let cases: [(&[(usize, u8)], FaultKind); 3] = [
        (&[(17, 7)], FieldCount),
        // The first strip is short, and the second is past the end of the file.
        (&[(50, 3), (36, 1)], Short),
        (&[(50, 4), (36, 1)], StripPlace),
    ];
    for (changes, kind) in cases {
        assert_fault(
            &rt,
            EIGHT_STRIPS,
            changes,
            PLANES,
            TagFault { tag: 273, kind },
        );
    }
}

// Whether the tests by this many threads find this fault first, or none, in the eight strips with these bytes
// changed. They are not packed, and have no marks.
#[tactic(auto, unfolding(tif_strips::specs::Marks::marks_per_strip))]
fn finds<T: Threads + Sync>(
    rt: &T,
    threads: usize,
    changes: &[(usize, u8)],
    fault: Option<FaultKind>,
) -> bool {
    let bytes = changed(EIGHT_STRIPS, changes);
    let Ok(dir) = read_dir(&bytes) else {
        return false;
    };
    let found = match Strips::check_wide(rt, threads, &bytes, &dir, PLANES, &mut []) {
        Ok(_strips) => None,
        Err(found) => Some(found.kind),
    };
    found == fault
}

// Strip 1 is tested by another thread than strip 7, and its fault comes first.
#[test]
fn first_fault_is_found_by_several_threads(rt: HostRuntime) {
    use FaultKind::{Short, StripPlace};

    let cases: [(&[(usize, u8)], Option<FaultKind>); 5] = [
        (&[], None),
        (&[(57, 3)], Some(Short)),
        (&[(48, 1)], Some(StripPlace)),
        (&[(36, 1), (57, 3)], Some(StripPlace)),
        (&[(51, 3), (48, 1)], Some(Short)),
    ];
    for threads in 1..9 {
        for (changes, fault) in cases {
            assert!(&rt;
                finds(&rt, threads, changes, fault),
                "{threads} threads, {changes:?}"
            );
        }
    }
}

// One packed strip of 200 rows, each of one byte.
const LONG: Shape = Shape {
    length: 200,
    rows_per_strip: 200,
    ..BITS
};

// Asserts that rows 64, 128 and 192 of this strip have these marks, and that rows behind them are read.
fn assert_marks<T: Abort + Threads + Sync>(
    rt: &T,
    alloc: Global,
    bytes: &[u8],
    expected: [u32; 3],
) {
    let dir = read_dir(bytes).expect(rt, "no directory");
    let mut marks = [0; 3];
    let strips = Strips::check_wide(rt, 1, bytes, &dir, LONG, &mut marks).expect(rt, "no strips");
    assert!(rt; marks == expected);
    let extents = strips.extents(alloc).expect(rt, "memory");
    let tested = Strips::of_tested(bytes, LONG, extents.as_slice(), &marks);
    assert!(rt; has_row_150(tested.rows()));
}

// Returns whether row 150 of this strip is the byte 150.
fn has_row_150(mut cursor: RowCursor<'_>) -> bool
    requires shape { cursor.shape ≡ LONG }
    requires top { cursor.next ≡ 0 }
{
    cursor.skip_rows(150);
    let mut row = [0xee];
    cursor.next_row(&mut row);
    row == [150]
}

// Appends the rows of this strip from row `y` on, each as a literal packet.
fn put_rows(rt: &impl Abort, bytes: &mut Vec<u8>, y: u8) {
    for y in y..200 {
        bytes.extend_from_slice(&[0x00, y]).expect(rt, "memory");
    }
}

#[test]
fn long_strip_is_marked(rt: HostRuntime) {
    // StripByteCounts is 400.
    let mut bytes = with_front(&rt, &[0x90, 0x01, 0x00, 0x00]);
    put_rows(&rt, &mut bytes, 0);
    assert_marks(&rt, rt.alloc(), &bytes, [128, 256, 384]);
}

// Appends the first 128 rows of this strip, which a literal packet's header precedes.
fn put_literal(rt: &impl Abort, bytes: &mut Vec<u8>) {
    for y in 0..128 {
        bytes.push(y).expect(rt, "memory");
    }
}

// The first packet has 128 rows, so row 64 begins within it.
#[test]
fn row_within_a_packet_has_no_mark(rt: HostRuntime) {
    // StripByteCounts is 273.
    let mut bytes = with_front(&rt, &[0x11, 0x01, 0x00, 0x00, 0x7f]);
    put_literal(&rt, &mut bytes);
    put_rows(&rt, &mut bytes, 128);
    assert_marks(&rt, rt.alloc(), &bytes, [0, 129, 257]);
}
