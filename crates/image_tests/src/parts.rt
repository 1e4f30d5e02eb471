// Parts of rows: the bytes of each run of columns, after rows that are skipped.
ghost use Rattle.std.specs.Prelude.{◌≡◌, ◌+◌, ◌<◌, ◌≤◌};
ghost use Rattle.tif_strips.specs.Strips.{IsStriped, planes};

use crate::strips::{
    EIGHT_STRIPS, FIVE_ROWS, LONGER, PLANE_ROWS, PLANES, SIDE_BY_SIDE, THREE_STRIPS,
};
use std::process::Abort;
use tif_dir::read_dir;
use tif_strips::{RowCursor, Shape, Strips};
use worked_files::changed;

// Sixteen samples in one packed strip: six literal bytes, 7 four times, and six literal bytes.
const PACKED: [u8; 50] = [
    0x49, 0x49, 0x2a, 0x00, 0x08, 0x00, 0x00, 0x00, 0x02, 0x00, // 8: two entries
    0x11, 0x01, 0x04, 0x00, 0x01, 0x00, 0x00, 0x00, 0x22, 0x00, 0x00, 0x00, // 273 LONG 1: 34
    0x17, 0x01, 0x04, 0x00, 0x01, 0x00, 0x00, 0x00, 0x10, 0x00, 0x00, 0x00, // 279 LONG 1: 16
    5, 1, 2, 3, 4, 5, 6, 0xfd, 7, 5, 11, 12, 13, 14, 15, 16, // 34
];

// Asserts each part of these rows, from each column on.
fn assert_parts<const N: usize>(rt: &impl Abort, bytes: &[u8], shape: Shape, rows: &[[u8; N]])
    requires { IsStriped shape }
{
    let dir = read_dir(bytes).expect(rt, "no directory");
    let strips = Strips::check(bytes, &dir, shape).expect(rt, "no strips");
    for first in 0..shape.width {
        assert!(rt;
            has_parts_from(&strips, shape, first, rows),
            "from column {first}"
        );
    }
}

// Returns whether an image has each part of these rows from this column on.
fn has_parts_from<const N: usize>(
    strips: &Strips<'_>,
    shape: Shape,
    first: u32,
    rows: &[[u8; N]],
) -> bool
    requires shape { strips.now.shape ≡ shape }
    requires within { (first < shape.width) × (shape.width ≤ 65535) }
{
    for count in 1..shape.width - first + 1 {
        let columns = columns_of(shape, first, count);
        for above in 0..rows.len() {
            if !has_part_behind(strips.rows(), above, columns, &rows[above..]) {
                return false;
            }
        }
    }
    true
}

// Columns of a row, and where their bytes begin and end in it.
#[derive(Clone, Copy)]
struct Columns {
    first: u32,
    count: u32,
    from: usize,
    to: usize,
}

fn columns_of(shape: Shape, first: u32, count: u32) -> Columns
    requires within { (1 ≤ count) × (first + count ≤ 65535) }
    ensures first { result.first ≡ first }
    ensures count { result.count ≡ count }
{
    let (left, right) = (first as usize, (first + count - 1) as usize);
    let (from, to) = if shape.samples == 4 {
        (4 * left, 4 * right + 4)
    } else {
        (left / 8, right / 8 + 1)
    };
    Columns {
        first,
        count,
        from,
        to,
    }
}

// Skips so many rows in two steps, and returns whether these columns of the rows that are left are those of
// `rows`.
fn has_part_behind<const N: usize>(
    mut cursor: RowCursor<'_>,
    above: usize,
    columns: Columns,
    rows: &[[u8; N]],
) -> bool
    requires { columns.first + columns.count ≤ cursor.shape.width }
{
    if above > cursor.left() as usize {
        return false;
    }
    let half = above as u32 / 2;
    cursor.skip_rows(half);
    cursor.skip_rows(above as u32 - half);
    has_part(cursor, columns, rows)
}

// Returns whether these rows are left and no others, and these columns of each have its bytes.
fn has_part<const N: usize>(mut cursor: RowCursor<'_>, columns: Columns, rows: &[[u8; N]]) -> bool
    requires { columns.first + columns.count ≤ cursor.shape.width }
{
    for row in rows {
        let len = cursor.part_len(columns.first, columns.count);
        if cursor.left() == 0 || len > N {
            return false;
        }
        let mut into = [0xee; N];
        cursor.next_part(columns.first, columns.count, &mut into[..len]);
        if row.get(columns.from..columns.to) != Some(&into[..len]) {
            return false;
        }
    }
    cursor.left() == 0
}

// Returns whether columns 1 to 3 of cyan, 1 and 2 of magenta and 1 of black in the next row are these.
fn has_some_columns(cursor: &mut RowCursor<'_>) -> bool
    requires left { cursor.old.next < cursor.old.shape.length }
    requires planes { planes cursor.old.shape ≡ 4 }
    requires width { cursor.old.shape.width ≡ 4 }
    ensures { cursor.new ≡ record cursor.old { next = cursor.old.next + 1 } }
{
    let (mut cyan, mut magenta, mut yellow, mut black) = ([0; 3], [0; 2], [0; 0], [0; 1]);
    cursor.next_planes(1, &mut cyan, &mut magenta, &mut yellow, &mut black);
    cyan == [2, 3, 4] && magenta == [12, 13] && black == [32]
}

// Returns whether all columns of the next row are these.
fn has_all_columns(cursor: &mut RowCursor<'_>) -> bool
    requires left { cursor.old.next < cursor.old.shape.length }
    requires planes { planes cursor.old.shape ≡ 4 }
    requires width { cursor.old.shape.width ≡ 4 }
{
    let (mut cyan, mut magenta, mut yellow, mut black) = ([0; 4], [0; 4], [0; 4], [0; 4]);
    cursor.next_planes(0, &mut cyan, &mut magenta, &mut yellow, &mut black);
    [cyan, magenta, yellow, black]
        == [
            [5, 6, 7, 8],
            [15, 16, 17, 18],
            [25, 26, 27, 28],
            [35, 36, 37, 38],
        ]
}

fn has_columns(mut cursor: RowCursor<'_>) -> bool
    requires { cursor.shape ≡ PLANES }
{
    cursor.has_planes()
        && cursor.left() == 2
        && has_some_columns(&mut cursor)
        && has_all_columns(&mut cursor)
        && cursor.left() == 0
}

#[test]
fn columns_of_each_plane(rt: HostRuntime) {
    let dir = read_dir(&EIGHT_STRIPS).expect(&rt, "no directory");
    let strips = Strips::check(&EIGHT_STRIPS, &dir, PLANES).expect(&rt, "no strips");
    assert!(&rt; has_columns(strips.rows()));
}

#[test]
fn parts_of_one_plane(rt: HostRuntime) {
    assert_parts(&rt, &EIGHT_STRIPS, THREE_STRIPS, &FIVE_ROWS);
    let bytes = changed(EIGHT_STRIPS, &LONGER);
    assert_parts(&rt, &bytes, SIDE_BY_SIDE, &[[1, 2, 3, 4, 5, 6, 7, 8]]);
}

#[test]
fn parts_of_packed_rows(rt: HostRuntime) {
    let rows = [[1, 2, 3, 4, 5, 6, 7, 7], [7, 7, 11, 12, 13, 14, 15, 16]];
    let inks = Shape {
        length: 2,
        packed: true,
        ..SIDE_BY_SIDE
    };
    assert_parts(&rt, &PACKED, inks, &rows);
    let bits = Shape {
        width: 64,
        samples: 1,
        bits: 1,
        ..inks
    };
    assert_parts(&rt, &PACKED, bits, &rows);
}

// The first byte of each of the eight strips becomes the header of three literal bytes.
const HEADS: [(usize, u8); 8] = [
    (58, 2),
    (62, 2),
    (66, 2),
    (70, 2),
    (74, 2),
    (78, 2),
    (82, 2),
    (86, 2),
];

#[test]
fn parts_of_four_planes(rt: HostRuntime) {
    assert_parts(&rt, &EIGHT_STRIPS, PLANES, &PLANE_ROWS);
    let packed = Shape {
        width: 3,
        packed: true,
        ..PLANES
    };
    let rows = [
        [2, 12, 22, 32, 3, 13, 23, 33, 4, 14, 24, 34],
        [6, 16, 26, 36, 7, 17, 27, 37, 8, 18, 28, 38],
    ];
    assert_parts(&rt, &changed(EIGHT_STRIPS, &HEADS), packed, &rows);
}
