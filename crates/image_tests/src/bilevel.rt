// A bilevel image of 8 by 2 pixels, as linework and as a mask, and the results of its tests after a byte is
// changed.
ghost use Rattle.std.specs.Prelude.{◌≡◌};
ghost use Rattle.tif_strips.specs.Strips.{row_length};

use crate::strips::{BITS, has_rows};
use pr_base::{FaultKind, TagFault};
use std::alloc::Global;
use std::process::Abort;
use std::thread::Threads;
use tif_image::{Bilevel, BilevelUse, Usage, test_image};
use tif_strips::Shape;
use worked_files::{LINE, changed};

// Returns the shape or the fault that the tests of a file give.
fn answer(bytes: &[u8], usage: BilevelUse) -> Result<Shape, TagFault> {
    Ok(Bilevel::check(bytes, usage)?.shape())
}

// Asserts that the file with these changes is rejected with this fault.
fn assert_refused(
    rt: &impl Abort,
    changes: &[(usize, u8)],
    usage: BilevelUse,
    tag: u16,
    kind: FaultKind,
) {
    let bytes = changed(LINE, changes);
    assert!(rt;
        answer(&bytes, usage) == Err(TagFault { tag, kind }),
        "tag {tag}: {changes:?}"
    );
}

// Returns the marked pixels of a row; the first is the highest bit.
fn marks(image: &Bilevel<'_>, row: [u8; 1]) -> u8
    requires width { image.now.shape.width ≡ 8 }
    requires row { row_length image.now.shape ≡ 1 }
{
    let mut marks = 0;
    for x in 0..8 {
        marks = marks << 1 | u8::from(image.marked(&row, x));
    }
    marks
}

// Asserts that the file with these changes has two rows of the byte AA, and that these of their pixels are
// marked, also when it is opened again without tests.
fn assert_image<T: Abort + Threads + Sync>(
    rt: &T,
    alloc: Global,
    changes: &[(usize, u8)],
    usage: BilevelUse,
    marked: u8,
) {
    let bytes = changed(LINE, changes);
    let image = Bilevel::check(&bytes, usage).expect(rt, "no image");
    assert!(rt; shows(&image, marked));
    let found = test_image(rt, alloc, &bytes, Usage::Bilevel(usage)).expect(rt, "no image");
    assert!(rt; shows(&Bilevel::of_tested(&bytes, usage, &found), marked));
}

fn shows(image: &Bilevel<'_>, marked: u8) -> bool {
    image.width() == 8
        && image.length() == 2
        && has_rows(image.rows(), &[[0xaa], [0xaa]])
        && marks(image, [0xaa]) == marked
}

#[test]
fn gives_rows_and_marks(rt: HostRuntime) {
    // PhotometricInterpretation 0, 1 and 4.
    for (photometric, usage, marked) in [
        (0, BilevelUse::Line, 0xaa),
        (1, BilevelUse::Line, 0x55),
        (0, BilevelUse::Mask, 0xaa),
        (1, BilevelUse::Mask, 0x55),
        (4, BilevelUse::Mask, 0xaa),
    ] {
        assert_image(&rt, rt.alloc(), &[(66, photometric)], usage, marked);
    }
}

#[test]
fn keeps_its_shape(rt: HostRuntime) {
    for usage in [BilevelUse::Line, BilevelUse::Mask] {
        assert!(rt; answer(&LINE, usage) == Ok(BITS));
    }
}

#[test]
fn names_the_first_test_that_fails(rt: HostRuntime) {
    use FaultKind::*;

    const CASES: [(&[(usize, u8)], u16, FaultKind); 18] = [
        (&[(2, 43)], 0, Header),
        (&[(8, 0)], 0, Directory),
        // The entry of 279 becomes the entry of a tile field.
        (&[(106, 0x42), (18, 0)], 322, Tiled),
        (&[(18, 0), (30, 0)], 256, Width),
        (&[(30, 0), (90, 4)], 257, Length),
        (&[(90, 4), (42, 8)], 277, Samples),
        (&[(42, 8), (54, 4)], 258, Bits),
        (&[(54, 4), (66, 5)], 259, Compression),
        (&[(66, 5)], 262, Photometric),
        (&[(66, 2)], 262, Photometric),
        // The entry of 258 becomes that of a field missing from the file; without 258 a sample has one bit.
        (&[(34, 0x0a), (42, 2)], 266, FillOrder),
        (&[(34, 0x12), (42, 2)], 274, Orientation),
        (&[(34, 0x1c), (42, 3)], 284, Planar),
        (&[(102, 0), (70, 0x10)], 278, RowsPerStrip),
        (&[(70, 0x10)], 273, Missing),
        (&[(106, 0x18)], 279, Missing),
        (&[(78, 123)], 273, StripPlace),
        (&[(122, 0)], 273, Short),
    ];
    for (changes, tag, kind) in CASES {
        assert_refused(&rt, changes, BilevelUse::Line, tag, kind);
        assert_refused(&rt, changes, BilevelUse::Mask, tag, kind);
    }
    // An image whose photometric interpretation makes it a mask is not linework.
    assert_refused(&rt, &[(66, 4)], BilevelUse::Line, 262, Photometric);
}

#[test]
fn passes_over_other_fields(rt: HostRuntime) {
    let cases: [&[(usize, u8)]; 4] = [
        // InkSet 2, an InkSet that cannot be read, and a DotRange of one value.
        &[(34, 0x4c), (42, 2)],
        &[(34, 0x4c), (36, 5)],
        &[(34, 0x50)],
        // Without the field a sample has one bit.
        &[(34, 0xff)],
    ];
    for changes in cases {
        assert_as_whole(&rt, changes, BilevelUse::Line);
        assert_as_whole(&rt, changes, BilevelUse::Mask);
    }
}

fn assert_as_whole(rt: &impl Abort, changes: &[(usize, u8)], usage: BilevelUse) {
    let bytes = changed(LINE, changes);
    assert!(rt;
        answer(&bytes, usage) == answer(&LINE, usage),
        "{changes:?}"
    );
}

#[test]
fn takes_one_sample_in_a_plane(rt: HostRuntime) {
    // PlanarConfiguration 2 with one sample: one plane.
    assert_image(
        &rt,
        rt.alloc(),
        &[(34, 0x1c), (42, 2)],
        BilevelUse::Line,
        0xaa,
    );
}
