// Masked linework from each first column and in each width around a block of 64 pixels, compared with a plain
// loop.
ghost use Rattle.std.specs.Prelude.{◌≡◌, ◌<◌, length};

use crate::columns::{Columns, assert_columns};
use page_layers::{Art, Crop, InkRow, Layer};
use pr_base::Ink;
use std::process::Abort;
use tif_image::{Bilevel, BilevelUse};
use tif_make::{ImageForm, Kind, make_image};
use worked_files::FORM;

// A row of 200 pixels whose ones are marked.
const LINE: [u8; 25] = [
    0x5A, 0x00, 0xFF, 0x3C, 0x81, 0xF0, 0x0F, 0x96, 0xC3, 0xFF, 0xFF, 0x18, 0x7E, 0x00, 0x01, 0x80, //
    0xD2, 0x4B, 0x2D, 0xB4, 0xFE, 0x7F, 0x00, 0xA5, 0x69,
];

// A row of 200 pixels whose zeros are marked.
const MASK: [u8; 25] = [
    0x0F, 0x33, 0x00, 0x55, 0xFF, 0x81, 0x3C, 0x00, 0x66, 0x12, 0x00, 0xE7, 0x40, 0xFF, 0x08, 0x7F, //
    0x24, 0x00, 0xC9, 0x05, 0x10, 0xFF, 0xA0, 0x00, 0x42,
];

fn file<R: Abort + AllocGlobal>(rt: &R, row: &[u8]) -> Vec<u8>
    requires { length row.now ≡ 25 }
{
    let form = ImageForm {
        kind: Kind::Line,
        width: 200,
        ..FORM
    };
    make_image(rt.alloc(), &form, row).expect(rt, "memory")
}

// Sets PhotometricInterpretation to 1. It is the fifth entry of the directory, whose entries start at byte
// 10.
fn mark_zeros(rt: &impl Abort, file: &mut [u8]) {
    assert!(rt; file.len() > 66);
    assert!(rt; file[58] == 6 && file[59] == 1 && file[66] == 0);
    file[66] = 1;
}

#[test]
fn rows_begin_and_end_at_any_column(rt: HostRuntime) {
    let line = file(&rt, &LINE);
    let mut mask = file(&rt, &MASK);
    mark_zeros(&rt, &mut mask);
    let row = Marked {
        line: &line,
        mask: &mask,
    };
    for width in 1..131 {
        assert_columns(&rt, &row, width);
    }
}

// The row, black where the line is marked and the mask is too.
#[derive(Drop)]
struct Marked<'a> {
    line: &'a [u8],
    mask: &'a [u8],
}

impl<'a> Columns<'a> for Marked<'a> {
    fn layer(&self, first: u32, width: u32) -> Option<Layer<'a>> {
        Some(Layer {
            art: Art::Line(
                Bilevel::check(self.line, BilevelUse::Line).ok()?,
                [0, 0, 0, 255, 0],
            ),
            mask: Some(Bilevel::check(self.mask, BilevelUse::Mask).ok()?),
            x: 0,
            y: 0,
            scale: 1,
            crop: Crop {
                x: first,
                y: 0,
                width,
                height: 1,
            },
            overprint: false,
        })
    }

    fn is_shown(&self, room: &InkRow, first: u32, _width: u32) -> bool {
        are_marked(room.plane(Ink::K), first as usize)
    }
}

// Whether these values show the row from column `first` on.
fn are_marked(values: &[u8], first: usize) -> bool {
    if first >= 64 || values.len() > 130 {
        return false;
    }
    for x in 0..values.len() {
        let marked = bit(&LINE, first + x) && !bit(&MASK, first + x);
        if values[x] != if marked { 255 } else { 0 } {
            return false;
        }
    }
    true
}

fn bit(row: &[u8; 25], x: usize) -> bool
    requires { x < 200 }
{
    row[x / 8] & (128 >> (x % 8)) != 0
}
