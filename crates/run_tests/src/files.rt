// Images of a few pixels.
ghost use Rattle.tif_make.specs.Form.{IsForm};
ghost use Rattle.tif_make.specs.Made.{HasRows};

use std::process::Abort;
use test_room::{FORM, SAMPLES};
use tif_make::{ImageForm, Kind, make_image};

/// Makes the file of an image.
pub fn image<R: Abort + AllocGlobal>(rt: &R, form: &ImageForm, rows: &[u8]) -> Vec<u8>
    requires form { IsForm form.now }
    requires rows { HasRows form.now rows.now }
{
    make_image(rt.alloc(), form, rows).expect(rt, "memory")
}

/// Makes the file of the four pixels.
pub fn four_by_one<R: Abort + AllocGlobal>(rt: &R) -> Vec<u8> {
    image(rt, &FORM, &SAMPLES)
}

/// Makes the file of one pixel.
pub fn pixel<R: Abort + AllocGlobal>(rt: &R, inks: [u8; 4]) -> Vec<u8> {
    image(rt, &ImageForm { width: 1, ..FORM }, &inks)
}

/// Makes the file of linework of 8 by 2 pixels: the left half of row 0 and the right half of row 1.
pub fn spot_line<R: Abort + AllocGlobal>(rt: &R) -> Vec<u8> {
    let form = ImageForm {
        kind: Kind::Line,
        width: 8,
        length: 2,
        rows_per_strip: 2,
        ..FORM
    };
    image(rt, &form, &[0xF0, 0x0F])
}

/// Replaces one byte.
pub fn patch(bytes: &mut [u8], at: usize, with: u8) {
    if let Some(byte) = bytes.get_mut(at) {
        *byte = with;
    }
}
