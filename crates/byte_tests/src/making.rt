// Generated files compared with their bytes, worked out by hand: one in one strip in both byte orders, one in
// planes, one packed.
ghost use Rattle.tif_make.specs.Form.{IsForm};
ghost use Rattle.tif_make.specs.Made.{HasRows};

use crate::checks::check;
use std::process::Abort;
use tif_make::{Compression, ImageForm, Kind, Order, Planar, make_image};
use worked_files::{FORM, LEAST_FIRST, MOST_FIRST, PACKED_LINE, PLANES_MOST_FIRST, SAMPLES};

fn made<R: Abort + AllocGlobal>(rt: &R, form: &ImageForm, rows: &[u8]) -> Vec<u8>
    requires form { IsForm form.now }
    requires rows { HasRows form.now rows.now }
{
    make_image(rt.alloc(), form, rows).expect(rt, "memory")
}

#[test]
fn lays_samples_side_by_side(rt: HostRuntime) {
    let big = ImageForm {
        order: Order::Big,
        ..FORM
    };
    let same = [
        made(&rt, &FORM, &SAMPLES).as_slice() == LEAST_FIRST.as_slice(),
        made(&rt, &big, &SAMPLES).as_slice() == MOST_FIRST.as_slice(),
    ];
    check(&rt, &same);
}

#[test]
fn lays_a_plane_for_each_ink(rt: HostRuntime) {
    let form = ImageForm {
        width: 1,
        length: 2,
        order: Order::Big,
        planar: Planar::Separate,
        ..FORM
    };
    let file = made(&rt, &form, &[1, 2, 3, 4, 5, 6, 7, 8]);
    check(&rt, &[file.as_slice() == PLANES_MOST_FIRST.as_slice()]);
}

#[test]
fn packs_each_row(rt: HostRuntime) {
    let form = ImageForm {
        kind: Kind::Line,
        width: 24,
        length: 2,
        compression: Compression::PackBits,
        ..FORM
    };
    let file = made(&rt, &form, &[0xAA, 0xAA, 0xAA, 0x80, 0, 0x2A]);
    check(&rt, &[file.as_slice() == PACKED_LINE.as_slice()]);
}

#[test]
fn a_mask_has_photometric_interpretation_four(rt: HostRuntime) {
    let form = ImageForm {
        kind: Kind::Mask,
        width: 8,
        ..FORM
    };
    let file = made(&rt, &form, &[0xF0]);
    check(
        &rt,
        &[file.len() == 123, file.as_slice().get(66) == Some(&4)],
    );
}
