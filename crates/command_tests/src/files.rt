// Images of a few pixels, and their plates.
ghost use Rattle.std.specs.Prelude.{◌≡◌, ◌*◌, length};
ghost use Rattle.tif_make.specs.Form.{IsForm};
ghost use Rattle.tif_make.specs.Made.{HasRows};

use std::process::Abort;
use test_room::{FORM, PLATE, SAMPLES};
use tif_make::{Compression, ImageForm, Order, Planar, make_image};

/// Replaces the bytes from each offset on.
pub fn patch(bytes: &mut [u8], changes: &[(usize, &[u8])]) {
    for (at, with) in changes {
        patch_at(bytes, *at, with);
    }
}

fn patch_at(bytes: &mut [u8], at: usize, with: &[u8]) {
    for (byte, new) in bytes.iter_mut().skip(at).zip(with) {
        *byte = *new;
    }
}

/// Makes the file of an image.
pub fn image<R: Abort + AllocGlobal>(rt: &R, form: &ImageForm, rows: &[u8]) -> Vec<u8>
    requires form { IsForm form.now }
    requires rows { HasRows form.now rows.now }
{
    make_image(rt.alloc(), form, rows).expect(rt, "memory")
}

/// Makes the file of the four pixels in this form.
pub fn four_by_one<R: Abort + AllocGlobal>(
    rt: &R,
    order: Order,
    planar: Planar,
    compression: Compression,
) -> Vec<u8> {
    let form = ImageForm {
        order,
        planar,
        compression,
        ..FORM
    };
    image(rt, &form, &SAMPLES)
}

/// Makes the file of the four pixels in the default form.
pub fn plain<R: Abort + AllocGlobal>(rt: &R) -> Vec<u8> {
    image(rt, &FORM, &SAMPLES)
}

/// Returns the samples of this many equal pixels, in black alone.
pub fn blacks<R: Abort + AllocGlobal>(rt: &R, pixels: u32, black: u8) -> Vec<u8>
    ensures { length result.items ≡ 4 * pixels }
{
    let mut samples = Vec::new(rt.alloc());
    for _pixel in 0..pixels {
        samples
            .extend_from_slice(&[0, 0, 0, black])
            .expect(rt, "memory");
    }
    samples
}

/// Appends bytes to others.
pub fn append(rt: &impl Abort, bytes: &mut Vec<u8>, more: &[u8]) {
    bytes.extend_from_slice(more).expect(rt, "memory");
}

/// Makes a plate of packets, each repeated the given number of times. The directory and resolutions of
/// `PLATE` follow, then a table. Bytes are replaced last.
pub fn plate_of<R: Abort + AllocGlobal>(
    rt: &R,
    packets: &[(u32, [u8; 2])],
    table: &[u8],
    changes: &[(usize, &[u8])],
) -> Vec<u8> {
    let mut plate = Vec::new(rt.alloc());
    append(rt, &mut plate, &PLATE[..8]);
    for (times, packet) in packets {
        for _time in 0..*times {
            append(rt, &mut plate, packet);
        }
    }
    append(rt, &mut plate, &PLATE[10..]);
    append(rt, &mut plate, table);
    patch(&mut plate, changes);
    plate
}
