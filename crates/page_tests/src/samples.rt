// A row of four inks from each first column, at each left edge and in each width around a block of 64, at the
// scales that are vectorized and at others, compared with a plain loop.
ghost use Rattle.std.specs.Prelude.{◌≡◌, length};

use crate::columns::{Columns, assert_columns};
use page_layers::{Art, Crop, InkRow, Layer};
use pr_base::Ink;
use std::process::Abort;
use tif_image::Contone;
use tif_make::{Compression, ImageForm, Planar, make_image};
use worked_files::FORM;

// The width of the row in pixels.
const PIXELS: u32 = 260;

const INKS: [Ink; 4] = [Ink::C, Ink::M, Ink::Y, Ink::K];

// Returns the row's samples, four a pixel.
fn noise() -> [u8; 1040] {
    let mut row = [0; 1040];
    let mut seed = 1u32;
    for sample in row.iter_mut() {
        seed = seed.wrapping_mul(1_664_525).wrapping_add(1_013_904_223);
        *sample = seed.to_be_bytes()[0];
    }
    row
}

fn file<R: Abort + AllocGlobal>(
    rt: &R,
    row: &[u8],
    planar: Planar,
    compression: Compression,
) -> Vec<u8>
    requires { length row.now ≡ 1040 }
{
    let form = ImageForm {
        width: PIXELS,
        planar,
        compression,
        ..FORM
    };
    make_image(rt.alloc(), &form, row).expect(rt, "memory")
}

#[test]
fn samples_begin_and_end_at_any_column(rt: HostRuntime) {
    let row = noise();
    let chunky = file(&rt, &row, Planar::Chunky, Compression::Uncompressed);
    assert_scales(&rt, &chunky, &row, &[1, 2, 3, 4, 63, 64]);
    let apart = file(&rt, &row, Planar::Separate, Compression::PackBits);
    assert_scales(&rt, &apart, &row, &[1, 2]);
}

fn assert_scales<R: Abort + AllocGlobal>(rt: &R, file: &[u8], row: &[u8; 1040], scales: &[u32]) {
    for scale in scales {
        let scale = *scale;
        assert_widths(rt, &Scaled { file, row, scale });
    }
}

fn assert_widths<R: Abort + AllocGlobal>(rt: &R, row: &Scaled<'_>) {
    for width in 64..194 {
        assert_columns(rt, row, width);
    }
}

// The row of four inks at a scale, from a left edge that depends on the first column and on the width.
#[derive(Drop)]
struct Scaled<'a> {
    file: &'a [u8],
    row: &'a [u8; 1040],
    scale: u32,
}

// Returns the left edge.
fn left_of(first: u32, width: u32) -> u32 {
    first.wrapping_mul(5).wrapping_add(width) % 64
}

impl<'a> Columns<'a> for Scaled<'a> {
    fn layer(&self, first: u32, width: u32) -> Option<Layer<'a>> {
        Some(Layer {
            art: Art::Contone(Contone::check(self.file).ok()?),
            mask: None,
            x: left_of(first, width),
            y: 0,
            scale: self.scale,
            crop: Crop {
                x: first,
                y: 0,
                width: PIXELS.saturating_sub(first),
                height: 1,
            },
            overprint: false,
        })
    }

    fn is_shown(&self, room: &InkRow, first: u32, width: u32) -> bool {
        let (scale, left) = (self.scale as usize, left_of(first, width) as usize);
        for (slot, ink) in INKS.iter().enumerate() {
            if !are_samples(
                room.plane(*ink),
                self.row,
                slot,
                scale,
                first as usize,
                left,
            ) {
                return false;
            }
        }
        true
    }
}

// Whether these values show the row from column `first` on: 0 left of the edge, and behind it the samples at
// this place of each pixel.
fn are_samples(
    values: &[u8],
    row: &[u8; 1040],
    slot: usize,
    scale: usize,
    first: usize,
    left: usize,
) -> bool {
    if scale == 0 || first >= 64 || left >= 64 || slot >= 4 || values.len() >= 200 {
        return false;
    }
    for x in 0..values.len() {
        let expected = if x < left {
            Some(&0)
        } else {
            row.get(4 * (first + (x - left) / scale) + slot)
        };
        if expected != Some(&values[x]) {
            return false;
        }
    }
    true
}
