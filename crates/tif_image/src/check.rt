// The tests of an image in order, for every use.
ghost use Rattle.std.specs.Prelude.{◌≡◌, ◌==◌, IfErr, IfOk, Ok};
ghost use Rattle.tif_image.specs.Image.{IsShapeFor, image_fields, ink_fields, photometric, shape_of};

use crate::fields::{bits_each, full_dot_range, no_tiles, number_among, number_within};
use crate::usage::Usage;
use pr_base::{FaultKind, TagFault};
use tif_dir::{Dir, read_dir, tag};
use tif_strips::{Shape, Strips};

/// The maximum width and length of an image in pixels.
const MOST_PIXELS: u32 = 65_535;

/// No compression (Section 8, "Compression").
const UNCOMPRESSED: u32 = 1;

/// PackBits (Section 9).
const PACK_BITS: u32 = 32_773;

/// PhotometricInterpretation "BlackIsZero" (Section 8).
const BLACK_IS_ZERO: u32 = 1;

/// An image that has passed all tests.
#[derive(Drop)]
pub(crate) struct Checked<'a> {
    pub shape: Shape,
    pub marks_zeros: bool,
    pub strips: Strips<'a>,
}

/// Tests a file's header and directory, fields and strips, in this order, and returns the first fault.
#[tactic(auto, unfolding(crate::specs::Image::shape_of))]
pub(crate) fn check_image<'a>(bytes: &'a [u8], usage: Usage) -> Result<Checked<'a>, TagFault>
    ensures passed { IfOk result (λ image. shape_of usage bytes.now ≡ Ok image.shape) }
    ensures shape { IfOk result (λ image. IsShapeFor usage image.shape) }
    ensures zeros { IfOk result (λ image. image.marks_zeros ≡ (photometric bytes.now == 1)) }
    ensures strips { IfOk result (λ image. image.strips ≡ record { shape = image.shape; bytes = bytes.now }) }
    ensures refused { IfErr result (λ fault. shape_of usage bytes.now ≡ Err fault) }
{
    let dir = read_dir(bytes)?;
    let shape = image_fields(&dir, usage)?;
    let strips = Strips::check(bytes, &dir, shape)?;
    let marks_zeros = marks_zeros(&dir);
    Ok(Checked {
        shape,
        marks_zeros,
        strips,
    })
}

/// Returns whether pixels with bit 0 are the marked ones. In an image that has passed the tests the field is
/// present.
pub(crate) fn marks_zeros(dir: &Dir<'_>) -> bool
    ensures { result ≡ (photometric dir.now == 1) }
{
    let photometric = dir
        .number(tag::PHOTOMETRIC_INTERPRETATION, 0, 1)
        .unwrap_or(0);
    photometric == BLACK_IS_ZERO
}

/// Tests the fields in order and returns the shape that they give.
#[tactic(auto, unfolding(crate::specs::Image::image_fields))]
pub(crate) fn image_fields(dir: &Dir<'_>, usage: Usage) -> Result<Shape, TagFault>
    ensures fields { result ≡ image_fields usage dir.now }
    ensures shape { IfOk result (IsShapeFor usage) }
{
    no_tiles(dir)?;
    let width = number_within(dir, tag::IMAGE_WIDTH, 1, MOST_PIXELS, FaultKind::Width)?;
    let length = number_within(dir, tag::IMAGE_LENGTH, 1, MOST_PIXELS, FaultKind::Length)?;
    let samples = usage.samples();
    let bits = usage.depth();
    number_among(
        dir,
        tag::SAMPLES_PER_PIXEL,
        &[u32::from(samples)],
        FaultKind::Samples,
    )?;
    bits_each(dir, u32::from(samples), u32::from(bits))?;
    let compression = number_among(
        dir,
        tag::COMPRESSION,
        &[UNCOMPRESSED, PACK_BITS],
        FaultKind::Compression,
    )?;
    number_among(
        dir,
        tag::PHOTOMETRIC_INTERPRETATION,
        usage.photometrics(),
        FaultKind::Photometric,
    )?;
    number_among(dir, tag::FILL_ORDER, &[1], FaultKind::FillOrder)?;
    number_among(dir, tag::ORIENTATION, &[1], FaultKind::Orientation)?;
    let planar = number_among(dir, tag::PLANAR_CONFIGURATION, &[1, 2], FaultKind::Planar)?;
    ink_fields(dir, usage)?;
    let rows_per_strip = number_within(
        dir,
        tag::ROWS_PER_STRIP,
        1,
        u32::MAX,
        FaultKind::RowsPerStrip,
    )?;
    Ok(Shape {
        width,
        length,
        samples,
        bits,
        planar: planar as u8,
        packed: compression == PACK_BITS,
        rows_per_strip,
    })
}

// Tests the fields of separated inks for a contone image. No other use reads them.
fn ink_fields(dir: &Dir<'_>, usage: Usage) -> Result<(), TagFault>
    ensures { result ≡ ink_fields usage dir.now }
{
    match usage {
        Usage::Contone => {
            number_among(dir, tag::INK_SET, &[1], FaultKind::InkSet)?;
            full_dot_range(dir)
        }
        Usage::Bilevel(_) => Ok(()),
    }
}
