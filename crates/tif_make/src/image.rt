// The file of an image: its directory, then its strips.
ghost use Rattle.std.specs.Prelude.{◌≡◌, ◌≤◌, ◌++◌, IfOk, OnOk, length, map};
ghost use Rattle.tif_make.specs.Fields.{data_of, front};
ghost use Rattle.tif_make.specs.Form.{IsForm, strip_count};
ghost use Rattle.tif_make.specs.Image.{first_strip as first_strip_of, all_fields as fields_of, image_fields};
ghost use Rattle.tif_make.specs.Image.{image_file, table_outside as table_outside_of};
ghost use Rattle.tif_make.specs.Made.{HasRows};

use crate::directory::put_front;
use crate::field::{Field, Values};
use crate::form::{ImageForm, Kind};
use crate::strips::Strips;
use pr_base::NoMemory;
use std::alloc::Global;
use tif_dir::tag::{
    BITS_PER_SAMPLE, COMPRESSION, IMAGE_LENGTH, IMAGE_WIDTH, PHOTOMETRIC_INTERPRETATION,
    PLANAR_CONFIGURATION, ROWS_PER_STRIP, SAMPLES_PER_PIXEL, STRIP_BYTE_COUNTS, STRIP_OFFSETS,
};

/// The bytes of the header and the directory without its entries, and the bytes of an entry.
const DIRECTORY_ENDS: u32 = 14;

const ENTRY: u32 = 12;

/// Returns the file of an image, given its rows concatenated from top to bottom. A row of a contone image
/// has four bytes per pixel, 0 for no ink and 255 for full ink; a row of the other kinds has eight pixels
/// per byte, lower columns in higher-order bits.
#[tactic(auto, unfolding(crate::specs::Image::image_file))]
pub fn make_image(alloc: Global, form: &ImageForm, rows: &[u8]) -> Result<Vec<u8>, NoMemory>
    requires form { IsForm form.now }
    requires rows { HasRows form.now rows.now }
    ensures { IfOk result (λ file. file.items ≡ image_file form.now rows.now) }
{
    let made = Strips::of(alloc, form, first_strip(form), rows)?;
    let mut file = Vec::new(alloc);
    put_fields(
        form,
        made.places.as_slice(),
        made.counts.as_slice(),
        &mut file,
    )?;
    file.extend_from_slice(made.bytes.as_slice())?;
    Ok(file)
}

/// Appends everything before the strips of an image that have these offsets and byte counts.
fn put_fields(
    form: &ImageForm,
    places: &[u32],
    counts: &[u32],
    file: &mut Vec<u8>,
) -> Result<(), NoMemory>
    requires form { IsForm form.now }
    requires places { length places.now ≡ strip_count form.now }
    requires counts { length counts.now ≡ strip_count form.now }
    ensures { OnOk result (file.new.items
        ≡ file.old.items ++ front form.now.order (image_fields form.now places.now counts.now)) }
{
    let fields = all_fields(form, places, counts);
    put_front(form.order, &fields[..form.field_count()], file)
}

/// Returns the fields of an image in tag order. The caller omits PlanarConfiguration, the last, if it is 1.
#[tactic(auto, unfolding(crate::specs::Image::all_fields))]
#[rattlefmt::skip]
fn all_fields<'a>(form: &ImageForm, places: &'a [u32], counts: &'a [u32]) -> [Field<'a>; 10]
    ensures { map data_of result ≡ fields_of form.now places.now counts.now }
{
    [
        Field { tag: IMAGE_WIDTH, values: Values::Long(form.width) },
        Field { tag: IMAGE_LENGTH, values: Values::Long(form.length) },
        Field { tag: BITS_PER_SAMPLE, values: Values::Shorts(form.bits()) },
        Field { tag: COMPRESSION, values: Values::Short(form.compression_number()) },
        Field { tag: PHOTOMETRIC_INTERPRETATION, values: Values::Short(form.photometric()) },
        Field { tag: STRIP_OFFSETS, values: Values::Longs(places) },
        Field { tag: SAMPLES_PER_PIXEL, values: Values::Short(form.samples()) },
        Field { tag: ROWS_PER_STRIP, values: Values::Long(form.rows_per_strip) },
        Field { tag: STRIP_BYTE_COUNTS, values: Values::Longs(counts) },
        Field { tag: PLANAR_CONFIGURATION, values: Values::Short(2) },
    ]
}

/// Returns the offset of the first strip.
#[tactic(auto, unfolding(crate::specs::Image::first_strip))]
fn first_strip(form: &ImageForm) -> u32
    requires { IsForm form.now }
    ensures place { result ≡ first_strip_of form.now }
    ensures within { result ≤ 3000000 }
{
    let bits = match form.kind {
        Kind::Contone => 8,
        Kind::Line | Kind::Mask => 0,
    };
    let table = table_outside(form.planes() * form.strips_each());
    DIRECTORY_ENDS + ENTRY * form.field_count() as u32 + bits + 2 * table
}

/// Returns the outside bytes of a field with one 32-bit value per strip.
fn table_outside(strips: u32) -> u32
    requires { strips ≤ 262140 }
    ensures bytes { result ≡ table_outside_of strips }
    ensures within { result ≤ 1048560 }
{
    if strips < 2 { 0 } else { 4 * strips }
}
