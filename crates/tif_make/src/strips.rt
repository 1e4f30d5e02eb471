// The strips of an image, built from its rows.
ghost use Rattle.std.specs.Prelude.{◌≡◌, ◌<◌, ◌≤◌, ◌+◌, ◌*◌, ◌++◌, [], ◌∷◌, IfOk, OnOk, length};
ghost use Rattle.std.specs.List.{flat_map, range_with_len};
ghost use Rattle.tif_packbits.specs.Packbits.{packing};
ghost use Rattle.tif_make.specs.Form.{IsForm, planes, row_length, strips_each};
ghost use Rattle.tif_make.specs.Made.{Grows, HasRows, HasStrips};
ghost use Rattle.tif_make.specs.Strips.{ink_row as ink_row_of, joined, plane_strips, row_at, stored_at};
ghost use Rattle.tif_make.specs.Strips.{stored_row, strip, strips};

use crate::form::{Compression, ImageForm, Kind, Planar};
use crate::room::room;
use pr_base::NoMemory;
use std::alloc::Global;
use tif_packbits::pack_row;

/// Concatenated strips, with the offset in the file and the byte count of each.
#[derive(Drop)]
pub(crate) struct Strips {
    pub(crate) bytes: Vec<u8>,
    pub(crate) places: Vec<u32>,
    pub(crate) counts: Vec<u32>,
}

impl Strips {
    /// Builds the strips of an image; `first` is the offset of the first strip in the file.
    pub(crate) fn of(
        alloc: Global,
        form: &ImageForm,
        first: u32,
        rows: &[u8],
    ) -> Result<Strips, NoMemory>
        requires form { IsForm form.now }
        requires rows { HasRows form.now rows.now }
        requires first { first ≤ 3000000 }
        ensures { IfOk result (λ made. HasStrips first (strips form.now rows.now) made) }
    {
        let mut made = Strips {
            bytes: Vec::new(alloc),
            places: Vec::new(alloc),
            counts: Vec::new(alloc),
        };
        for plane in 0..form.planes() {
            made.add_plane(alloc, form, first, rows, plane)?;
        }
        Ok(made)
    }

    /// Appends the strips of a plane.
    fn add_plane(
        &mut self,
        alloc: Global,
        form: &ImageForm,
        first: u32,
        rows: &[u8],
        plane: u32,
    ) -> Result<(), NoMemory>
        requires form { IsForm form.now }
        requires rows { HasRows form.now rows.now }
        requires plane { plane < planes form.now }
        requires first { first ≤ 3000000 }
        requires room { length self.old.bytes.items + length (joined (plane_strips form.now rows.now plane))
            ≤ 4000000000 }
        ensures { OnOk result (Grows first (plane_strips form.now rows.now plane) self.old self.new) }
    {
        for i in 0..form.strips_each() {
            self.add_strip(alloc, form, first, rows, plane, i)?;
        }
        Ok(())
    }

    /// Appends strip `i` of a plane, with its offset and byte count.
    fn add_strip(
        &mut self,
        alloc: Global,
        form: &ImageForm,
        first: u32,
        rows: &[u8],
        plane: u32,
        i: u32,
    ) -> Result<(), NoMemory>
        requires form { IsForm form.now }
        requires rows { HasRows form.now rows.now }
        requires plane { plane < planes form.now }
        requires strip { i < strips_each form.now }
        requires first { first ≤ 3000000 }
        requires room { length self.old.bytes.items + length (strip form.now rows.now plane i) ≤ 4000000000 }
        ensures { OnOk result (Grows first (strip form.now rows.now plane i ∷ []) self.old self.new) }
    {
        let place = self.bytes.len();
        put_strip(alloc, form, rows, plane, i, &mut self.bytes)?;
        self.places.push(first + place as u32)?;
        self.counts.push((self.bytes.len() - place) as u32)?;
        Ok(())
    }
}

/// Appends the bytes of strip `i` of a plane.
#[tactic(auto, using(crate::proofs::Pieces::rows_above), unfolding(crate::specs::Strips::strip))]
fn put_strip(
    alloc: Global,
    form: &ImageForm,
    rows: &[u8],
    plane: u32,
    i: u32,
    stored: &mut Vec<u8>,
) -> Result<(), NoMemory>
    requires form { IsForm form.now }
    requires rows { HasRows form.now rows.now }
    requires plane { plane < planes form.now }
    requires strip { i < strips_each form.now }
    ensures { OnOk result (stored.new.items ≡ stored.old.items ++ strip form.now rows.now plane i) }
{
    let above = i * form.rows_per_strip;
    let count = form.rows_per_strip.min(form.length - above);
    put_rows(alloc, form, rows, plane, above, count, stored)
}

/// Appends `count` stored rows of a plane, from row `from` on.
fn put_rows(
    alloc: Global,
    form: &ImageForm,
    rows: &[u8],
    plane: u32,
    from: u32,
    count: u32,
    stored: &mut Vec<u8>,
) -> Result<(), NoMemory>
    requires form { IsForm form.now }
    requires rows { HasRows form.now rows.now }
    requires plane { plane < planes form.now }
    requires within { from + count ≤ form.now.length }
    ensures { OnOk result (stored.new.items
        ≡ stored.old.items ++ flat_map (stored_at form.now rows.now plane) (range_with_len from count)) }
{
    for k in 0..count {
        put_row(alloc, form, rows, plane, from + k, stored)?;
    }
    Ok(())
}

/// Appends row `y` of a plane as it is stored.
#[tactic(auto, unfolding(crate::specs::Strips::stored_at))]
fn put_row(
    alloc: Global,
    form: &ImageForm,
    rows: &[u8],
    plane: u32,
    y: u32,
    stored: &mut Vec<u8>,
) -> Result<(), NoMemory>
    requires form { IsForm form.now }
    requires rows { HasRows form.now rows.now }
    requires plane { plane < planes form.now }
    requires within { y < form.now.length }
    ensures { OnOk result (stored.new.items ≡ stored.old.items ++ stored_at form.now rows.now plane y) }
{
    let row = lend_row(form, rows, y);
    match (form.kind, form.planar) {
        (Kind::Contone, Planar::Separate) => {
            let ink = ink_row(alloc, form.width, plane, row)?;
            store(alloc, form.compression, ink.as_slice(), stored)
        }
        _ => store(alloc, form.compression, row, stored),
    }
}

/// Returns row `y` of the image.
fn lend_row<'a>(form: &ImageForm, rows: &'a [u8], y: u32) -> &'a [u8]
    requires form { IsForm form.now }
    requires rows { HasRows form.now rows.now }
    requires within { y < form.now.length }
    ensures row { result.now ≡ row_at (row_length form.now) rows.now y }
    ensures len { length result.now ≡ row_length form.now }
{
    let size = form.row_len();
    let at = y as usize * size;
    &rows[at..at + size]
}

/// Returns the samples of one ink in a row of pixels.
#[tactic(auto, unfolding(crate::specs::Strips::ink_row))]
fn ink_row(alloc: Global, width: u32, ink: u32, row: &[u8]) -> Result<Vec<u8>, NoMemory>
    requires row { length row.now ≡ 4 * width }
    requires width { width ≤ 65535 }
    requires ink { ink < 4 }
    ensures samples { IfOk result (λ samples. samples.items ≡ ink_row_of width ink row.now) }
    ensures len { IfOk result (λ samples. length samples.items ≡ width) }
{
    let mut samples = Vec::new(alloc);
    for x in 0..width {
        samples.push(row[(4 * x + ink) as usize])?;
    }
    Ok(samples)
}

/// Appends a row as it is stored.
fn store(
    alloc: Global,
    compression: Compression,
    row: &[u8],
    stored: &mut Vec<u8>,
) -> Result<(), NoMemory>
    requires { length row.now ≤ 262140 }
    ensures { OnOk result (stored.new.items ≡ stored.old.items ++ stored_row compression row.now) }
{
    match compression {
        Compression::Uncompressed => stored.extend_from_slice(row)?,
        Compression::PackBits => put_packed(alloc, row, stored)?,
    }
    Ok(())
}

/// Appends the packing of a row.
fn put_packed(alloc: Global, row: &[u8], stored: &mut Vec<u8>) -> Result<(), NoMemory>
    requires { length row.now ≤ 262140 }
    ensures { OnOk result (stored.new.items ≡ stored.old.items ++ packing row.now) }
{
    // A packing is longer than the row by at most one byte per 128, rounded up.
    let mut packed = room(alloc, row.len() + row.len().div_ceil(128))?;
    let len = pack_row(row, packed.as_mut_slice());
    stored.extend_from_slice(&packed[..len])?;
    Ok(())
}
