// The locations of an image's strips in its file.
ghost use Rattle.std.specs.Prelude.{◌≡◌, ◌≢◌, ◌+◌, ◌*◌, ◌/◌, ◌<◌, ◌≤◌, IfOk, IfSome, IsTrue, OnOk};
ghost use Rattle.std.specs.Prelude.{Ok, Some, None, drop, length, map};
ghost use Rattle.std.specs.Result.{result_err};
ghost use Rattle.tif_dir.specs.Directory.{fault_at, field_of, number_at};
ghost use Rattle.tif_dir.specs.Table.{default_of};

use crate::Shape;
use crate::extents::{Extent, Extents};
use crate::marking::mark_at;
use crate::planes::{Inks, Planes};
use crate::samples::Samples;
use crate::shape::MARK_ROWS;
use crate::strip::Strip;
use pr_base::{FaultKind, NoMemory, TagFault};
use std::alloc::Global;
use std::marker::Model;
use tif_dir::tag::{STRIP_BYTE_COUNTS, STRIP_OFFSETS};
use tif_dir::{Dir, Field};

/// The extents of an image's strips in its file, and their marks. Contracts see the image.
#[derive(Drop)]
pub(crate) struct StripTable<'a> {
    bytes: &'a [u8],
    shape: Shape,
    extents: Extents<'a>,
    /// The marks of each strip in turn, or none.
    marks: &'a [u32],
}

impl<'a> Model for StripTable<'a> {
    ghost use Rattle.tif_strips.specs.Strips.{Image};
    ghost use Rattle.tif_strips.specs.Table.{HasTable};

    ghost Value = { Image };

    ghost view = { λ t. record { shape = t.shape; bytes = t.bytes.now } };

    ghost invariant = { λ t.
        HasTable (record { shape = t.shape; bytes = t.bytes.now }) t.extents t.marks.now };
}

impl<'a> StripTable<'a> {
    ghost use Rattle.tif_strips.specs.Strips.{IsStriped, samples_in, stored_bytes, strip_count, strip_fault};
    ghost use Rattle.tif_strips.specs.Strips.{plane_row_length, planes, strip_rows, strips_per_plane};
    ghost use Rattle.tif_strips.specs.Marks.{HasMarks, IsMark};
    ghost use Rattle.tif_strips.specs.Table.{HasTable, field_fault};
    ghost use Rattle.tif_strips.specs.Strip.{bytes_at, fault_of, strip_of};
    ghost use Rattle.tif_strips.specs.Extents.{extents_of};
    ghost use Rattle.tif_strips.specs.Planes.{ahead_of, aheads_of, inks_of, strip_samples};

    /// Reads the two fields that locate the strips. There are no marks.
    pub(crate) fn read(
        bytes: &'a [u8],
        dir: &Dir<'a>,
        shape: Shape,
    ) -> Result<StripTable<'a>, TagFault>
        requires dir { dir.now ≡ bytes.now }
        requires shape { IsStriped shape }
        ensures table { IfOk result (λ table. table ≡ record { shape = shape; bytes = bytes.now }) }
        ensures fault { result_err result ≡ field_fault shape bytes.now }
    {
        let strips = shape.strip_count();
        let offsets = values_of(dir, STRIP_OFFSETS, strips)?;
        let sizes = values_of(dir, STRIP_BYTE_COUNTS, strips)?;
        Ok(StripTable {
            bytes,
            shape,
            extents: Extents::Fields(offsets, sizes),
            marks: &[],
        })
    }

    /// Returns the table of an image whose extents and marks were kept.
    pub(crate) fn kept(
        bytes: &'a [u8],
        shape: Shape,
        extents: &'a [Extent],
        marks: &'a [u32],
    ) -> StripTable<'a>
        requires { HasTable (record { shape = shape; bytes = bytes.now }) (Extents.Kept extents) marks.now }
        ensures { result ≡ record { shape = shape; bytes = bytes.now } }
    {
        StripTable {
            bytes,
            shape,
            extents: Extents::Kept(extents),
            marks,
        }
    }

    /// Returns a copy of the table, over the same bytes.
    pub(crate) fn copied(&self) -> StripTable<'a>
        ensures { result ≡ self.now }
    {
        StripTable {
            bytes: self.bytes,
            shape: self.shape,
            extents: self.extents.copied(),
            marks: self.marks,
        }
    }

    /// Returns the shape of the image.
    pub(crate) fn shape(&self) -> Shape
        ensures shape { result ≡ self.now.shape }
        ensures striped { IsStriped self.now.shape }
    {
        self.shape
    }

    /// Returns strip `i` of the image.
    #[tactic(auto, using(crate::proofs::Tables::strip_known))]
    pub(crate) fn strip(&self, i: u32) -> Strip
        requires { i < strip_count self.now.shape }
        ensures { result ≡ strip_of self.now.shape self.now.bytes i }
    {
        let extent = self.extents.at(i);
        Strip {
            offset: extent.offset,
            size: extent.size,
            needed: self.shape.needed_len(i),
        }
    }

    /// Returns the extents of all strips.
    pub(crate) fn all_extents(&self, alloc: Global) -> Result<Vec<Extent>, NoMemory>
        ensures { IfOk result (λ extents. extents.items ≡ extents_of self.now) }
    {
        let count = self.shape.strip_count();
        let mut extents = Vec::with_capacity(alloc, count as usize)?;
        for i in 0..count {
            extents.push(self.extents.at(i))?;
        }
        Ok(extents)
    }

    /// Tests that a strip lies in the file and has the samples that it needs, and sets its marks.
    pub(crate) fn check(&self, strip: Strip, marks: &mut [u32]) -> Result<(), TagFault>
        ensures fault { result_err result ≡ fault_of self.now.shape.packed self.now.bytes strip }
        ensures marks { OnOk result (IfSome (bytes_at self.now.bytes strip)
            (λ stored. HasMarks stored (64 * plane_row_length self.now.shape) marks.new)) }
    {
        let step = MARK_ROWS as usize * self.shape.plane_row_len();
        strip.check(self.bytes, self.shape.packed, step, marks)
    }

    /// Starts at the first sample of row `above` of strip `i` of each plane.
    pub(crate) fn begin(&self, i: u32, above: u32) -> Planes<'a>
        requires passed { strip_fault self.now.shape self.now.bytes ≡ None }
        requires within { i < strips_per_plane self.now.shape }
        requires above { above < strip_rows self.now.shape i }
        ensures { aheads_of result ≡ map (drop (above * plane_row_length self.now.shape))
            (strip_samples self.now.shape self.now.bytes i) }
    {
        if self.shape.planes() == 1 {
            return Planes::One(self.samples(0, i, above));
        }
        Planes::Four(self.four(i, above))
    }

    // Starts at the first sample of row `above` of strip `i` of each of four planes.
    fn four(&self, i: u32, above: u32) -> Inks<'a>
        requires passed { strip_fault self.now.shape self.now.bytes ≡ None }
        requires planes { planes self.now.shape ≡ 4 }
        requires within { i < strips_per_plane self.now.shape }
        requires above { above < strip_rows self.now.shape i }
        ensures { inks_of result ≡ map (drop (above * plane_row_length self.now.shape))
            (strip_samples self.now.shape self.now.bytes i) }
    {
        Inks {
            cyan: self.samples(0, i, above),
            magenta: self.samples(1, i, above),
            yellow: self.samples(2, i, above),
            black: self.samples(3, i, above),
        }
    }

    /// Returns whether row `above` of strip `i` is behind a mark in each plane, so that `begin` goes over
    /// fewer than 64 rows. Only speed depends on it.
    pub(crate) fn is_marked(&self, i: u32, above: u32) -> bool
        requires within { i < strips_per_plane self.now.shape }
        requires above { above < strip_rows self.now.shape i }
    {
        for plane in 0..self.shape.planes() {
            if self.mark(plane, i, above) == 0 {
                return false;
            }
        }
        true
    }

    // Starts at the first sample of row `above` of strip `i` of a plane.
    fn samples(&self, plane: u32, i: u32, above: u32) -> Samples<'a>
        requires passed { strip_fault self.now.shape self.now.bytes ≡ None }
        requires plane { plane < planes self.now.shape }
        requires within { i < strips_per_plane self.now.shape }
        requires above { above < strip_rows self.now.shape i }
        ensures { ahead_of result ≡ drop (above * plane_row_length self.now.shape)
            (samples_in self.now.shape.packed (stored_bytes self.now.shape self.now.bytes
            (plane * strips_per_plane self.now.shape + i))) }
    {
        let stored = self.stored(plane, i);
        let mark = self.mark(plane, i, above) as usize;
        let row = self.shape.plane_row_len();
        Samples::of_row(stored, self.shape.packed, mark, row, above)
    }

    // Returns strip `i` of a plane, as stored in the file.
    fn stored(&self, plane: u32, i: u32) -> &'a [u8]
        requires passed { strip_fault self.now.shape self.now.bytes ≡ None }
        requires plane { plane < planes self.now.shape }
        requires within { i < strips_per_plane self.now.shape }
        ensures { result.now
            ≡ stored_bytes self.now.shape self.now.bytes (plane * strips_per_plane self.now.shape + i) }
    {
        let number = self.shape.strip_number(plane, i);
        let Some(stored) = self.strip(number).stored(self.bytes) else {
            unreachable!()
        };
        stored
    }

    // Returns the mark of the last marked row up to row `above` of strip `i` of a plane: 0 if it has none.
    fn mark(&self, plane: u32, i: u32, above: u32) -> u32
        requires plane { plane < planes self.now.shape }
        requires within { i < strips_per_plane self.now.shape }
        requires above { above < strip_rows self.now.shape i }
        ensures mark { IsMark
            (stored_bytes self.now.shape self.now.bytes (plane * strips_per_plane self.now.shape + i))
            (above / 64 * (64 * plane_row_length self.now.shape)) result }
        ensures packed { result ≢ 0 → IsTrue self.now.shape.packed }
    {
        let marked = (above / MARK_ROWS) as usize;
        if !self.shape.packed || marked == 0 {
            return 0;
        }
        let number = self.shape.strip_number(plane, i) as usize;
        mark_at(
            self.marks,
            number * self.shape.marks_per_strip() + marked - 1,
        )
    }
}

// Returns the values of a required field, which must be at least `least` in number.
#[tactic(auto, unfolding(tif_dir::specs::Directory::number_at))]
fn values_of<'a>(dir: &Dir<'a>, tag: u16, least: u32) -> Result<Field<'a>, TagFault>
    requires { default_of tag 0 ≡ None }
    ensures values { IfOk result (λ values. field_of dir.now tag ≡ Ok (Some values)) }
    ensures enough { IfOk result (λ values. least ≤ length values) }
    ensures fault { result_err result ≡ result_err (number_at dir.now tag 0 least) }
{
    let Some(field) = dir.field(tag)? else {
        return Err(fault(tag, FaultKind::Missing));
    };
    if field.count() < least {
        return Err(fault(tag, FaultKind::FieldCount));
    }
    Ok(field)
}

fn fault(tag: u16, kind: FaultKind) -> TagFault
    ensures { result ≡ fault_at tag kind }
{
    TagFault { tag, kind }
}
