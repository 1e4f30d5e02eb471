// What the tests of a file found for one use.
ghost use Rattle.std.specs.Prelude.{◌≡◌, None};
ghost use Rattle.tif_image.specs.Found.{nothing};
ghost use Rattle.tif_strips.specs.Extents.{extents_of};
ghost use Rattle.tif_strips.specs.Marks.{MarksOf};
ghost use Rattle.tif_strips.specs.Strips.{IsStriped, strip_fault};

use std::alloc::Global;
use std::marker::Model;
use tif_strips::{Extent, Shape, Strips};

/// A shape without pixels.
const NO_SHAPE: Shape = Shape {
    width: 0,
    length: 0,
    samples: 0,
    bits: 0,
    planar: 0,
    packed: false,
    rows_per_strip: 0,
};

/// What the tests of an image leave: its shape, whether its pixels with bit 0 are the marked ones, where its
/// strips are in the file, and the marks of long packed strips. These are plain numbers, with which the image
/// is opened again without reading its directory. Contracts see all four.
#[derive(Drop)]
pub struct Found {
    shape: Shape,
    marks_zeros: bool,
    extents: Vec<Extent>,
    marks: Vec<u32>,
}

impl Model for Found {
    ghost use Rattle.tif_image.specs.Found.{FoundData};

    ghost Value = { FoundData };

    ghost view = { λ f. record {
      shape = f.shape;
      marks_zeros = f.marks_zeros;
      extents = f.extents.items;
      marks = f.marks.items;
    } };
}

impl Found {
    /// Returns a record of nothing, for a use without a test.
    pub fn nothing(alloc: Global) -> Found
        ensures { result ≡ nothing }
    {
        Found {
            shape: NO_SHAPE,
            marks_zeros: false,
            extents: Vec::new(alloc),
            marks: Vec::new(alloc),
        }
    }

    /// Returns the record of these four.
    pub(crate) fn of(
        shape: Shape,
        marks_zeros: bool,
        extents: Vec<Extent>,
        marks: Vec<u32>,
    ) -> Found
        ensures { result ≡ record {
          shape = shape;
          marks_zeros = marks_zeros;
          extents = extents.items;
          marks = marks.items;
        } }
    {
        Found {
            shape,
            marks_zeros,
            extents,
            marks,
        }
    }

    /// Returns the shape of the image, as given by its fields.
    pub fn shape(&self) -> Shape
        ensures { result ≡ self.now.shape }
    {
        self.shape
    }

    /// Returns whether pixels with bit 0 are the marked ones.
    pub(crate) fn marks_zeros(&self) -> bool
        ensures { result ≡ self.now.marks_zeros }
    {
        self.marks_zeros
    }

    /// Returns the strips of the image in the file that this is a record of.
    pub(crate) fn strips<'a>(&'a self, bytes: &'a [u8]) -> Strips<'a>
        requires shape { IsStriped self.now.shape }
        requires passed { strip_fault self.now.shape bytes.now ≡ None }
        requires extents { self.now.extents
            ≡ extents_of (record { shape = self.now.shape; bytes = bytes.now }) }
        requires marks { MarksOf (record { shape = self.now.shape; bytes = bytes.now }) self.now.marks }
        ensures { result ≡ record { shape = self.now.shape; bytes = bytes.now } }
    {
        Strips::of_tested(
            bytes,
            self.shape,
            self.extents.as_slice(),
            self.marks.as_slice(),
        )
    }
}
