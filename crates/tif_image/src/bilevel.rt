// Bilevel images, one sample of one bit per pixel: linework or a mask (TIFF 6.0, Sections 3 and 8).
use crate::check::check_image;
use crate::found::Found;
use crate::usage::{BilevelUse, Usage};
use pr_base::TagFault;
use std::marker::Model;
use tif_strips::{RowCursor, Shape, Strips};

/// A bilevel image that has passed all tests. Contracts see its use, its shape and the file's bytes.
#[derive(Drop)]
pub struct Bilevel<'a> {
    usage: BilevelUse,
    shape: Shape,
    /// Whether pixels with bit 0 are the marked ones.
    marks_zeros: bool,
    strips: Strips<'a>,
}

impl<'a> Model for Bilevel<'a> {
    ghost use Rattle.tif_image.specs.Image.{BilevelImage};

    ghost Value = { BilevelImage };

    ghost use Rattle.tif_image.specs.Bilevel.{IsChecked};

    ghost view = { λ b. record { usage = b.usage; shape = b.shape; bytes = b.strips.bytes } };

    ghost invariant = { λ b. IsChecked b.usage b.shape b.marks_zeros b.strips };
}

impl<'a> Bilevel<'a> {
    ghost use Rattle.std.specs.Prelude.{◌≡◌, ◌==◌, ◌≤◌, ◌<◌, IfErr, IfOk, Ok, length};
    ghost use Rattle.pr_base.specs.Row.{row_size};
    ghost use Rattle.tif_strips.specs.Strips.{row_length};
    ghost use Rattle.tif_image.specs.Found.{IsFound};
    ghost use Rattle.tif_image.specs.Image.{IsBilevel, bilevel_shape, is_marked, photometric};

    /// Tests the header and directory of a file, its fields and its strips, in this order, and returns the
    /// first fault. InkSet and DotRange are not tested.
    pub fn check(bytes: &'a [u8], usage: BilevelUse) -> Result<Bilevel<'a>, TagFault>
        ensures image { IfOk result (λ image. (image.bytes ≡ bytes.now) × (image.usage ≡ usage)) }
        ensures passed { IfOk result (λ image. bilevel_shape usage bytes.now ≡ Ok image.shape) }
        ensures refused { IfErr result (λ fault. bilevel_shape usage bytes.now ≡ Err fault) }
    {
        let image = check_image(bytes, Usage::Bilevel(usage))?;
        Ok(Bilevel {
            usage,
            shape: image.shape,
            marks_zeros: image.marks_zeros,
            strips: image.strips,
        })
    }

    /// Returns the image in a file that has passed the tests of this use, by what they found. Tests nothing.
    pub fn of_tested(bytes: &'a [u8], usage: BilevelUse, found: &'a Found) -> Bilevel<'a>
        requires { IsFound (Usage.Bilevel usage) bytes.now found.now }
        ensures image { (result.bytes ≡ bytes.now) × (result.usage ≡ usage) }
        ensures passed { bilevel_shape usage bytes.now ≡ Ok result.shape }
    {
        Bilevel {
            usage,
            shape: found.shape(),
            marks_zeros: found.marks_zeros(),
            strips: found.strips(bytes),
        }
    }

    /// Returns the width in pixels.
    pub fn width(&self) -> u32
        ensures width { result ≡ self.now.shape.width }
        ensures within { (1 ≤ result) × (result ≤ 65535) }
    {
        self.shape.width
    }

    /// Returns the number of rows.
    pub fn length(&self) -> u32
        ensures length { result ≡ self.now.shape.length }
        ensures within { (1 ≤ result) × (result ≤ 65535) }
    {
        self.shape.length
    }

    /// Returns the shape of the image, as given by its fields.
    pub fn shape(&self) -> Shape
        ensures shape { result ≡ self.now.shape }
        ensures bilevel { IsBilevel result }
        ensures passed { bilevel_shape self.now.usage self.now.bytes ≡ Ok result }
    {
        self.shape
    }

    /// Returns a cursor over the rows from the first. A row is as stored: eight pixels per byte, lower
    /// columns in higher-order bits.
    pub fn rows(&self) -> RowCursor<'a>
        ensures cursor { result ≡ record { shape = self.now.shape; bytes = self.now.bytes; next = 0 } }
        ensures row_length { row_length self.now.shape ≡ row_size self.now.shape.width }
    {
        self.strips.rows()
    }

    /// Returns whether the marked pixels are those with bit 0: PhotometricInterpretation is 1.
    pub fn marks_zeros(&self) -> bool
        ensures { result ≡ (photometric self.now.bytes == 1) }
    {
        self.marks_zeros
    }

    /// Returns whether pixel `x` of a row of the image is marked: its bit is 1, or 0 if
    /// PhotometricInterpretation is 1.
    pub fn marked(&self, row: &[u8], x: u32) -> bool
        requires row { length row.now ≡ row_length self.now.shape }
        requires within { x < self.now.shape.width }
        ensures { result ≡ is_marked (photometric self.now.bytes) row.now x }
    {
        let bit = row[x as usize / 8] >> (7 - x % 8) & 1;
        (bit == 1) != self.marks_zeros
    }
}
