// Contone images: four inks with 8 bits per sample (TIFF 6.0, Section 16, "CMYK Images").
use crate::check::check_image;
use crate::found::Found;
use crate::usage::Usage;
use pr_base::TagFault;
use std::marker::Model;
use tif_strips::{RowCursor, Shape, Strips};

/// A contone image that has passed all tests. Contracts see its shape and the file's bytes.
#[derive(Drop)]
pub struct Contone<'a> {
    shape: Shape,
    strips: Strips<'a>,
}

impl<'a> Model for Contone<'a> {
    ghost use Rattle.std.specs.Prelude.{◌≡◌, Ok};
    ghost use Rattle.tif_strips.specs.Strips.{Image};
    ghost use Rattle.tif_image.specs.Image.{IsContone, contone_shape};

    ghost Value = { Image };

    ghost view = { λ c. c.strips };

    ghost invariant = { λ c. (c.shape ≡ c.strips.shape)
        × (contone_shape c.strips.bytes ≡ Ok c.strips.shape) × (IsContone c.strips.shape) };
}

impl<'a> Contone<'a> {
    ghost use Rattle.std.specs.Prelude.{◌≡◌, ◌≤◌, ◌*◌, IfErr, IfOk, Ok};
    ghost use Rattle.tif_strips.specs.Strips.{row_length};
    ghost use Rattle.tif_image.specs.Found.{IsFound};
    ghost use Rattle.tif_image.specs.Image.{contone_shape, IsContone};

    /// Tests a file's header and directory, fields and strips, in this order, and returns the first fault.
    pub fn check(bytes: &'a [u8]) -> Result<Contone<'a>, TagFault>
        ensures passed { IfOk result
            (λ image. (image.bytes ≡ bytes.now) × (contone_shape bytes.now ≡ Ok image.shape)) }
        ensures refused { IfErr result (λ fault. contone_shape bytes.now ≡ Err fault) }
    {
        let image = check_image(bytes, Usage::Contone)?;
        Ok(Contone {
            shape: image.shape,
            strips: image.strips,
        })
    }

    /// Returns the image in a file that has passed the tests, by what they found. Tests nothing.
    pub fn of_tested(bytes: &'a [u8], found: &'a Found) -> Contone<'a>
        requires { IsFound Usage.Contone bytes.now found.now }
        ensures bytes { result.bytes ≡ bytes.now }
        ensures passed { contone_shape bytes.now ≡ Ok result.shape }
    {
        Contone {
            shape: found.shape(),
            strips: found.strips(bytes),
        }
    }

    /// Returns the width in pixels.
    pub fn width(&self) -> u32
        ensures width { result ≡ self.now.shape.width }
        ensures within { (1 ≤ result) × (result ≤ 65535) }
    {
        self.shape.width
    }

    /// Returns the number of rows.
    pub fn length(&self) -> u32
        ensures length { result ≡ self.now.shape.length }
        ensures within { (1 ≤ result) × (result ≤ 65535) }
    {
        self.shape.length
    }

    /// Returns the shape of the image, as given by its fields.
    pub fn shape(&self) -> Shape
        ensures shape { result ≡ self.now.shape }
        ensures contone { IsContone result }
        ensures passed { contone_shape self.now.bytes ≡ Ok result }
    {
        self.shape
    }

    /// Returns a cursor over the rows from the first. A row has four bytes per pixel: cyan, magenta, yellow
    /// and black, 0 for no ink and 255 for full ink.
    pub fn rows(&self) -> RowCursor<'a>
        ensures cursor { result ≡ record { shape = self.now.shape; bytes = self.now.bytes; next = 0 } }
        ensures row_length { row_length self.now.shape ≡ 4 * self.now.shape.width }
    {
        self.strips.rows()
    }
}
