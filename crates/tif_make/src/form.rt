// How an image is stored in its file.
ghost use Rattle.std.specs.Prelude.{◌≡◌, ◌≤◌};
ghost use Rattle.tif_make.specs.Form.{IsForm, bits_of, compression_of, field_count, photometric_of};
ghost use Rattle.tif_make.specs.Form.{plane_row_length, planes, row_length, samples_of, strip_count};
ghost use Rattle.tif_make.specs.Form.{strips_each};

use pr_base::row_bytes;
use tif_dir::Order;

/// The kind of an image.
#[derive(Clone, Copy, PartialEq, Eq)]
pub enum Kind {
    /// Four 8-bit samples per pixel: cyan, magenta, yellow, black (TIFF 6.0, Section 16).
    Contone,
    /// One bit per pixel, 1 for a marked pixel; PhotometricInterpretation is 0 (WhiteIsZero).
    Line,
    /// One bit per pixel, 1 for a marked pixel; PhotometricInterpretation is 4 (transparency mask).
    Mask,
}

/// The layout of a pixel's samples (PlanarConfiguration, 284).
#[derive(Clone, Copy, PartialEq, Eq)]
pub enum Planar {
    /// Side by side: 1, the default, which is omitted from the file.
    Chunky,
    /// In a separate plane per ink: 2.
    Separate,
}

/// How rows are stored (Compression, 259).
#[derive(Clone, Copy, PartialEq, Eq)]
pub enum Compression {
    /// Uncompressed: 1.
    Uncompressed,
    /// Each row packed by itself: 32773 (TIFF 6.0, Section 9).
    PackBits,
}

/// How an image is stored in its file. Width and length are in pixels.
#[derive(Clone, Copy, PartialEq, Eq)]
pub struct ImageForm {
    pub kind: Kind,
    /// 1 to 65,535.
    pub width: u32,
    /// 1 to 65,535.
    pub length: u32,
    pub order: Order,
    pub planar: Planar,
    pub compression: Compression,
    /// At least 1.
    pub rows_per_strip: u32,
}

impl ImageForm {
    /// Returns the bytes in a row of the image.
    pub(crate) fn row_len(&self) -> usize
        requires { IsForm self.now }
        ensures len { result ≡ row_length self.now }
        ensures within { result ≤ 262140 }
    {
        match self.kind {
            Kind::Contone => 4 * self.width as usize,
            Kind::Line | Kind::Mask => row_bytes(self.width),
        }
    }

    /// Returns the number of planes.
    pub(crate) fn planes(&self) -> u32
        ensures count { result ≡ planes self.now }
        ensures within { result ≤ 4 }
    {
        match (self.kind, self.planar) {
            (Kind::Contone, Planar::Separate) => 4,
            _ => 1,
        }
    }

    /// Returns the number of strips per plane.
    #[tactic(auto, using(crate::proofs::Pieces::rounded_up))]
    pub(crate) fn strips_each(&self) -> u32
        requires { IsForm self.now }
        ensures count { result ≡ strips_each self.now }
        ensures within { result ≤ self.now.length }
    {
        self.length.div_ceil(self.rows_per_strip)
    }

    /// Returns BitsPerSample.
    pub(crate) fn bits(&self) -> &'static [u16]
        ensures { result.now ≡ bits_of self.now.kind }
    {
        match self.kind {
            Kind::Contone => &[8, 8, 8, 8],
            Kind::Line | Kind::Mask => &[1],
        }
    }

    /// Returns SamplesPerPixel.
    pub(crate) fn samples(&self) -> u16
        ensures { result ≡ samples_of self.now.kind }
    {
        match self.kind {
            Kind::Contone => 4,
            Kind::Line | Kind::Mask => 1,
        }
    }

    /// Returns PhotometricInterpretation.
    pub(crate) fn photometric(&self) -> u16
        ensures { result ≡ photometric_of self.now.kind }
    {
        match self.kind {
            Kind::Contone => 5,
            Kind::Line => 0,
            Kind::Mask => 4,
        }
    }

    /// Returns Compression.
    pub(crate) fn compression_number(&self) -> u16
        ensures { result ≡ compression_of self.now.compression }
    {
        match self.compression {
            Compression::Uncompressed => 1,
            Compression::PackBits => 32773,
        }
    }

    /// Returns the number of fields in the file.
    pub(crate) fn field_count(&self) -> usize
        ensures count { result ≡ field_count self.now.planar }
        ensures within { result ≤ 10 }
    {
        match self.planar {
            Planar::Chunky => 9,
            Planar::Separate => 10,
        }
    }
}
