// A layer of a page: an image or a part of it, its position, and how it is painted.
ghost use Rattle.std.specs.Prelude.{◌≡◌, ◌≤◌};

use tif_image::{Bilevel, Contone};
use tif_strips::{RowCursor, Shape};

/// The image of a layer.
#[derive(Drop)]
pub enum Art<'a> {
    /// A contone image, which paints its four samples, and 0 in the spot ink.
    Contone(Contone<'a>),
    /// Linework, whose marked pixels paint these ink values: cyan, magenta, yellow, black and spot.
    Line(Bilevel<'a>, [u8; 5]),
}

impl<'a> Art<'a> {
    ghost use Rattle.page_layers.specs.Layer.{bytes_of, shape_of};

    /// Returns a cursor before the first row of the image.
    pub(crate) fn rows(&self) -> RowCursor<'a>
        ensures { result ≡ record { shape = shape_of self.now; bytes = bytes_of self.now; next = 0 } }
    {
        match self {
            Art::Contone(image) => image.rows(),
            Art::Line(image, _) => image.rows(),
        }
    }

    /// Returns the shape of the image, as its TIFF fields give it.
    pub(crate) fn shape(&self) -> Shape
        ensures shape { result ≡ shape_of self.now }
        ensures width { (shape_of self.now).width ≤ 65535 }
        ensures length { (shape_of self.now).length ≤ 65535 }
    {
        match self {
            Art::Contone(image) => image.shape(),
            Art::Line(image, _) => image.shape(),
        }
    }
}

/// A part of an image, in pixels of the image.
#[derive(Clone, Copy, PartialEq, Eq)]
pub struct Crop {
    /// The first column.
    pub x: u32,
    /// The first row.
    pub y: u32,
    pub width: u32,
    pub height: u32,
}

/// A layer of a page. Its top left corner is at `x` and `y`, in pixels from the page's top left corner.
#[derive(Drop)]
pub struct Layer<'a> {
    pub art: Art<'a>,
    /// The layer shows where its mask is marked. A mask has the width and length of the image.
    pub mask: Option<Bilevel<'a>>,
    pub x: u32,
    pub y: u32,
    /// How many pixels of the page a pixel of the image covers, in each direction.
    pub scale: u32,
    pub crop: Crop,
    /// With overprint, an ink value of 0 leaves the ink below. Otherwise the layer knocks out: it replaces
    /// all five inks.
    pub overprint: bool,
}
