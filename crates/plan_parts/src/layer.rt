// The contents of a page: layers of images, the first at the bottom.

use pr_base::PathText;
use std::marker::Model;

/// A page of the edition.
#[derive(Drop)]
pub struct Page {
    pub name: PathText,
    /// Whether the page prints C, M and Y in addition to K.
    pub colour: bool,
    /// Whether the page prints the spot ink S.
    pub spot: bool,
    pub layers: Vec<PlanLayer>,
}

impl Model for Page {
    ghost use Rattle.plan_parts.specs.Data.{PageData};

    ghost Value = { PageData };

    ghost view = { λ p. record { name = p.name; colour = p.colour; spot = p.spot; layers = p.layers.items } };
}

/// An image on a page. Its files are given as indexes into the plan's list of files.
#[derive(Clone, Copy, PartialEq, Eq)]
pub struct PlanLayer {
    /// Whether the image is linework of one bit a pixel; otherwise it is contone.
    pub line: bool,
    pub file: usize,
    /// The top left corner, in pixels of the page.
    pub x: u32,
    pub y: u32,
    /// How many pixels of the page a pixel of the image covers in each direction, 1 to 64.
    pub scale: u32,
    /// The part of the image to show: x, y, width and height, in pixels of the image.
    pub crop: Option<[u32; 4]>,
    pub mask: Option<usize>,
    /// Whether an ink value of 0 leaves the ink below.
    pub overprint: bool,
    /// The ink values C, M, Y, K, S of linework.
    pub ink: [u8; 5],
}
