// Pages as first read: their layers name their files.

use plan_parts::Named;
use pr_base::PathText;
use std::marker::Model;

/// A page of the edition whose layers name their files.
#[derive(Drop)]
pub struct NamedPage {
    pub name: PathText,
    /// Whether it prints C, M and Y in addition to K.
    pub colour: bool,
    /// Whether it prints the spot ink S.
    pub spot: bool,
    pub layers: Vec<NamedLayer>,
}

impl Model for NamedPage {
    ghost use Rattle.plan_json.specs.Pages.{PageText};

    ghost Value = { PageText };

    ghost view = { λ p. record { name = p.name; colour = p.colour; spot = p.spot; layers = p.layers.items } };
}

impl Named for NamedPage {
    ghost named = { λ p. p.name };

    fn name(&self) -> &str {
        self.name.as_str()
    }
}

/// An image on a page, with its files given by name. The fields are those of `PlanLayer`, which gives them by
/// index.
#[derive(Drop)]
pub struct NamedLayer {
    pub line: bool,
    pub file: PathText,
    pub x: u32,
    pub y: u32,
    pub scale: u32,
    pub crop: Option<[u32; 4]>,
    pub mask: Option<PathText>,
    pub overprint: bool,
    pub ink: [u8; 5],
}

/// The position of an image on its page, in pixels of the page, and how many of these an image pixel covers.
#[derive(Clone, Copy)]
pub struct Placing {
    pub x: u32,
    pub y: u32,
    pub scale: u32,
}

/// The part of an image that is painted, and how; the fields are those of `PlanLayer`.
#[derive(Drop)]
pub struct Painting {
    pub crop: Option<[u32; 4]>,
    pub mask: Option<PathText>,
    pub overprint: bool,
    pub ink: [u8; 5],
}
