// How inks are printed: threshold tiles, screens, tone curves, and the marks on the plate.

use crate::Named;
use pr_base::PathText;
use std::marker::Model;

/// A custom threshold tile of the plan: `width * height` thresholds, row by row.
#[derive(Drop)]
pub struct PlanTile {
    pub name: PathText,
    /// The width in pixels, 1 to 64.
    pub width: u32,
    /// The height in pixels, 1 to 64.
    pub height: u32,
    pub at: Vec<u8>,
}

impl Model for PlanTile {
    ghost use Rattle.plan_parts.specs.Data.{TileData};

    ghost Value = { TileData };

    ghost view = { λ t. record { name = t.name; width = t.width; height = t.height; at = t.at.items } };
}

impl Named for PlanTile {
    ghost named = { λ t. t.name };

    fn name(&self) -> &str {
        self.name.as_str()
    }
}

/// The screen of an ink.
#[derive(Clone, Copy, PartialEq, Eq)]
pub enum Screen {
    /// Ordered dither with the Bayer tile of this side: 2, 4, 8 or 16.
    Bayer(u8),
    /// Error diffusion.
    Diffuse,
    /// The plan's tile with this index.
    Own(usize),
}

/// A tone curve, given by its points: an input ink value, and the value that it becomes.
#[derive(Drop)]
pub struct PlanCurve {
    pub points: Vec<(u8, u8)>,
}

impl Model for PlanCurve {
    ghost use Rattle.plan_parts.specs.Data.{CurveData};

    ghost Value = { CurveData };

    ghost view = { λ c. c.points.items };
}

/// A filled rectangle that is printed on each plate of its inks, in pixels of the plate.
#[derive(Clone, Copy, PartialEq, Eq)]
pub struct Mark {
    /// Whether the mark has each of the inks C, M, Y, K, S.
    pub inks: [bool; 5],
    pub x: u32,
    pub y: u32,
    pub w: u32,
    pub h: u32,
}
