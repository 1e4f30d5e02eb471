// The plan of an edition.

use crate::{PlanSite, Section, Zone};
use plan_parts::{Mark, Page, PlanCurve, PlanTile, Screen};
use pr_base::PathText;
use std::marker::Model;

/// An edition plan. It keeps everything that reading checks (`IsPlan`): ranges, lengths, forms of names,
/// distinct names, and indexes within their lists. Lists of five are in the order C, M, Y, K, S.
#[derive(Drop)]
pub struct Plan {
    pub edition: PathText,
    /// Pixels per inch, 1 to 10,000.
    pub dpi: u32,
    pub page_width: u32,
    pub page_height: u32,
    /// Left, top, right and bottom, in pixels.
    pub margins: [u32; 4],
    /// Pixels between the two pages of a plate.
    pub gutter: u32,
    /// The ink limit (TAC): the most that C, M, Y and K may add up to, 0 to 1020.
    pub limit: u16,
    pub tiles: Vec<PlanTile>,
    pub screens: [Screen; 5],
    pub curves: [PlanCurve; 5],
    pub marks: Vec<Mark>,
    pub pages: Vec<Page>,
    pub sections: Vec<Section>,
    pub zones: Vec<Zone>,
    pub sites: Vec<PlanSite>,
    pub(crate) files: Vec<PathText>,
}

impl Model for Plan {
    ghost use Rattle.plan_json.specs.Data.{PlanData};

    ghost Value = { PlanData };

    ghost use Rattle.plan_json.specs.Plan.{IsPlan};
    ghost use Rattle.plan_json.specs.Shown.{shown};

    ghost view = { shown };

    ghost invariant = { λ p. IsPlan (shown p) };
}

impl Plan {
    ghost use Rattle.std.specs.Prelude.{◌≡◌, length};
    ghost use Rattle.pr_base.specs.Number.{IsWithin};
    ghost use Rattle.plan_json.specs.Plan.{IsPlan};

    /// Returns the distinct files in order of first mention: by page, then by layer, the image before the
    /// mask.
    pub fn files(&self) -> &[PathText]
        ensures files { result.now ≡ self.now.files }
        ensures plan { IsPlan self.now }
    {
        &self.files
    }

    /// Returns the number of sites.
    pub fn site_count(&self) -> usize
        ensures count { result ≡ length self.now.sites }
        ensures within { IsWithin 1 16 result }
        ensures plan { IsPlan self.now }
    {
        self.sites.len()
    }
}
