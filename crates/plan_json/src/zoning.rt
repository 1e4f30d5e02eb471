// Which pages form which sections, and which site prints which pages.

use plan_parts::Named;
use pr_base::PathText;
use std::marker::Model;

/// A section: the indexes of its pages, an even number of them, at most 128.
#[derive(Drop)]
pub struct Section {
    pub name: PathText,
    pub pages: Vec<usize>,
}

impl Model for Section {
    ghost use Rattle.std.specs.Prelude.{◌≤◌, length};
    ghost use Rattle.plan_json.specs.Data.{SectionData};

    ghost Value = { SectionData };

    ghost view = { λ s. record { name = s.name; pages = s.pages.items } };

    ghost invariant = { λ s. length s.pages.items ≤ 128 };
}

impl Named for Section {
    ghost named = { λ x. x.name };

    fn name(&self) -> &str {
        self.name.as_str()
    }
}

/// A page that is printed instead of a section's own.
#[derive(Clone, Copy, PartialEq, Eq)]
pub struct Replace {
    pub section: usize,
    /// The page's number in the section, from 1.
    pub page: u32,
    /// The index of the page printed instead.
    pub with: usize,
}

/// A zone of the edition.
#[derive(Drop)]
pub struct Zone {
    pub name: PathText,
    pub replace: Vec<Replace>,
}

impl Model for Zone {
    ghost use Rattle.plan_json.specs.Data.{ZoneData};

    ghost Value = { ZoneData };

    ghost view = { λ z. record { name = z.name; replace = z.replace.items } };
}

impl Named for Zone {
    ghost named = { λ x. x.name };

    fn name(&self) -> &str {
        self.name.as_str()
    }
}

/// A print site. Without a zone it prints the sections' own pages.
#[derive(Drop)]
pub struct PlanSite {
    pub name: PathText,
    pub zone: Option<usize>,
}

impl Named for PlanSite {
    ghost named = { λ x. x.name };

    fn name(&self) -> &str {
        self.name.as_str()
    }
}
