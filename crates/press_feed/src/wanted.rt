// Which rows of a job are requested: a hint for what is made ahead.
ghost use Rattle.std.specs.Prelude.{◌≡◌, None};

use crate::screener::has_diffused;
use plan_json::Plan;
use plan_rows::Group;
use pr_base::{INKS, Ink};

/// The plates whose rows are requested. Rows of other plates aren't made ahead; one that is requested all the
/// same is made by itself. Contracts see the flags.
#[derive(Clone, Copy)]
pub struct Wanted<'w> {
    /// For each group, whether the plate in each ink is wanted, by the ink's slot. If a group has no flags,
    /// all its plates are.
    pub flags: Option<&'w [[bool; INKS]]>,
}

impl<'w> Wanted<'w> {
    /// All rows are requested.
    pub fn all() -> Wanted<'w>
        ensures { result.flags ≡ None }
    {
        Wanted { flags: None }
    }

    /// Returns whether the rows of a plate in an ink are requested in some group, of so many.
    pub(crate) fn has_ink(self, groups: usize, ink: Ink) -> bool {
        (0..groups).any(|group| self.has(group, ink))
    }

    /// Returns whether a plate of a group, by its index, is wanted in an ink that a plan diffuses.
    pub(crate) fn diffuses(self, plan: &Plan, index: usize, group: &Group) -> bool {
        group
            .inks()
            .iter()
            .any(|ink| self.has(index, *ink) && has_diffused(plan, *ink))
    }

    /// Returns whether the rows of a plate are requested, by the index of its group and its ink.
    pub(crate) fn has(self, group: usize, ink: Ink) -> bool {
        match self.flags {
            Some(flags) if group < flags.len() => flags[group][ink.slot()],
            _ => true,
        }
    }
}
