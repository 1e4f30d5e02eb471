// The picks: which new plates must be made, and which old plates are dropped.
ghost use Rattle.std.specs.Prelude.{◌≡◌, ◌<◌, ◌↔◌, ℕ, false, IsTrue, IfOk, length, slice_index_or};
ghost use Rattle.replate.specs.Standing.{IsAlike};

use crate::alike::{same_edition, same_screen, same_settings};
use crate::classes::Classes;
use crate::dropped::dropped_plates;
use crate::kept::kept_groups;
use crate::{Inputs, OldPlate};
use plan_json::Plan;
use pr_base::{INKS, Ink, NoMemory, SITES};
use std::alloc::Global;
use std::marker::Model;

/// Which plates of a new job must be made, compared with an old job, and which old plates are dropped. They
/// take one byte for each site that a plan may have, for each group of the new plan.
#[derive(Drop)]
pub struct Picks {
    alike: [bool; INKS],
    kept: Vec<[bool; SITES]>,
    dropped: Vec<OldPlate>,
}

impl Model for Picks {
    ghost use Rattle.replate.specs.Picks.{PicksData};

    ghost Value = { PicksData };

    ghost view = { λ p. record { alike = p.alike; kept = p.kept.items; dropped = p.dropped.items } };
}

impl Picks {
    ghost use Rattle.plan_rows.specs.Groups.{groups_of};
    ghost use Rattle.replate.specs.Picks.{MustMake, dropped_of, is_made};
    ghost use Rattle.replate.specs.Plates.{PlateAt, IsPlateOf};

    /// Compares two jobs. Fails only when out of memory.
    pub fn of(alloc: Global, before: &Inputs<'_>, after: &Inputs<'_>) -> Result<Picks, NoMemory>
        // Exactly the plates that must be made are reported as such.
        ensures made { IfOk result (λ picks. (new : PlateAt) → IsPlateOf after.now.plan new
            → IsTrue (is_made picks new.site new.group new.ink)
            ↔ MustMake before.now after.now new) }
        ensures dropped { IfOk result (λ picks. picks.dropped ≡ dropped_of before.now.plan after.now.plan) }
        ensures groups { IfOk result (λ picks. length picks.kept ≡ length (groups_of after.now.plan)) }
    {
        let classes = Classes::of(alloc, before.files(), after.files())?;
        let kept = kept_groups(alloc, before, after, &classes)?;
        let dropped = dropped_plates(alloc, before, after)?;
        let alike = alike_inks(before.plan(), after.plan());
        Ok(Picks {
            alike,
            kept,
            dropped,
        })
    }

    /// Returns whether the plate of a new group in an ink must be made for a site.
    pub fn made(&self, site: usize, group: usize, ink: Ink) -> bool
        requires site { site < 16 }
        requires group { group < length self.now.kept }
        ensures { result ≡ is_made self.now site group ink }
    {
        let row = &self.kept[group];
        !(self.alike[ink.slot()] && row[site])
    }

    /// Returns the old plates whose path no new plate has, by old site and then in the order of its files.
    pub fn dropped(&self) -> &[OldPlate]
        ensures { result.now ≡ self.now.dropped }
    {
        &self.dropped
    }
}

/// Returns, for each ink, whether both plans have the same edition and settings, and screen it alike.
fn alike_inks(before: &Plan, after: &Plan) -> [bool; INKS]
    ensures { (slot : ℕ) → slot < 5
        → IsTrue (slice_index_or result slot false) ↔ IsAlike before.now after.now slot }
{
    let mut alike = [false; INKS];
    for slot in 0..INKS {
        alike[slot] = is_alike(before, after, slot);
    }
    alike
}

/// Returns whether both plans have the same edition and settings, and screen the ink in a slot alike.
fn is_alike(before: &Plan, after: &Plan, slot: usize) -> bool
    requires { slot < 5 }
    ensures { IsTrue result ↔ IsAlike before.now after.now slot }
{
    let (old, new) = (before.screens[slot], after.screens[slot]);
    same_edition(before, after)
        && same_settings(before, after)
        && same_screen(before, old, after, new)
}
