// The old plates whose path no new plate has.
ghost use Rattle.std.specs.Prelude.{◌≡◌, ◌<◌, ◌++◌, ◌∷◌, [], ℕ, IfOk, OnOk, filter, if◌then◌else◌, length};
ghost use Rattle.std.specs.Option.{ForNone, ForSome};
ghost use Rattle.plan_json.specs.Plan.{IsPlan};
ghost use Rattle.plan_rows.specs.Groups.{groups_of};
ghost use Rattle.plan_rows.specs.Inks.{inks_of};
ghost use Rattle.replate.specs.Picks.{dropped_of, is_dropped as is_left_out};
ghost use Rattle.replate.specs.Plates.{group_at, ink_plates, plates_in, plates_of};
ghost use Rattle.replate.specs.Standing.{StandsFor};

use crate::alike::same_edition;
use crate::standing::{counterpart, group_with};
use crate::{Inputs, OldPlate};
use pr_base::NoMemory;
use std::alloc::Global;

/// Returns the old plates whose path no new plate has, by old site and then in the order of its files.
pub(crate) fn dropped_plates(
    alloc: Global,
    before: &Inputs<'_>,
    after: &Inputs<'_>,
) -> Result<Vec<OldPlate>, NoMemory>
    ensures dropped { IfOk result (λ plates. plates.items ≡ dropped_of before.now.plan after.now.plan) }
    ensures plan { IsPlan before.now.plan }
{
    let mut plates = Vec::new(alloc);
    let plan = before.plan();
    for site in 0..plan.site_count() {
        add_site(&mut plates, before, after, site)?;
    }
    Ok(plates)
}

/// Adds the dropped plates of a site.
fn add_site(
    plates: &mut Vec<OldPlate>,
    before: &Inputs<'_>,
    after: &Inputs<'_>,
    site: usize,
) -> Result<(), NoMemory>
    requires site { site < length before.now.plan.sites }
    ensures { OnOk result (plates.new.items ≡ plates.old.items
        ++ filter (is_left_out before.now.plan after.now.plan) (plates_of before.now.plan site)) }
{
    for index in 0..before.rows().group_count() {
        add_group(plates, before, after, site, index)?;
    }
    Ok(())
}

/// Adds the dropped plates of a group's inks, if it has the site.
fn add_group(
    plates: &mut Vec<OldPlate>,
    before: &Inputs<'_>,
    after: &Inputs<'_>,
    site: usize,
    index: usize,
) -> Result<(), NoMemory>
    requires site { site < length before.now.plan.sites }
    requires index { index < length (groups_of before.now.plan) }
    ensures { OnOk result (plates.new.items ≡ plates.old.items
        ++ filter (is_left_out before.now.plan after.now.plan)
        (plates_in site (index, group_at before.now.plan index))) }
{
    let group = group_with(before, index);
    if !group.has_site(site) {
        return Ok(());
    }
    let place = counterpart(before.plan(), site, group, after.plan(), after.rows());
    for ink in group.inks() {
        let plate = OldPlate {
            site,
            group: index,
            ink: *ink,
        };
        let dropped = is_dropped(before, after, plate, place);
        add_dropped(plates, plate, dropped)?;
    }
    Ok(())
}

/// Adds a plate if it is dropped.
fn add_dropped(plates: &mut Vec<OldPlate>, plate: OldPlate, dropped: bool) -> Result<(), NoMemory>
    ensures { OnOk result (plates.new.items
        ≡ plates.old.items ++ (if dropped then plate ∷ [] else [])) }
{
    if dropped {
        plates.push(plate)?;
    }
    Ok(())
}

/// Returns whether no new plate has the path of an old one. Its place is the site and group of the new plates
/// that could have it.
fn is_dropped(
    before: &Inputs<'_>,
    after: &Inputs<'_>,
    plate: OldPlate,
    place: Option<(usize, usize)>,
) -> bool
    requires site { plate.site < length before.now.plan.sites }
    requires group { plate.group < length (groups_of before.now.plan) }
    requires found { ForSome place (λ at. StandsFor before.now.plan plate.site
        (group_at before.now.plan plate.group) after.now.plan at.0 at.1) }
    requires none { ForNone place ((its index : ℕ) → StandsFor before.now.plan plate.site
        (group_at before.now.plan plate.group) after.now.plan its index → ⊥) }
    ensures { result ≡ is_left_out before.now.plan after.now.plan plate }
{
    if !same_edition(before.plan(), after.plan()) {
        return true;
    }
    match place {
        Some((_its, index)) => !group_with(after, index).has_ink(plate.ink),
        None => true,
    }
}
