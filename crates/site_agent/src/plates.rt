// The plates of a site, derived from a plan.
ghost use Rattle.std.specs.Prelude.{◌≡◌, ◌+◌, ◌++◌, ◌∷◌, ◌<◌, ◌≤◌, ◌^◌, [], if◌then◌else◌, IfOk, OnOk};
ghost use Rattle.std.specs.Prelude.{length, map};
ghost use Rattle.plan_json.specs.Plan.{IsPlan};
ghost use Rattle.plan_rows.specs.Inks.{has_site, ink_place};
ghost use Rattle.plan_rows.specs.Plates.{group_plates, site_plates};
ghost use Rattle.plan_rows.specs.Rows.{rows_of};
ghost use Rattle.tif_plate.specs.Plate.{IsDpi, IsSide};
ghost use Rattle.site_agent.specs.Picked.{kept_where};
ghost use Rattle.site_agent.specs.Plan.{plate_of};
ghost use Rattle.site_agent.specs.Site.{AreFresh};

use crate::plate::SitePlate;
use plan_json::Plan;
use plan_rows::{Group, RowPlan, plate_path};
use plate_bytes::PlateStrips;
use pr_base::{INKS, Ink, NoMemory};
use std::alloc::Global;
use tif_plate::Sides;

/// Returns the plates of a site, group by group and ink by ink.
#[tactic(auto, unfolding(plan_rows::specs::Plates::site_plates))]
pub(crate) fn plates_of(
    alloc: Global,
    plan: &Plan,
    rows: &RowPlan,
    out: &str,
    site: usize,
) -> Result<Vec<SitePlate>, NoMemory>
    requires plan { IsPlan plan.now }
    requires rows { rows.now ≡ rows_of plan.now }
    requires site { site < length plan.now.sites }
    ensures { IfOk result (λ plates.
        plates.items ≡ map (plate_of plan.now out.now site) (site_plates plan.now site)) }
{
    let mut plates = Vec::new(alloc);
    let groups = rows.groups();
    for group in groups {
        add_plates(alloc, plan, out, site, group, &mut plates)?;
    }
    Ok(plates)
}

/// Appends the plates of a group if the site prints it.
fn add_plates(
    alloc: Global,
    plan: &Plan,
    out: &str,
    site: usize,
    group: &Group,
    plates: &mut Vec<SitePlate>,
) -> Result<(), NoMemory>
    requires site { site < length plan.now.sites }
    requires few { site < 16 }
    requires section { group.now.section < length plan.now.sections }
    requires first { group.now.first < 2 ^ 32 }
    ensures { OnOk result (
        plates.new.items
        ≡ (if has_site group.now site
        then plates.old.items ++ map (plate_of plan.now out.now site) (group_plates group.now)
        else plates.old.items)) }
{
    if !group.has_site(site) {
        return Ok(());
    }
    let inks = group.inks();
    for i in 0..inks.len() {
        let ink = inks[i];
        let made = plate(alloc, plan, out, site, group, i, ink)?;
        plates.push(made)?;
    }
    Ok(())
}

/// Returns the plate of a group in the ink at this index among the group's inks.
fn plate(
    alloc: Global,
    plan: &Plan,
    out: &str,
    site: usize,
    group: &Group,
    place: usize,
    ink: Ink,
) -> Result<SitePlate, NoMemory>
    requires site { site < length plan.now.sites }
    requires section { group.now.section < length plan.now.sections }
    requires first { group.now.first < 2 ^ 32 }
    requires few { place < 5 }
    requires place { place ≡ ink_place group.now ink }
    ensures { IfOk result (λ plate. plate ≡ plate_of plan.now out.now site (group.now, ink)) }
{
    let path = plate_path(alloc, plan, out, site, group, ink)?;
    Ok(SitePlate {
        path,
        first: group.first + place as u64,
        step: group.inks().len() as u32,
        slot: ink.slot(),
    })
}

/// Returns the wanted ones of these plates.
pub(crate) fn picked_of(
    alloc: Global,
    plates: Vec<SitePlate>,
    wanted: &[bool],
) -> Result<Vec<SitePlate>, NoMemory>
    requires { length wanted.now ≡ length plates.items }
    ensures { IfOk result (λ picked. picked.items ≡ kept_where wanted.now plates.items) }
{
    let mut picked = Vec::new(alloc);
    let mut index = 0;
    for plate in plates {
        add_wanted(&mut picked, plate, wanted[index])?;
        index += 1;
    }
    Ok(picked)
}

/// Appends a plate if it is wanted.
fn add_wanted(plates: &mut Vec<SitePlate>, plate: SitePlate, wanted: bool) -> Result<(), NoMemory>
    ensures { OnOk result (
        plates.new.items ≡ plates.old.items ++ (if wanted then plate ∷ [] else [])) }
{
    if wanted {
        plates.push(plate)?;
    }
    Ok(())
}

/// Returns the strips of the plates in the slots, none of which has a row.
pub(crate) fn empty_slots(alloc: Global, sides: Sides) -> Result<Vec<PlateStrips>, NoMemory>
    requires width { IsSide sides.width }
    requires height { IsSide sides.height }
    requires dpi { IsDpi sides.dpi }
    ensures { IfOk result (λ slots. AreFresh sides slots.items) }
{
    let mut slots = Vec::new(alloc);
    for _i in 0..INKS {
        slots.push(PlateStrips::new(alloc, sides)?)?;
    }
    Ok(slots)
}
