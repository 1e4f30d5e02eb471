// Which plates must be made: of a site, in the order of its files, and of each group, by ink.
ghost use Rattle.std.specs.Prelude.{◌≡◌, ◌<◌, ◌++◌, ◌∷◌, [], false, IfOk, OnOk, length, map, slice_index_or};
ghost use Rattle.pr_base.specs.Ink.{slot_of};
ghost use Rattle.pr_base.specs.declared.ink.Ink.{Ink as InkData};
ghost use Rattle.plan_json.specs.Plan.{IsPlan};
ghost use Rattle.plan_rows.specs.Groups.{groups_of};
ghost use Rattle.plan_rows.specs.Inks.{inks_of};
ghost use Rattle.replate.specs.Plates.{group_at, ink_plates, plates_in};
ghost use Rattle.replate.specs.Remade.{is_picked, picked_bits};
ghost use Rattle.replate.specs.Wanted.{AreWanted, made_for, some_made};

use crate::standing::group_with;
use crate::{Inputs, Picks};
use plan_rows::Group;
use pr_base::{INKS, Ink, NoMemory, SITES};
use std::alloc::Global;

/// Returns, for each plate of a site in the order of its files, whether it must be made.
pub(crate) fn wanted_of(
    alloc: Global,
    after: &Inputs<'_>,
    picks: &Picks,
    site: usize,
) -> Result<Vec<bool>, NoMemory>
    requires picks { length picks.now.kept ≡ length (groups_of after.now.plan) }
    requires site { site < length after.now.plan.sites }
    ensures bits { IfOk result (λ bits. bits.items ≡ picked_bits picks.now after.now.plan site) }
    ensures plan { IsPlan after.now.plan }
{
    let plan = after.plan();
    let sites = plan.site_count();
    prove!(site < sites);
    let mut bits = Vec::new(alloc);
    for index in 0..after.rows().group_count() {
        add_group(&mut bits, after, picks, site, index)?;
    }
    Ok(bits)
}

/// Adds the flags of a group's inks, if it has the site.
fn add_group(
    bits: &mut Vec<bool>,
    after: &Inputs<'_>,
    picks: &Picks,
    site: usize,
    index: usize,
) -> Result<(), NoMemory>
    requires picks { length picks.now.kept ≡ length (groups_of after.now.plan) }
    requires site { site < 16 }
    requires index { index < length (groups_of after.now.plan) }
    ensures { OnOk result (bits.new.items ≡ bits.old.items
        ++ map (is_picked picks.now) (plates_in site (index, group_at after.now.plan index))) }
{
    let group = group_with(after, index);
    if !group.has_site(site) {
        return Ok(());
    }
    for ink in group.inks() {
        add_plate(bits, picks, site, index, *ink)?;
    }
    Ok(())
}

/// Adds the flag of a plate.
fn add_plate(
    bits: &mut Vec<bool>,
    picks: &Picks,
    site: usize,
    index: usize,
    ink: Ink,
) -> Result<(), NoMemory>
    requires site { site < 16 }
    requires index { index < length picks.now.kept }
    ensures { OnOk result (bits.new.items
        ≡ bits.old.items ++ is_picked picks.now (record { site = site; group = index; ink = ink }) ∷ []) }
{
    bits.push(picks.made(site, index, ink))?;
    Ok(())
}

/// Returns, for each new group, whether the plate in each ink must be made for some site, by the ink's slot.
pub fn wanted_inks(
    alloc: Global,
    after: &Inputs<'_>,
    picks: &Picks,
) -> Result<Vec<[bool; INKS]>, NoMemory>
    requires picks { length picks.now.kept ≡ length (groups_of after.now.plan) }
    ensures { IfOk result (λ flags.
        AreWanted picks.now after.now.plan (length (groups_of after.now.plan)) flags.items) }
{
    let mut flags = Vec::new(alloc);
    for index in 0..after.rows().group_count() {
        let group = group_with(after, index);
        flags.push(group_flags(group, picks, index))?;
    }
    Ok(flags)
}

/// Returns the flags of a group.
fn group_flags(group: &Group, picks: &Picks, index: usize) -> [bool; INKS]
    requires index { index < length picks.now.kept }
    ensures { (ink : InkData) → slice_index_or result (slot_of ink) false
        ≡ some_made picks.now group.now index ink }
{
    let mut flags = [false; INKS];
    for ink in Ink::ALL {
        flags[ink.slot()] = is_wanted(group, picks, index, ink);
    }
    flags
}

/// Returns whether the plate of a group in an ink must be made for some site.
#[tactic(auto, using(crate::proofs::WantedLemmas::some_found, crate::proofs::WantedLemmas::none_found))]
fn is_wanted(group: &Group, picks: &Picks, index: usize, ink: Ink) -> bool
    requires index { index < length picks.now.kept }
    ensures { result ≡ some_made picks.now group.now index ink }
{
    for site in 0..SITES {
        if is_made_for(group, picks, index, ink, site) {
            return true;
        }
    }
    false
}

/// Returns whether a site is of the group, and the plate must be made for it.
fn is_made_for(group: &Group, picks: &Picks, index: usize, ink: Ink, site: usize) -> bool
    requires index { index < length picks.now.kept }
    requires site { site < 16 }
    ensures { result ≡ made_for picks.now group.now index ink site }
{
    group.has_site(site) && picks.made(site, index, ink)
}
