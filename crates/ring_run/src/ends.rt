// The readers of a run before its first row and after its last.
ghost use Rattle.std.specs.Prelude.{◌≡◌, ◌+◌, ◌<◌, ◌≤◌, IfOk, Some, if◌then◌else◌, length, map, take};
ghost use Rattle.plan_json.specs.Plan.{IsPlan};
ghost use Rattle.plan_rows.specs.Inks.{has_site, ink_count};
ghost use Rattle.plan_rows.specs.Plates.{site_plates};
ghost use Rattle.plan_rows.specs.Rows.{rows_of};
ghost use Rattle.ring_run.specs.Fits.{kept_rows};
ghost use Rattle.ring_run.specs.Keyed.{further_count};
ghost use Rattle.ring_run.specs.Seat.{counts_at};
ghost use Rattle.ring_run.specs.Served.{end_of, ends_in, fresh_seats, plates_in};
ghost use Rattle.ring_run.specs.Served.{site_seats as site_seats_lem};

use crate::role::Role;
use crate::seat::Seat;
use crate::{Outcome, SiteEnd};
use ink_keys::{Counts, KeyReader};
use plan_json::Plan;
use plan_pages::plate_shape;
use plan_rows::{Group, RowPlan};
use pr_base::{Deal, NoMemory};
use ring_lanes::Reader;
use site_agent::Site;
use std::alloc::Global;

/// Returns the readers of a run before the first row, each at its end: the sites of a plan, and then the key
/// reader, if the run has one.
pub(crate) fn seats_of<'r, 'p, D: Deal>(
    alloc: Global,
    plan: &Plan,
    rows: &RowPlan,
    out: &str,
    mut readers: Vec<Reader<'r, D>>,
    keys: Option<KeyReader<'p>>,
) -> Result<Vec<Seat<'r, 'p, D>>, NoMemory>
    requires rows { rows.now ≡ rows_of plan.now }
    requires readers { length readers.items ≡ length plan.now.sites + further_count keys }
    ensures { IfOk result (λ seats.
        seats.items ≡ fresh_seats plan.now out.now readers.entry.items keys.entry) }
{
    let Some(key) = keys else {
        return site_seats(alloc, plan, rows, out, readers);
    };
    let Some(last) = readers.pop() else {
        unreachable!()
    };
    let mut seats = site_seats(alloc, plan, rows, out, readers)?;
    seats.push(Seat::new(last, Role::Counting(key)))?;
    Ok(seats)
}

/// Returns the sites of a plan before the first row, each at its end.
fn site_seats<'r, 'p, D: Deal>(
    alloc: Global,
    plan: &Plan,
    rows: &RowPlan,
    out: &str,
    readers: Vec<Reader<'r, D>>,
) -> Result<Vec<Seat<'r, 'p, D>>, NoMemory>
    requires rows { rows.now ≡ rows_of plan.now }
    requires readers { length readers.items ≡ length plan.now.sites }
    ensures { IfOk result (λ seats. seats.items ≡ site_seats_lem plan.now out.now readers.entry.items) }
{
    let mut seats = Vec::new(alloc);
    for reader in readers {
        let site = Site::new(alloc, plan, rows, out, seats.len())?;
        seats.push(Seat::new(reader, Role::Going(site)))?;
    }
    Ok(seats)
}

/// Returns how the sites ended, and the counts of the key reader, if the run had one. Fails if a site ran out
/// of memory.
pub(crate) fn ends_of<D: Deal>(
    alloc: Global,
    plan: &Plan,
    rows: &RowPlan,
    mut seats: Vec<Seat<'_, '_, D>>,
) -> Result<(Outcome, Option<Counts>), NoMemory>
    requires plan { IsPlan plan.now }
    requires rows { rows.now ≡ rows_of plan.now }
    requires seats { length seats.items ≤ length plan.now.sites + 1 }
    ensures ends { IfOk result (λ pair.
        map Some pair.0.sites.items ≡ ends_in plan.now (take (length plan.now.sites) seats.entry.items)) }
    ensures counts { IfOk result (λ pair. pair.1 ≡ counts_at (length plan.now.sites) seats.entry.items) }
{
    let counts = take_counts(plan.sites.len(), &mut seats);
    let sites = site_ends(alloc, plan, rows, seats)?;
    Ok((Outcome { sites }, counts))
}

/// Takes the key reader from the end of the seats, if one follows those of this many sites, and returns its
/// counts.
fn take_counts<D: Deal>(sites: usize, seats: &mut Vec<Seat<'_, '_, D>>) -> Option<Counts>
    requires { length seats.old.items ≤ sites + 1 }
    ensures seats { seats.new.items ≡ take sites seats.old.items }
    ensures counts { result ≡ counts_at sites seats.old.items }
{
    if seats.len() <= sites {
        return None;
    }
    seats.pop()?.into_role().into_counts()
}

/// Returns how the sites ended. Fails if one of them ran out of memory.
fn site_ends<D: Deal>(
    alloc: Global,
    plan: &Plan,
    rows: &RowPlan,
    seats: Vec<Seat<'_, '_, D>>,
) -> Result<Vec<SiteEnd>, NoMemory>
    requires plan { IsPlan plan.now }
    requires rows { rows.now ≡ rows_of plan.now }
    requires seats { length seats.items ≤ length plan.now.sites }
    ensures { IfOk result (λ ends. map Some ends.items ≡ ends_in plan.now seats.entry.items) }
{
    let mut ends = Vec::new(alloc);
    for seat in seats {
        let end = end_at(plan, rows, ends.len(), seat.into_role()).ok_or(NoMemory)?;
        ends.push(end)?;
    }
    Ok(ends)
}

/// Returns how a site ended, or `None` if it ran out of memory or is no site.
fn end_at(plan: &Plan, rows: &RowPlan, index: usize, role: Role<'_>) -> Option<SiteEnd>
    requires plan { IsPlan plan.now }
    requires rows { rows.now ≡ rows_of plan.now }
    requires index { index < length plan.now.sites }
    ensures { result ≡ end_of plan.now index role.entry }
{
    match role {
        Role::Going(_site) => Some(finished(plan, rows, index)),
        Role::Left(cause) => Some(SiteEnd::Left(cause)),
        Role::Stopped => None,
        Role::Counting(_key) => None,
    }
}

/// Returns the end of a site that has all its plates.
fn finished(plan: &Plan, rows: &RowPlan, site: usize) -> SiteEnd
    requires plan { IsPlan plan.now }
    requires rows { rows.now ≡ rows_of plan.now }
    requires site { site < length plan.now.sites }
    ensures { result ≡ SiteEnd.Finished (length (site_plates plan.now site)) (kept_rows plan.now site) }
{
    let plates = plate_count(rows, site);
    SiteEnd::Finished {
        plates,
        rows: plates as u64 * plate_shape(plan).height as u64,
    }
}

/// Returns the number of a site's plates.
fn plate_count(rows: &RowPlan, site: usize) -> u32
    requires { site < 16 }
    ensures { result ≡ length (plates_in rows.now.groups site) }
{
    let mut count = 0;
    let groups = rows.groups();
    for group in groups {
        count += printed(group, site);
    }
    count
}

/// Returns the number of a site's plates from a group.
fn printed(group: &Group, site: usize) -> u32
    requires { site < 16 }
    ensures count { result ≡ (if has_site group.now site then ink_count group.now else 0) }
    ensures most { result ≤ 5 }
{
    if group.has_site(site) {
        group.inks().len() as u32
    } else {
        0
    }
}
