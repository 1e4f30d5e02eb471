// All rows of a plan, by number.
ghost use Rattle.std.specs.Prelude.{◌≡◌, ◌<◌, ◌≤◌, ◌+◌, ◌*◌, [], ◌∷◌, length, slice_get, Some, IfOk, OnOk};

use crate::counts::{pages_in, section_count};
use crate::parting::{group_of, is_first, site_pages};
use crate::{Group, RowPlace};
use plan_json::Plan;
use plan_pages::plate_shape;
use pr_base::{NoMemory, SITES};
use std::alloc::Global;
use std::marker::Model;

/// The most pairs that a section may have.
const MOST_PAIRS: usize = 64;

/// The most groups that a plan may have: 8 sections of 64 pairs, and one group for each of 16 sites.
const MOST_GROUPS: usize = 8 * MOST_PAIRS * SITES;

/// The order of all rows of a plan: section, pair, group, y, ink. The rows of a group are consecutive.
#[derive(Drop)]
pub struct RowPlan {
    groups: Vec<Group>,
    height: u32,
    total: u64,
}

impl Model for RowPlan {
    ghost use Rattle.plan_rows.specs.Rows.{IsRowPlan, RowPlanData};

    ghost Value = { RowPlanData };

    ghost view = { λ r. record { groups = r.groups.items; height = r.height } };

    ghost invariant = { λ r. IsRowPlan r.total (record { groups = r.groups.items; height = r.height }) };
}

impl RowPlan {
    ghost use Rattle.pr_base.specs.declared.ink.Ink.{Ink};
    ghost use Rattle.pr_base.specs.Ink.{slot_of};
    ghost use Rattle.pr_base.specs.Number.{IsWithin};
    ghost use Rattle.plan_pages.specs.Pages.{page_count};
    ghost use Rattle.plan_rows.specs.Groups.{pair_groups, section_groups};
    ghost use Rattle.plan_rows.specs.Rows.{IsGroupAt, added, keeps_in, places_in, rows_of};

    /// Makes the row plan of a plan.
    #[tactic(auto, unfolding(crate::specs::Groups::groups_of))]
    pub fn of(alloc: Global, plan: &Plan) -> Result<RowPlan, NoMemory>
        ensures { IfOk result (λ rows. rows ≡ rows_of plan.now) }
    {
        let mut rows = RowPlan::empty(alloc, plate_shape(plan).height);
        for section in 0..section_count(plan) {
            rows.add_section(plan, section)?;
        }
        Ok(rows)
    }

    /// Makes a row plan without groups.
    fn empty(alloc: Global, height: u32) -> RowPlan
        requires { IsWithin 1 65535 height }
        ensures { result ≡ record { groups = []; height = height } }
    {
        RowPlan {
            groups: Vec::new(alloc),
            height,
            total: 0,
        }
    }

    /// Appends the groups of a section.
    fn add_section(&mut self, plan: &Plan, section: u32) -> Result<(), NoMemory>
        requires section { section < length plan.now.sections }
        requires room { length self.old.groups + 1024 ≤ 8192 }
        ensures groups { OnOk result (self.new ≡ added self.old (section_groups plan.now section)) }
        ensures count { OnOk result (length self.new.groups ≤ length self.old.groups + 1024) }
    {
        prove!(self.groups.len() + SITES * MOST_PAIRS <= MOST_GROUPS);
        for pair in 1..pages_in(plan, section as usize) / 2 + 1 {
            self.add_pair(plan, section, pair)?;
        }
        Ok(())
    }

    /// Appends the groups of a pair of a section.
    fn add_pair(&mut self, plan: &Plan, section: u32, pair: u32) -> Result<(), NoMemory>
        requires section { section < length plan.now.sections }
        requires first { 1 ≤ pair }
        requires last { 2 * pair ≤ page_count plan.now section }
        requires room { length self.old.groups + 16 ≤ 8192 }
        ensures groups { OnOk result (self.new ≡ added self.old (pair_groups plan.now section pair)) }
        ensures count { OnOk result (length self.new.groups ≤ length self.old.groups + 16) }
    {
        prove!(self.groups.len() + SITES <= MOST_GROUPS);
        let pages = site_pages(plan, section as usize, pair);
        let sites = plan.site_count();
        let pages = &pages[..sites];
        for site in 0..sites {
            if is_first(pages, site) {
                self.add(group_of(plan, section, pair, pages, site))?;
            }
        }
        Ok(())
    }

    /// Appends a group, whose rows follow all rows so far.
    fn add(&mut self, group: Group) -> Result<(), NoMemory>
        requires { length self.old.groups < 8192 }
        ensures { OnOk result (self.new ≡ added self.old (group ∷ [])) }
    {
        let rows = self.height as usize * group.inks().len();
        self.groups.push(Group {
            first: self.total,
            ..group
        })?;
        self.total += rows as u64;
        Ok(())
    }

    /// Returns all groups, in the order of their rows.
    pub fn groups(&self) -> &[Group]
        ensures groups { result.now ≡ self.now.groups }
        ensures most { length result.now ≤ 8192 }
    {
        &self.groups
    }

    /// Returns the number of groups.
    pub fn group_count(&self) -> usize
        ensures count { result ≡ length self.now.groups }
        ensures most { result ≤ 8192 }
    {
        self.groups.len()
    }

    /// Lends the group with this index.
    pub fn group(&self, index: usize) -> &Group
        requires { index < length self.now.groups }
        ensures { slice_get self.now.groups index ≡ Some result.now }
    {
        &self.groups[index]
    }

    /// Returns the number of rows.
    pub fn total(&self) -> u64
        ensures total { result ≡ length (places_in self.now) }
        ensures most { result ≤ 2684313600 }
    {
        self.total
    }

    /// Returns the place of row `n`.
    pub fn row_at(&self, n: u64) -> RowPlace
        requires { n < length (places_in self.now) }
        ensures place { slice_get (places_in self.now) n ≡ Some result }
        ensures group { result.group < length self.now.groups }
        ensures y { result.y < self.now.height }
        ensures slot { result.slot ≡ slot_of result.ink }
    {
        let index = self.group_of_row(n);
        let group = &self.groups[index];
        let inks = group.inks();
        let within = (n - group.first) as usize;
        let y = (within / inks.len()) as u32;
        RowPlace::of(index, y, inks[within % inks.len()])
    }

    /// Returns whether a site keeps row `n`.
    pub fn keeps(&self, site: usize, n: u64) -> bool
        requires site { site < 16 }
        requires row { n < length (places_in self.now) }
        ensures { result ≡ keeps_in self.now site n }
    {
        let index = self.group_of_row(n);
        self.groups[index].has_site(site)
    }

    /// Returns the index of the group of row `n`, found by binary search.
    fn group_of_row(&self, n: u64) -> usize
        requires { n < length (places_in self.now) }
        ensures { IsGroupAt self.now n result }
    {
        let mut low = 0;
        let mut high = self.groups.len();
        while high - low > 1 {
            let middle = low + (high - low) / 2;
            if self.groups[middle].first <= n {
                low = middle;
            } else {
                high = middle;
            }
        }
        low
    }
}
