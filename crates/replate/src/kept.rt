// Which new groups print, at which sites, the same two pages as the old job at the same place.
ghost use Rattle.std.specs.Prelude.{◌≡◌, ◌<◌, ◌≤◌, ◌↔◌, ℕ, IsTrue, IfOk, All, length, slice_index_or};
ghost use Rattle.plan_parts.specs.Parts.{IsLayer};
ghost use Rattle.plan_json.specs.Plan.{IsPlan};
ghost use Rattle.plan_rows.specs.Groups.{groups_of};
ghost use Rattle.plan_rows.specs.Inks.{has_site as is_of_site};
ghost use Rattle.replate.specs.Classes.{AreClasses, AreCompared};
ghost use Rattle.replate.specs.Plates.{group_at};
ghost use Rattle.replate.specs.Recipe.{page_recipe};
ghost use Rattle.replate.specs.Standing.{AreAllKept, AreKept, IsOfPlan, SamePages, Stays};

use crate::Inputs;
use crate::alike::same_page;
use crate::classes::Classes;
use crate::standing::{counterpart, group_with};
use plan_json::Page;
use plan_rows::Group;
use pr_base::{NoMemory, SITES};
use std::alloc::Global;

/// An old and a new job, and the classes of their files.
#[derive(Drop)]
struct Compared<'c> {
    before: &'c Inputs<'c>,
    after: &'c Inputs<'c>,
    classes: &'c Classes,
}

/// Returns, for each new group and each site, whether the old job has the same two pages at its place.
pub(crate) fn kept_groups(
    alloc: Global,
    before: &Inputs<'_>,
    after: &Inputs<'_>,
    classes: &Classes,
) -> Result<Vec<[bool; SITES]>, NoMemory>
    requires classes { AreClasses before.now.files after.now.files classes.now }
    ensures count { IfOk result (λ kept. length kept.items ≡ length (groups_of after.now.plan)) }
    ensures kept { IfOk result (λ kept.
        AreAllKept before.now after.now (length (groups_of after.now.plan)) kept.items) }
    ensures plan { IsPlan after.now.plan }
{
    let plan = after.plan();
    let sites = plan.site_count();
    let jobs = Compared {
        before,
        after,
        classes,
    };
    let mut kept = Vec::new(alloc);
    for index in 0..after.rows().group_count() {
        let group = group_with(after, index);
        let row = kept_sites(&jobs, group, sites);
        kept.push(row)?;
    }
    Ok(kept)
}

/// Returns, for each site, whether the old job has the same two pages at the place of a new group.
fn kept_sites(jobs: &Compared<'_>, group: &Group, sites: usize) -> [bool; SITES]
    requires classes { AreCompared jobs.now }
    requires group { IsOfPlan jobs.now.after.now.plan group.now }
    requires sites { sites ≡ length jobs.now.after.now.plan.sites }
    requires few { sites ≤ 16 }
    ensures { AreKept jobs.now.before.now jobs.now.after.now group.now
        (length jobs.now.after.now.plan.sites) result }
{
    let mut row = [false; SITES];
    for site in 0..sites {
        row[site] = is_kept(jobs, site, group);
    }
    row
}

/// Returns whether a new group has a site, and the old job has the same two pages at its place.
fn is_kept(jobs: &Compared<'_>, site: usize, group: &Group) -> bool
    requires classes { AreCompared jobs.now }
    requires few { site < 16 }
    requires site { site < length jobs.now.after.now.plan.sites }
    requires group { IsOfPlan jobs.now.after.now.plan group.now }
    ensures found { IsTrue result
        → (its : ℕ) × ((index : ℕ) × Stays jobs.now.before.now jobs.now.after.now site group.now its index) }
    ensures each { (its index : ℕ) → IsTrue (is_of_site group.now site)
        → Stays jobs.now.before.now jobs.now.after.now site group.now its index → IsTrue result }
{
    if !group.has_site(site) {
        return false;
    }
    let (old, new) = (jobs.before, jobs.after);
    match counterpart(new.plan(), site, group, old.plan(), old.rows()) {
        Some((_its, index)) => same_pages(jobs, index, group),
        None => false,
    }
}

/// Returns whether an old group has the two pages of a new one.
fn same_pages(jobs: &Compared<'_>, index: usize, group: &Group) -> bool
    requires classes { AreCompared jobs.now }
    requires index { index < length (groups_of jobs.now.before.now.plan) }
    requires group { IsOfPlan jobs.now.after.now.plan group.now }
    ensures { IsTrue result ↔ SamePages jobs.now.before.now (group_at jobs.now.before.now.plan index)
        jobs.now.after.now group.now }
{
    let old = group_with(jobs.before, index);
    is_same(jobs, old.left, group.left) && is_same(jobs, old.right, group.right)
}

/// Returns whether an old page is the same as a new one.
fn is_same(jobs: &Compared<'_>, old: usize, new: usize) -> bool
    requires classes { AreCompared jobs.now }
    requires old { old < length jobs.now.before.now.plan.pages }
    requires new { new < length jobs.now.after.now.plan.pages }
    ensures { IsTrue result ↔ (page_recipe jobs.now.before.now.plan jobs.now.before.now.files old
        ≡ page_recipe jobs.now.after.now.plan jobs.now.after.now.files new) }
{
    same_page(
        page_at(jobs.before, old),
        page_at(jobs.after, new),
        jobs.classes,
    )
}

/// Returns a page of a job's plan.
fn page_at<'a>(job: &Inputs<'a>, page: usize) -> &'a Page
    requires { page < length job.now.plan.pages }
    ensures page { result.now ≡ slice_index_or job.now.plan.pages page result.now }
    ensures layers { All (IsLayer (length job.now.files)) result.now.layers }
{
    &job.plan().pages[page]
}
