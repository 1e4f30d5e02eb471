// The site and group of another plan that the path of a plate names.
ghost use Rattle.std.specs.Prelude.{◌≡◌, ◌<◌, ◌↔◌, ℕ, IsTrue, IfSome, IfNone, length};
ghost use Rattle.plan_json.specs.Plan.{IsPlan};
ghost use Rattle.plan_rows.specs.Groups.{groups_of};
ghost use Rattle.plan_rows.specs.Inks.{has_site as is_of_site};
ghost use Rattle.plan_rows.specs.Paths.{section_name as name_of_section, site_name as name_of_site};
ghost use Rattle.plan_rows.specs.Rows.{rows_of};
ghost use Rattle.replate.specs.Plates.{group_at};
ghost use Rattle.replate.specs.Standing.{IsGroupOf, IsOfPlan, StandsFor};

use crate::Inputs;
use plan_json::Plan;
use plan_rows::{Group, RowPlan, section_name, site_name};
use pr_base::SITES;

/// Returns the site and the group of another plan whose plates have, except for the edition, the paths of the
/// plates of this group at this site.
pub(crate) fn counterpart(
    plan: &Plan,
    site: usize,
    group: &Group,
    other: &Plan,
    rows: &RowPlan,
) -> Option<(usize, usize)>
    requires site { site < length plan.now.sites }
    requires section { group.now.section < length plan.now.sections }
    requires rows { rows.now ≡ rows_of other.now }
    ensures found { IfSome result (λ place. StandsFor plan.now site group.now other.now place.0 place.1) }
    ensures none { IfNone result
        ((its index : ℕ) → StandsFor plan.now site group.now other.now its index → ⊥) }
    ensures other { IsPlan other.now }
{
    let Some(its) = site_named(other, site_name(plan, site)) else {
        return None;
    };
    let Some(section) = section_named(other, section_name(plan, group.section as usize)) else {
        return None;
    };
    let Some(index) = group_of(rows.groups(), section, group.pair, its) else {
        return None;
    };
    Some((its, index))
}

/// Returns the group of a job's plan with this index.
pub(crate) fn group_with<'a>(job: &Inputs<'a>, index: usize) -> &'a Group
    requires { index < length (groups_of job.now.plan) }
    ensures group { result.now ≡ group_at job.now.plan index }
    ensures of_plan { IsOfPlan job.now.plan result.now }
    ensures plan { IsPlan job.now.plan }
{
    let plan = job.plan();
    let sites = plan.site_count();
    prove!(sites <= SITES);
    job.rows().group(index)
}

/// Returns the group of a section, a pair and a site.
fn group_of(groups: &[Group], section: usize, pair: u32, site: usize) -> Option<usize>
    requires { site < 16 }
    ensures found { IfSome result (IsGroupOf groups.now section pair site) }
    ensures none { IfNone result ((index : ℕ) → IsGroupOf groups.now section pair site index → ⊥) }
{
    for (index, group) in groups.iter().enumerate() {
        if is_group_of(group, section, pair, site) {
            return Some(index);
        }
    }
    None
}

fn is_group_of(group: &Group, section: usize, pair: u32, site: usize) -> bool
    requires { site < 16 }
    ensures { IsTrue result ↔ ((group.now.section ≡ section) × (group.now.pair ≡ pair)
        × IsTrue (is_of_site group.now site)) }
{
    group.section as usize == section && group.pair == pair && group.has_site(site)
}

fn site_named(plan: &Plan, name: &str) -> Option<usize>
    ensures found { IfSome result (λ site. site < length plan.now.sites) }
    ensures named { IfSome result (λ site. name_of_site plan.now site ≡ name.now) }
    ensures none { IfNone result
        ((site : ℕ) → site < length plan.now.sites → name_of_site plan.now site ≡ name.now → ⊥) }
    ensures plan { IsPlan plan.now }
{
    for site in 0..plan.sites.len() {
        if site_name(plan, site) == name {
            return Some(site);
        }
    }
    None
}

fn section_named(plan: &Plan, name: &str) -> Option<usize>
    ensures found { IfSome result (λ section. section < length plan.now.sections) }
    ensures named { IfSome result (λ section. name_of_section plan.now section ≡ name.now) }
    ensures none { IfNone result
        ((section : ℕ) → section < length plan.now.sections
        → name_of_section plan.now section ≡ name.now → ⊥) }
{
    for section in 0..plan.sections.len() {
        if section_name(plan, section) == name {
            return Some(section);
        }
    }
    None
}
