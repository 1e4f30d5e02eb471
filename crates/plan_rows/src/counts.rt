// The numbers of sections and pages of a plan.
ghost use Rattle.std.specs.Prelude.{◌≡◌, ◌<◌, ◌%◌, length};
ghost use Rattle.pr_base.specs.Number.{IsWithin};
ghost use Rattle.plan_json.specs.Plan.{IsPlan};
ghost use Rattle.plan_pages.specs.Pages.{page_count, section_pages};

use plan_json::Plan;

/// Returns the number of sections.
pub(crate) fn section_count(plan: &Plan) -> u32
    ensures count { result ≡ length plan.now.sections }
    ensures within { IsWithin 1 8 result }
{
    plan.sections.len() as u32
}

/// Returns the number of pages of a section, which is even.
pub(crate) fn pages_in(plan: &Plan, section: usize) -> u32
    requires { section < length plan.now.sections }
    ensures count { result ≡ page_count plan.now section }
    ensures even { result % 2 ≡ 0 }
    ensures within { IsWithin 2 128 result }
{
    let pages = own_pages(plan, section);
    prove!(pages.len() <= 128);
    pages.len() as u32
}

/// Returns the pages of a section.
fn own_pages(plan: &Plan, section: usize) -> &[usize]
    requires { section < length plan.now.sections }
    ensures pages { result.now ≡ section_pages plan.now section }
    ensures plan { IsPlan plan.now }
{
    &plan.sections[section].pages
}
