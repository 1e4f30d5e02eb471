// The page that a site prints at each place of a section.
ghost use Rattle.std.specs.Prelude.{◌≡◌, ◌≤◌, ◌<◌, ◌-◌, length, slice_index};
ghost use Rattle.std.specs.List.{find};
ghost use Rattle.std.specs.Option.{option_map};
ghost use Rattle.plan_pages.specs.Pages.{chosen_page, is_for, page_count, section_pages, replacements};
ghost use Rattle.plan_json.specs.Plan.{IsPlan};

use plan_json::{Plan, Replace};

/// Returns the index of the page that `site` prints as page `page`, from 1, of `section`: the one that the
/// site's zone gives for this place, otherwise the section's own.
#[tactic(auto, unfolding(crate::specs::Pages::chosen_page))]
pub fn chosen(plan: &Plan, site: usize, section: usize, page: u32) -> usize
    requires site { site < length plan.now.sites }
    requires section { section < length plan.now.sections }
    requires first { 1 ≤ page }
    requires last { page ≤ page_count plan.now section }
    ensures page { result ≡ chosen_page plan.now site section page }
    ensures within { result < length plan.now.pages }
{
    match replaced(zone_items(plan, site), section, page) {
        Some(other) => other,
        None => own_pages(plan, section)[page as usize - 1],
    }
}

/// Returns the pages of a section.
fn own_pages(plan: &Plan, section: usize) -> &[usize]
    requires { section < length plan.now.sections }
    ensures { result.now ≡ section_pages plan.now section }
{
    &plan.sections[section].pages
}

/// Returns the replacements of a site's zone; none if it has no zone.
fn zone_items(plan: &Plan, site: usize) -> &[Replace]
    requires { site < length plan.now.sites }
    ensures items { result.now ≡ replacements plan.now site }
    ensures plan { IsPlan plan.now }
{
    match plan.sites[site].zone {
        Some(zone) => &plan.zones[zone].replace,
        None => &[],
    }
}

/// Returns the page that replaces this one, if an item gives one.
fn replaced(items: &[Replace], section: usize, page: u32) -> Option<usize>
    ensures { result ≡ option_map (λ item. item.with) (find (is_for section page) items.now) }
{
    let item = items
        .iter()
        .find(|item| item.section == section && item.page == page)?;
    Some(item.with)
}
