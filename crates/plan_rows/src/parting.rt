// The sites of a plan, grouped by the two pages that they print as a pair of a section.
ghost use Rattle.std.specs.Prelude.{◌≡◌, ◌≤◌, ◌<◌, ◌*◌, ℕ, length, sum_by, take};
ghost use Rattle.std.specs.List.{enumerate_from, list_any};
ghost use Rattle.plan_pages.specs.Pages.{page_count};
ghost use Rattle.plan_rows.specs.Groups.{group_of as group_in, is_first as is_first_of, pages_of};
ghost use Rattle.plan_rows.specs.Groups.{same_pages as alike, site_bit, site_pages as pages_of_sites};

use crate::Group;
use crate::counts::pages_in;
use plan_json::Plan;
use plan_pages::{chosen, pair as pair_at};
use pr_base::SITES;

/// Returns the left and the right page that each site prints as this pair, from 1, of a section.
#[tactic(auto, unfolding(crate::specs::Groups::site_pages))]
pub(crate) fn site_pages(plan: &Plan, section: usize, pair: u32) -> [(usize, usize); SITES]
    requires section { section < length plan.now.sections }
    requires first { 1 ≤ pair }
    requires last { 2 * pair ≤ page_count plan.now section }
    ensures pages { take (length plan.now.sites) result ≡ pages_of_sites plan.now section pair }
    ensures sites { length plan.now.sites ≤ 16 }
    ensures left { (site : ℕ) → site < length plan.now.sites →
        (pages_of result site).0 < length plan.now.pages }
    ensures right { (site : ℕ) → site < length plan.now.sites →
        (pages_of result site).1 < length plan.now.pages }
{
    let (left, right) = pair_at(pages_in(plan, section), pair);
    let mut pages = [(0, 0); SITES];
    for site in 0..plan.site_count() {
        pages[site] = (
            chosen(plan, site, section, left),
            chosen(plan, site, section, right),
        );
    }
    pages
}

/// Returns whether no earlier site prints the same two pages as this one.
pub(crate) fn is_first(pages: &[(usize, usize)], site: usize) -> bool
    requires { site < length pages.now }
    ensures { result ≡ is_first_of pages.now site }
{
    !contains(&pages[..site], pages[site])
}

/// Returns whether one of the sites prints these two pages.
fn contains(pages: &[(usize, usize)], own: (usize, usize)) -> bool
    ensures { result ≡ list_any (alike own) pages.now }
{
    pages.iter().any(|other| same_pages(own, *other))
}

/// Returns whether two sites print the same left and the same right page.
fn same_pages(a: (usize, usize), b: (usize, usize)) -> bool
    ensures { result ≡ alike a b }
{
    a.0 == b.0 && a.1 == b.1
}

/// Returns the sites that print these two pages: bit i for site i.
fn sites_like(pages: &[(usize, usize)], own: (usize, usize)) -> u16
    requires { length pages.now ≤ 16 }
    ensures { result ≡ sum_by (site_bit own) (enumerate_from 0 pages.now) }
{
    let mut sites = 0;
    for (i, other) in pages.iter().enumerate() {
        if same_pages(own, *other) {
            sites += 1 << i;
        }
    }
    sites
}

/// Returns the group of the sites that print the same two pages as this one. Its first row is numbered later.
#[tactic(auto, unfolding(crate::specs::Groups::group_of))]
pub(crate) fn group_of(
    plan: &Plan,
    section: u32,
    pair: u32,
    pages: &[(usize, usize)],
    site: usize,
) -> Group
    requires site { site < length pages.now }
    requires count { length pages.now ≤ 16 }
    requires left { (pages_of pages.now site).0 < length plan.now.pages }
    requires right { (pages_of pages.now site).1 < length plan.now.pages }
    ensures { result ≡ group_in plan.now section pair pages.now site }
{
    let (left, right) = pages[site];
    let left_page = &plan.pages[left];
    let right_page = &plan.pages[right];
    Group {
        section,
        pair,
        left,
        right,
        sites: sites_like(pages, pages[site]),
        colour: left_page.colour || right_page.colour,
        spot: left_page.spot || right_page.spot,
        first: 0,
    }
}
