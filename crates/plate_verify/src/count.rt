// The number of plates of a plan's sites.
ghost use Rattle.std.specs.Prelude.{◌≡◌, ◌*◌, ◌≤◌, count_by, length};
ghost use Rattle.std.specs.List.{range_with_len};
ghost use Rattle.plan_rows.specs.Inks.{has_site};
ghost use Rattle.plan_rows.specs.Rows.{rows_of};
ghost use Rattle.plate_verify.specs.Verifying.{group_sites};
ghost use Rattle.plate_verify.specs.Order.{plates_in_order};

use crate::edition::group_at;
use crate::inks::ink_number;
use plan_json::Plan;
use plan_rows::{Group, RowPlan};

/// The number of sites that have the plates of a group.
fn sites_of(group: &Group, sites: usize) -> u32
    requires { sites ≤ 16 }
    ensures count { result ≡ count_by (has_site group.now) (range_with_len 0 sites) }
    ensures within { result ≤ sites }
{
    let mut count = 0;
    for site in 0..sites {
        if group.has_site(site) {
            count += 1;
        }
    }
    count
}

/// The number of plates of a group at all its sites.
fn plate_count(plan: &Plan, group: &Group) -> u32
    ensures count { result ≡ length (group_sites plan.now group.now) }
    ensures within { result ≤ 80 }
{
    ink_number(group) as u32 * sites_of(group, plan.site_count())
}

/// The number of plates of all sites.
pub(crate) fn count_plates(plan: &Plan, rows: &RowPlan) -> u32
    requires { rows.now ≡ rows_of plan.now }
    ensures { result ≡ length (plates_in_order plan.now) }
{
    let mut plates = 0;
    for index in 0..rows.group_count() {
        plates += plate_count(plan, group_at(plan, rows, index));
    }
    plates
}
