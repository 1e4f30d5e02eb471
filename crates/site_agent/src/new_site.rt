// Constructors of a site, for all its plates or for some of them.
ghost use Rattle.std.specs.Prelude.{◌≡◌, ◌<◌, IfOk, length};
ghost use Rattle.plan_rows.specs.Plates.{site_plates};
ghost use Rattle.plan_rows.specs.Rows.{rows_of};
ghost use Rattle.site_agent.specs.Picked.{picked_site};
ghost use Rattle.site_agent.specs.Plan.{fresh_site};

use crate::Site;
use crate::plates::{picked_of, plates_of};
use plan_json::Plan;
use plan_rows::RowPlan;
use pr_base::NoMemory;
use std::alloc::Global;

impl Site {
    /// Returns the site with this index in the plan, before its first row. The paths of its plates are below
    /// the folder `out`.
    pub fn new(
        alloc: Global,
        job_plan: &Plan,
        rows: &RowPlan,
        out: &str,
        site: usize,
    ) -> Result<Site, NoMemory>
        requires rows { rows.now ≡ rows_of job_plan.now }
        requires site { site < length job_plan.now.sites }
        ensures { IfOk result (λ made. made ≡ fresh_site job_plan.now out.now site) }
    {
        // The site is one of the plan's.
        prove!(site < job_plan.sites.len());
        let plates = plates_of(alloc, job_plan, rows, out, site)?;
        Site::with_plates(alloc, job_plan, rows, plates)
    }

    /// The same for the wanted plates only; `wanted` has one entry per plate, in the order of the site's
    /// files.
    pub fn of_picked(
        alloc: Global,
        job_plan: &Plan,
        rows: &RowPlan,
        out: &str,
        site: usize,
        wanted: &[bool],
    ) -> Result<Site, NoMemory>
        requires rows { rows.now ≡ rows_of job_plan.now }
        requires site { site < length job_plan.now.sites }
        requires wanted { length wanted.now ≡ length (site_plates job_plan.now site) }
        ensures { IfOk result (λ made. made ≡ picked_site job_plan.now out.now site wanted.now) }
    {
        prove!(site < job_plan.sites.len());
        let plates = plates_of(alloc, job_plan, rows, out, site)?;
        let plates = picked_of(alloc, plates, wanted)?;
        Site::with_plates(alloc, job_plan, rows, plates)
    }
}
