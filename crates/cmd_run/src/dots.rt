// The text of a drill: the report of its run, and a line for each site with the number of dots on its plates.
ghost use Rattle.std.specs.Prelude.{◌≡◌, ◌<◌, ◌++◌, IfOk, OnOk, codes, length, string_bytes};
ghost use Rattle.plan_json.specs.Plan.{IsPlan};
ghost use Rattle.plan_rows.specs.Plates.{site_files};
ghost use Rattle.cmd_run.specs.Drill.{HaveFiles, dots_line as dots_line_lem, dots_lines, finished_ends};
ghost use Rattle.cmd_run.specs.Drill.{rows_in, told_of};

use crate::report::report;
use drill_mem::{SureRack, count_dots};
use pr_base::NoMemory;
use press_feed::Job;
use ring_run::SiteEnd;
use std::alloc::Global;

/// Returns the report of a job whose sites all finished, followed by the number of dots on each site's
/// plates.
#[tactic(auto, unfolding(crate::specs::Drill::told_of))]
pub(crate) fn told(
    alloc: Global,
    job: &Job,
    ends: &[SiteEnd],
    racks: &[SureRack],
) -> Result<String, NoMemory>
    requires ends { ends.now ≡ finished_ends job.now.plan }
    requires racks { HaveFiles job.now racks.now }
    ensures { IfOk result (λ text. string_bytes text ≡ told_of job.now) }
{
    let mut text = report(alloc, job.plan(), job.rows().total(), ends)?;
    put_dots(alloc, job, racks, &mut text)?;
    Ok(text)
}

/// Appends the line of each site.
fn put_dots(alloc: Global, job: &Job, racks: &[SureRack], text: &mut String) -> Result<(), NoMemory>
    requires racks { HaveFiles job.now racks.now }
    ensures { OnOk result (string_bytes text.new
        ≡ string_bytes text.old ++ dots_lines job.now.plan (rows_in job.now) (length racks.now)) }
{
    for site in 0..racks.len() {
        let line = dots_line(alloc, job, site, &racks[site])?;
        text.push_str(line.as_str())?;
    }
    Ok(())
}

/// Returns the line of the site whose plates this rack holds.
fn dots_line(alloc: Global, job: &Job, site: usize, rack: &SureRack) -> Result<String, NoMemory>
    requires site { site < length job.now.plan.sites }
    requires files { rack.now.files ≡ site_files job.now.plan (rows_in job.now) (codes "drill") site }
    ensures { IfOk result (λ line. string_bytes line ≡ dots_line_lem job.now.plan (rows_in job.now) site) }
{
    let name = &job.plan().sites[site].name;
    let shape = job.shape();
    let dots = count_dots(rack.files(), shape.width, shape.height);
    Ok(format!(in alloc; "dots {name} {dots}\n")?)
}
