// The report of a run: a line for each site, and a total line.
ghost use Rattle.std.specs.Prelude.{◌≡◌, ◌++◌, IfOk, OnOk, length, string_bytes};
ghost use Rattle.plan_rows.specs.Rows.{row_places};
ghost use Rattle.cmd_run.specs.Report.{call_word as call_word_lem, report_of, site_line as site_line_lem};
ghost use Rattle.cmd_run.specs.Report.{total_line as total_line_lem};

use plan_json::{Plan, PlanSite};
use pr_base::NoMemory;
use pr_rack::RackCall;
use ring_run::SiteEnd;
use std::alloc::{AllocError, Global};

/// Returns the report of a run of a plan with this many rows, whose sites ended like this.
#[tactic(auto, unfolding(crate::specs::Report::report_of))]
pub(crate) fn report(
    alloc: Global,
    plan: &Plan,
    rows: u64,
    ends: &[SiteEnd],
) -> Result<String, NoMemory>
    requires ends { length ends.now ≡ length plan.now.sites }
    requires rows { rows ≡ length (row_places plan.now) }
    ensures { IfOk result (λ text. string_bytes text ≡ report_of plan.now ends.now) }
{
    let mut text = String::new(alloc);
    for (i, end) in ends.iter().enumerate() {
        text.push_str(site_line(alloc, &plan.sites[i], end)?.as_str())?;
    }
    text.push_str(total_line(alloc, rows, plan.sites.len())?.as_str())?;
    Ok(text)
}

/// Returns the line of a site.
fn site_line(alloc: Global, site: &PlanSite, end: &SiteEnd) -> Result<String, AllocError>
    ensures { IfOk result (λ line. string_bytes line ≡ site_line_lem site.now end.now) }
{
    let name = &site.name;
    match end {
        SiteEnd::Finished { plates, rows } => {
            format!(in alloc; "site {name} finished plates {plates} rows {rows}\n")
        }
        SiteEnd::Left(cause) => {
            let plates = cause.plates;
            let row = cause.row;
            let call = call_word(cause.call);
            let path = &cause.path;
            format!(in alloc;
                "site {name} left plates {plates} row {row} call {call} file {path}\n"
            )
        }
    }
}

/// Returns the total line, which is the last one.
fn total_line(alloc: Global, rows: u64, sites: usize) -> Result<String, AllocError>
    ensures { IfOk result (λ line. string_bytes line ≡ total_line_lem rows sites) }
{
    format!(in alloc; "total rows {rows} sites {sites}\n")
}

/// Returns the word for a call of a rack.
fn call_word(call: RackCall) -> &'static str
    ensures { result.now ≡ call_word_lem call }
{
    match call {
        RackCall::Begin => "begin",
        RackCall::Row => "row",
        RackCall::Finish => "finish",
    }
}
