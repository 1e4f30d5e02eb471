// Output of `replate`: a line for each site, one for each dropped plate, and a total.
ghost use Rattle.std.specs.Prelude.{◌≡◌, ◌≤◌, ◌++◌, All, IfOk, length, string_bytes};
ghost use Rattle.cmd_replate.specs.Change.{IsPlaced};
ghost use Rattle.cmd_replate.specs.Remade.{dropped_line as dropped_line_lem};
ghost use Rattle.cmd_replate.specs.Remade.{dropped_lines as dropped_lines_lem, is_done as is_done_lem};
ghost use Rattle.cmd_replate.specs.Remade.{made_line as made_line_lem, made_of as made_of_lem, remade_line};
ghost use Rattle.cmd_replate.specs.Remade.{status_of_remade, text_with, total_made as total_made_lem};
ghost use Rattle.cmd_base.specs.Status.{number_of};

use cmd_base::Status;
use plan_json::{Plan, PlanSite};
use plan_rows::plate_path;
use pr_base::NoMemory;
use press_feed::Job;
use replate::{OldPlate, RemadeEnd};
use std::alloc::{AllocError, Global};

/// Formats the text of a delivery with these ends of its sites, including the lines of dropped plates.
pub(crate) fn remade_text(
    alloc: Global,
    plan: &Plan,
    ends: &[RemadeEnd],
    dropped: &str,
) -> Result<String, NoMemory>
    requires ends { length ends.now ≡ length plan.now.sites }
    requires few { length ends.now ≤ 16 }
    ensures { IfOk result (λ text. string_bytes text ≡ text_with plan.now.sites ends.now dropped.now) }
{
    let mut text = String::new(alloc);
    for (i, end) in ends.iter().enumerate() {
        text.push_str(site_line(alloc, &plan.sites[i], end)?.as_str())?;
    }
    text.push_str(dropped)?;
    text.push_str(made_line(alloc, total_made(ends))?.as_str())?;
    Ok(text)
}

/// Formats the line of a site.
fn site_line(alloc: Global, site: &PlanSite, end: &RemadeEnd) -> Result<String, AllocError>
    ensures { IfOk result (λ line. string_bytes line ≡ remade_line site.now end.now) }
{
    let name = &site.name;
    match end {
        RemadeEnd::Done { made, kept } => {
            format!(in alloc; "site {name} made {made} kept {kept}\n")
        }
        RemadeEnd::Left { made, path } => {
            format!(in alloc; "site {name} left made {made} file {path}\n")
        }
    }
}

/// Returns the number of plates that all sites finished.
fn total_made(ends: &[RemadeEnd]) -> u64
    requires { length ends.now ≤ 16 }
    ensures { result ≡ total_made_lem ends.now }
{
    let mut total = 0;
    for end in ends {
        total += made_of(end) as u64;
    }
    total
}

/// Returns the number of plates that a site finished.
fn made_of(end: &RemadeEnd) -> u32
    ensures { result ≡ made_of_lem end.now }
{
    match end {
        RemadeEnd::Done { made, .. } | RemadeEnd::Left { made, .. } => *made,
    }
}

/// Formats the last line.
fn made_line(alloc: Global, made: u64) -> Result<String, AllocError>
    ensures { IfOk result (λ line. string_bytes line ≡ made_line_lem made) }
{
    format!(in alloc; "total made {made}\n")
}

/// Formats the lines of dropped plates of an old job, with paths below the folder `out`.
pub(crate) fn dropped_lines(
    alloc: Global,
    before: &Job,
    out: &str,
    plates: &[OldPlate],
) -> Result<String, NoMemory>
    requires { All (IsPlaced before.now.plan) plates.now }
    ensures { IfOk result (λ text. string_bytes text
        ≡ dropped_lines_lem before.now.plan out.now plates.now) }
{
    let mut text = String::new(alloc);
    for plate in plates {
        text.push_str(dropped_line(alloc, before, out, *plate)?.as_str())?;
    }
    Ok(text)
}

/// Formats the line of one dropped plate.
fn dropped_line(alloc: Global, before: &Job, out: &str, plate: OldPlate) -> Result<String, NoMemory>
    requires { IsPlaced before.now.plan plate }
    ensures { IfOk result (λ line. string_bytes line ≡ dropped_line_lem before.now.plan out.now plate) }
{
    let plan = before.plan();
    let group = before.rows().group(plate.group);
    let path = plate_path(alloc, plan, out, plate.site, group, plate.ink)?;
    Ok(format!(in alloc; "dropped {path}\n")?)
}

/// Returns the exit status of a delivery with these ends of its sites.
#[tactic(auto, unfolding(crate::specs::Remade::status_of_remade))]
pub(crate) fn status_of(ends: &[RemadeEnd]) -> Status
    ensures { number_of result ≡ status_of_remade ends.now }
{
    for end in ends {
        if !is_done(end) {
            return Status::Left;
        }
    }
    Status::Done
}

/// Returns whether a site made all plates that it was to make.
fn is_done(end: &RemadeEnd) -> bool
    ensures { result ≡ is_done_lem end.now }
{
    matches!(end, RemadeEnd::Done { .. })
}
