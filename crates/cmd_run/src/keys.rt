// The command `keys`: a run that also counts the ink keys of all plates, and prints the counts after its
// report.
ghost use Rattle.std.specs.Prelude.{◌≡◌, ◌<◌, ◌++◌, All, IfOk, OnOk, length, string_bytes};
ghost use Rattle.plan_rows.specs.Groups.{groups_of};
ghost use Rattle.press_job.specs.Rows.{plate_rows};
ghost use Rattle.ink_keys.specs.Plates.{AreKeyCounts};
ghost use Rattle.cmd_run.specs.Edition.{edition_told, Delivered};
ghost use Rattle.cmd_run.specs.Keys.{HasKeys, KeysAnswers, further_keys, group_lines, key_line as key_line_lem};
ghost use Rattle.cmd_run.specs.Keys.{keys_lines, lines_with, numbers_at, numbers_for};
ghost use Rattle.cmd_run.specs.Keys.{plate_line as plate_line_lem};
ghost use Rattle.cmd_run.specs.Report.{report_of};
ghost use Rattle.cmd_base.specs.Loads.{Lengths, Loads};
ghost use Rattle.cmd_base.specs.Seen.{AreReady, shelf_seen, sink_seen};
ghost use Rattle.cmd_base.specs.Writes.{Writes};

use crate::edition::{Edition, status_of};
use crate::keys_run::run_keys;
use crate::report::report;
use cmd_base::{Stop, Whose, load_job, put_text};
use ink_keys::Counts;
use plan_json::Plan;
use plan_rows::{Group, plate_name};
use pr_base::{Ink, NoMemory};
use pr_ports::{Shelf, Sink};
use pr_rack::Rack;
use press_feed::Job;
use ring_run::SiteEnd;
use std::alloc::{AllocError, Global};
use std::thread::Threads;
use std::time::Clock;

/// Runs an edition and counts the ink keys of each plate, `keys` of them: delivers the plates of its sites to
/// the racks, and prints the report and the counts. Returns the status.
pub fn run_with_keys<T: Threads + Clock + Sync, H: Shelf, R: Rack + Send, S: Sink>(
    rt: &T,
    alloc: Global,
    edition: Edition<'_>,
    keys: u32,
    shelf: &mut H,
    racks: &mut [R],
    out: &mut S,
) -> Result<u8, Stop>
    requires racks { AreReady R.Rack racks.old }
    requires numbers { HasKeys edition keys }
    ensures answered { KeysAnswers R.Rack (edition_told edition.entry) keys
        (shelf_seen H.Shelf shelf.old shelf.new)
        racks.old racks.new (sink_seen S.Sink out.old out.new) result }
    ensures held { H.held shelf.new ≡ H.held shelf.old }
    ensures loads { Loads (shelf_seen H.Shelf shelf.old shelf.new) result }
    ensures lengths { Lengths (shelf_seen H.Shelf shelf.old shelf.new) result }
    ensures writes { Writes (sink_seen S.Sink out.old out.new) result }
{
    let paths = edition.paths;
    match load_job(rt, alloc, Whose::New, paths.plan, paths.files, shelf) {
        Ok(job) => deliver(rt, alloc, edition, keys, &job, racks, out),
        Err(stop) => Err(stop),
    }
}

/// Runs a job over the racks, and prints the report and the counts.
fn deliver<T: Threads + Clock + Sync, R: Rack + Send, S: Sink>(
    rt: &T,
    alloc: Global,
    edition: Edition<'_>,
    keys: u32,
    job: &Job,
    racks: &mut [R],
    out: &mut S,
) -> Result<u8, Stop>
    requires racks { AreReady R.Rack racks.old }
    requires numbers { HasKeys edition keys }
    ensures delivered { Delivered R.Rack (edition_told edition.entry) (further_keys keys) job.now
        racks.old racks.new (sink_seen S.Sink out.old out.new) result }
    ensures writes { Writes (sink_seen S.Sink out.old out.new) result }
{
    let plan = job.plan();
    // Called for its contract, which states what holds of every plan that was read.
    let _files = plan.files();
    let (outcome, counts) = run_keys(
        rt,
        alloc,
        job,
        racks,
        edition.paths.out,
        keys,
        edition.ring,
        edition.patience,
    )?;
    let ends = outcome.sites.as_slice();
    let text = counted_text(alloc, job, ends, &counts)?;
    put_text(text.as_bytes(), status_of(ends), out)
}

/// Returns the report of a job whose sites ended like this, followed by the counts of all plates.
#[tactic(auto, using(crate::proofs::Keying::lines_are), unfolding(crate::specs::Keys::keys_lines))]
fn counted_text(
    alloc: Global,
    job: &Job,
    ends: &[SiteEnd],
    counts: &Counts,
) -> Result<String, NoMemory>
    requires ends { length ends.now ≡ length job.now.plan.sites }
    requires groups { counts.now.groups ≡ length (groups_of job.now.plan) }
    requires counts { AreKeyCounts job.now.plan (plate_rows job.now.plan job.now.files) counts.now }
    ensures { IfOk result (λ text. string_bytes text
        ≡ report_of job.now.plan ends.now ++ keys_lines counts.now.keys job.now) }
{
    let plan = job.plan();
    let rows = job.rows();
    let mut text = report(alloc, plan, rows.total(), ends)?;
    put_keys(alloc, plan, rows.groups(), counts, &mut text)?;
    Ok(text)
}

/// Appends the lines of all groups of a plan.
#[tactic(auto, unfolding(crate::specs::Keys::lines_with))]
fn put_keys(
    alloc: Global,
    plan: &Plan,
    groups: &[Group],
    counts: &Counts,
    text: &mut String,
) -> Result<(), AllocError>
    requires all { groups.now ≡ groups_of plan.now }
    requires sections { All (λ group. group.section < length plan.now.sections) groups.now }
    requires count { counts.now.groups ≡ length groups.now }
    ensures { OnOk result (string_bytes text.new
        ≡ string_bytes text.old ++ lines_with plan.now (numbers_for counts.now)) }
{
    for (index, group) in groups.iter().enumerate() {
        put_group(alloc, plan, index, group, counts, text)?;
    }
    Ok(())
}

/// Appends the lines of a group, ink by ink.
fn put_group(
    alloc: Global,
    plan: &Plan,
    index: usize,
    group: &Group,
    counts: &Counts,
    text: &mut String,
) -> Result<(), AllocError>
    requires section { group.now.section < length plan.now.sections }
    requires index { index < counts.now.groups }
    ensures { OnOk result (string_bytes text.new ≡ string_bytes text.old
        ++ group_lines plan.now (numbers_for counts.now) (index, group.now)) }
{
    for ink in group.inks() {
        text.push_str(plate_line(alloc, plan, index, group, *ink, counts)?.as_str())?;
    }
    Ok(())
}

/// Returns the line of a group's plate in an ink.
fn plate_line(
    alloc: Global,
    plan: &Plan,
    index: usize,
    group: &Group,
    ink: Ink,
    counts: &Counts,
) -> Result<String, AllocError>
    requires section { group.now.section < length plan.now.sections }
    requires index { index < counts.now.groups }
    ensures { IfOk result (λ line. string_bytes line
        ≡ plate_line_lem plan.now (numbers_for counts.now) index group.now ink) }
{
    let name = plate_name(alloc, plan, group, ink)?;
    let line = key_line(alloc, index, name.as_str(), numbers_of(counts, index, ink))?;
    Ok(line)
}

/// Returns the counts of a group in an ink, from key 0 up.
#[tactic(auto, using(crate::proofs::Keying::numbers_are))]
fn numbers_of(counts: &Counts, index: usize, ink: Ink) -> &[u64]
    requires { index < counts.now.groups }
    ensures { result.now ≡ numbers_at counts.now index ink }
{
    counts.of(index, ink)
}

/// Returns the line of a plate from the index of its group, its name and its counts.
fn key_line(alloc: Global, index: usize, name: &str, counts: &[u64]) -> Result<String, AllocError>
    ensures { IfOk result (λ line. string_bytes line ≡ key_line_lem index name.now counts.now) }
{
    let mut line = format!(in alloc; "keys {index} {name}")?;
    for count in counts {
        line.push_str(format!(in alloc; " {count}")?.as_str())?;
    }
    line.push_str("\n")?;
    Ok(line)
}
