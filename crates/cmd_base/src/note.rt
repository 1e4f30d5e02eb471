// Lines that report why a command did not complete.
ghost use Rattle.std.specs.Prelude.{◌≡◌, ◌++◌, IfOk, string_bytes};
ghost use Rattle.pr_ports.specs.Sink.{GrewByPrefix};
ghost use Rattle.cmd_base.specs.Line.{file_line as file_line_lem, job_word as job_word_lem, memory_line};
ghost use Rattle.cmd_base.specs.Line.{plan_line as plan_line_lem, plan_line_at as line_at};
ghost use Rattle.cmd_base.specs.Refusal.{line_of};
ghost use Rattle.cmd_base.specs.Note.{TellsRefusal, TellsStop};
ghost use Rattle.cmd_base.specs.Seen.{FailsOnce, sink_seen};

use crate::refusal::{Refusal, Stop, Whose};
use crate::status::Status;
use plan_json::PlanFault;
use pr_base::{FileFault, PathText};
use pr_ports::{Sink, SinkFault};
use std::alloc::{AllocError, Global};

/// The out-of-memory line, a constant: it needs no allocation itself.
const MEMORY_LINE: &[u8] = b"plateroom: memory\n";

/// Returns the start of a line about a job.
fn job_word(whose: Whose) -> &'static str
    ensures { result.now ≡ job_word_lem whose }
{
    match whose {
        Whose::New => "plateroom: ",
        Whose::Old => "plateroom: old ",
    }
}

/// Formats the line of a refusal.
fn line(alloc: Global, refusal: &Refusal) -> Result<String, AllocError>
    ensures { IfOk result (λ line. string_bytes line ≡ line_of refusal.now) }
{
    match refusal {
        Refusal::Words => String::from_str(alloc, "plateroom: words\n"),
        Refusal::LongPlan(whose) => job_line(alloc, *whose, "plan: too long\n"),
        Refusal::Plan(whose, fault) => plan_line(alloc, *whose, fault),
        Refusal::File(whose, fault) => file_line(alloc, *whose, fault),
        Refusal::Shelf(path) => format!(in alloc; "plateroom: shelf: {path}\n"),
    }
}

/// Formats a line about a job with this ending.
fn job_line(alloc: Global, whose: Whose, end: &str) -> Result<String, AllocError>
    ensures { IfOk result (λ line. string_bytes line ≡ job_word_lem whose ++ end.now) }
{
    let word = job_word(whose);
    format!(in alloc; "{word}{end}")
}

/// Formats the line of a file's fault.
fn file_line(alloc: Global, whose: Whose, fault: &FileFault) -> Result<String, AllocError>
    ensures { IfOk result (λ line. string_bytes line ≡ file_line_lem whose fault.now) }
{
    let word = job_word(whose);
    let file = &fault.file;
    let tag = fault.tag;
    let kind = fault.kind.text();
    format!(in alloc; "{word}file {file}: tag {tag}: {kind}\n")
}

/// Formats the line of a plan's fault; empty for `Memory`, which is no fault of the plan.
fn plan_line(alloc: Global, whose: Whose, fault: &PlanFault) -> Result<String, AllocError>
    ensures { IfOk result (λ line. string_bytes line ≡ plan_line_lem whose fault.now) }
{
    match fault {
        PlanFault::NotJson => job_line(alloc, whose, "plan: not JSON\n"),
        PlanFault::Missing(path) => plan_line_at(alloc, whose, path, "missing"),
        PlanFault::Kind(path) => plan_line_at(alloc, whose, path, "kind"),
        PlanFault::Range(path) => plan_line_at(alloc, whose, path, "range"),
        PlanFault::Unknown(path) => plan_line_at(alloc, whose, path, "unknown"),
        PlanFault::Repeat(path) => plan_line_at(alloc, whose, path, "repeat"),
        PlanFault::Memory => Ok(String::new(alloc)),
    }
}

/// Formats the line of a fault of this kind at a path in a plan.
fn plan_line_at(
    alloc: Global,
    whose: Whose,
    path: &PathText,
    kind: &str,
) -> Result<String, AllocError>
    ensures { IfOk result (λ line. string_bytes line ≡ line_at whose path.now kind.now) }
{
    let word = job_word(whose);
    format!(in alloc; "{word}plan {path}: {kind}\n")
}

/// Writes the out-of-memory line, as far as the note accepts it, and returns status 6.
fn tell_memory<E: Sink>(note: &mut E) -> u8
    ensures status { result ≡ 6 }
    ensures note { GrewByPrefix (E.given note.old) (E.given note.new) memory_line }
    ensures once { FailsOnce (sink_seen E.Sink note.old note.new) }
{
    let _ = note.put(MEMORY_LINE);
    Status::Memory.number()
}

/// Writes the line of a refusal and returns the exit status: the refusal's own, or that of the failure to
/// write the line.
fn tell_refusal<E: Sink>(alloc: Global, refusal: &Refusal, note: &mut E) -> u8
    ensures { TellsRefusal refusal.now (sink_seen E.Sink note.old note.new) result }
{
    let Ok(line) = line(alloc, refusal) else {
        return tell_memory(note);
    };
    match note.put(line.as_bytes()) {
        Ok(()) => refusal.status(),
        Err(SinkFault::Failed) => Status::Printing.number(),
        Err(SinkFault::Memory) => tell_memory(note),
    }
}

/// Reports why a command did not complete, and returns the exit status.
pub fn tell<E: Sink>(alloc: Global, stop: &Stop, note: &mut E) -> u8
    ensures { TellsStop stop.now (sink_seen E.Sink note.old note.new) result }
{
    match stop {
        Stop::Refused(refusal) => tell_refusal(alloc, refusal, note),
        Stop::Memory => tell_memory(note),
        Stop::Printing => Status::Printing.number(),
    }
}
