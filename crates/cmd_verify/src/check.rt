// The command `verify`: checks whether the plates on a shelf are those of an edition.
ghost use Rattle.std.specs.Prelude.{◌≡◌, IfOk, length, string_bytes};
ghost use Rattle.press_job.specs.Rows.{plate_frames};
ghost use Rattle.plate_verify.specs.Verifying.{told as found_of};
ghost use Rattle.cmd_verify.specs.Check.{CheckLengths, asked_told, Verifies, PrintsFound};
ghost use Rattle.cmd_verify.specs.Check.{byte_line as byte_line_lem};
ghost use Rattle.cmd_verify.specs.Check.{check_rules, found_line, found_status, row_line as row_line_lem};
ghost use Rattle.cmd_verify.specs.Check.{same_line as same_line_lem};
ghost use Rattle.cmd_base.specs.Loads.{Loads};
ghost use Rattle.cmd_base.specs.Seen.{shelf_seen, sink_seen};
ghost use Rattle.cmd_base.specs.Status.{number_of};
ghost use Rattle.cmd_base.specs.Task.{Told};
ghost use Rattle.cmd_base.specs.Writes.{Writes};

use cmd_base::{Paths, Refusal, Status, Stop, Whose, load_job, put_text};
use plate_verify::{Checked, VerifyFault, verify};
use pr_base::{NoMemory, PathText, RowFeed};
use pr_ports::{Shelf, Sink};
use press_feed::{BandMaker, ByThreads, Job, WideFeed};
use std::alloc::Global;
use std::thread::Threads;

/// Verifies the plates of an edition on a shelf, prints the result and returns its exit status.
pub fn print_check<T: Threads + Sync, H: Shelf, S: Sink>(
    rt: &T,
    alloc: Global,
    asked: Paths<'_>,
    shelf: &mut H,
    out: &mut S,
) -> Result<u8, Stop>
    ensures told { Told (check_rules (asked_told asked.entry)) (PrintsFound (asked_told asked.entry))
        (shelf_seen H.Shelf shelf.old shelf.new) (sink_seen S.Sink out.old out.new) result }
    ensures held { H.held shelf.new ≡ H.held shelf.old }
    ensures loads { Loads (shelf_seen H.Shelf shelf.old shelf.new) result }
    ensures lengths { CheckLengths (asked_told asked.entry)
        (shelf_seen H.Shelf shelf.old shelf.new) result }
    ensures writes { Writes (sink_seen S.Sink out.old out.new) result }
{
    let job = load_job(rt, alloc, Whose::New, asked.plan, asked.files, shelf)?;
    let checked = verify_plates(&ByThreads { rt }, alloc, &job, asked.out, shelf)?;
    let sites = site_count_of(job);
    let line = line_of(alloc, sites, &checked)?;
    put_text(line.as_bytes(), status_of(&checked), out)
}

/// Returns the number of sites of a job, and frees the job.
fn site_count_of(job: Job) -> usize
    ensures { result ≡ length job.plan.sites }
{
    job.plan().site_count()
}

/// Verifies the plates of a job below the folder `out`. `maker` makes the bands of its rows.
fn verify_plates<M: BandMaker, H: Shelf>(
    maker: &M,
    alloc: Global,
    job: &Job,
    out: &str,
    shelf: &mut H,
) -> Result<Checked, Stop>
    requires may { M.may }
    ensures verifies { Verifies job.now out.now (shelf_seen H.Shelf shelf.old shelf.new) result }
    ensures held { H.held shelf.new ≡ H.held shelf.old }
    ensures loads { Loads (shelf_seen H.Shelf shelf.old shelf.new) result }
{
    let feed = WideFeed::open(maker, alloc, job)?;
    verify_fed(alloc, job, feed, out, shelf)
}

/// Does the same with a feed from which no row has been taken yet, and drops the feed: a function that is
/// generic over it is proved without the parts of one.
fn verify_fed<F: RowFeed + Drop, H: Shelf>(
    alloc: Global,
    job: &Job,
    feed: F,
    out: &str,
    shelf: &mut H,
) -> Result<Checked, Stop>
    requires feed { F.left feed ≡ plate_frames job.now.plan job.now.files }
    ensures verifies { Verifies job.now out.now (shelf_seen H.Shelf shelf.old shelf.new) result }
    ensures held { H.held shelf.new ≡ H.held shelf.old }
    ensures loads { Loads (shelf_seen H.Shelf shelf.old shelf.new) result }
{
    let mut feed = feed;
    match verify(alloc, job.plan(), job.rows(), &mut feed, out, shelf) {
        Ok(checked) => Ok(checked),
        Err(VerifyFault::Shelf(path)) => Err(Stop::Refused(Refusal::Shelf(path))),
        Err(VerifyFault::Memory) => Err(Stop::Memory),
    }
}

/// Formats the line of a result.
fn line_of(alloc: Global, sites: usize, checked: &Checked) -> Result<String, NoMemory>
    ensures { IfOk result (λ line. string_bytes line ≡ found_line sites (found_of checked.now)) }
{
    match checked {
        Checked::Same { plates } => same_line(alloc, *plates, sites),
        Checked::Differs {
            path,
            at,
            row: Some(row),
        } => row_line(alloc, path, *at, *row),
        Checked::Differs {
            path,
            at,
            row: None,
        } => byte_line(alloc, path, *at),
        Checked::Long { path } => Ok(format!(in alloc; "differs {path} long\n")?),
    }
}

/// Formats the line that reports that all plates match.
fn same_line(alloc: Global, plates: u32, sites: usize) -> Result<String, NoMemory>
    ensures { IfOk result (λ line. string_bytes line ≡ same_line_lem plates sites) }
{
    Ok(format!(in alloc; "same plates {plates} sites {sites}\n")?)
}

/// Formats the line of a plate that differs in a packed row.
fn row_line(alloc: Global, path: &PathText, at: u64, row: u32) -> Result<String, NoMemory>
    ensures { IfOk result (λ line. string_bytes line ≡ row_line_lem path.now at row) }
{
    Ok(format!(in alloc; "differs {path} byte {at} row {row}\n")?)
}

/// Formats the line of a plate that differs outside its rows.
fn byte_line(alloc: Global, path: &PathText, at: u64) -> Result<String, NoMemory>
    ensures { IfOk result (λ line. string_bytes line ≡ byte_line_lem path.now at) }
{
    Ok(format!(in alloc; "differs {path} byte {at}\n")?)
}

/// Returns the exit status of a result.
fn status_of(checked: &Checked) -> Status
    ensures { number_of result ≡ found_status (found_of checked.now) }
{
    match checked {
        Checked::Same { .. } => Status::Done,
        Checked::Differs { .. } | Checked::Long { .. } => Status::Differs,
    }
}
