// Tests of the first row of the largest pages, and of what can be shared with threads.
ghost use Rattle.std.specs.Prelude.{◌<◌, length};
ghost use Rattle.press_job.specs.Rows.{plate_frames};
ghost use Rattle.pr_base.specs.Row.{FitsNext};

use plan_json::read_plan;
use pr_base::{Deal, NoMemory, RowFeed};
use pr_ports::MemShelf;
use press_feed::{Feed, Job, prepare};
use std::alloc::{AllocError, Global};
use std::process::Abort;
use std::test::Fail;
use std::thread::Threads;

// The plan of a section with the same empty page 128 times. A page held whole, one byte per pixel for each of
// four inks, would take 8,589,541,380 bytes.
fn largest_plan(alloc: Global) -> Result<String, AllocError> {
    let mut names = String::from_str(alloc, r#""w""#)?;
    for _n in 1..128 {
        names.push_str(r#","w""#)?;
    }
    format!(in alloc;
        r#"{{"plan":1,"edition":"E1","dpi":1200,"page":[32767,65535],
        "pages":[{{"name":"w","inks":"K","layers":[]}}],
        "sections":[{{"name":"A","pages":[{names}]}}],"sites":[{{"name":"OSLO"}}]}}"#
    )
}

// Returns a shelf without files.
fn no_files(alloc: Global) -> MemShelf {
    MemShelf::new(alloc, Vec::new(alloc), Vec::new(alloc))
}

// Prepares the job of a plan without files.
fn job_of<T: Threads + Sync>(rt: &T, alloc: Global, text: &str) -> Result<Job, Fail> {
    let plan = read_plan(alloc, text.as_bytes())?;
    let mut shelf = no_files(alloc);
    Ok(prepare(rt, alloc, plan, "in", &mut shelf)?)
}

// Requires that a job can be shared with threads.
fn lent<T: Send + Sync>(_value: &T) {}

// Drops a value, which has to be one that can be sent to a thread.
fn sent<T: Send + Drop>(_value: T) {}

// Requires that a feed can be sent to a thread.
fn send_feed(alloc: Global, job: &Job) -> Result<(), NoMemory> {
    sent(Feed::open(alloc, job)?);
    Ok(())
}

// Returns the first row of a job.
fn first_row(alloc: Global, job: &Job) -> Result<Vec<u8>, NoMemory>
    requires { 0 < length (plate_frames job.now.plan job.now.files) }
{
    let mut row = vec![in alloc; 1; job.row_len()]?;
    let feed = Feed::open(alloc, job)?;
    draw(feed, &mut row);
    Ok(row)
}

// Takes the next row of a feed, and drops the feed.
fn draw<F: RowFeed + Drop>(feed: F, row: &mut [u8])
    requires { FitsNext (F.left feed) (length row.old) }
{
    let mut feed = feed;
    feed.next(row);
}

// Whether a frame contains a row of 8,192 zero bytes: the packed length of 128 bytes, then 64 runs of 128
// zeros, then zero bytes to the end.
fn is_blank(row: &[u8]) -> bool {
    row.len() == 8_258
        && row.starts_with(&[0x80, 0])
        && row[2..130]
            .chunks(2)
            .all(|packet| packet == [0x81, 0].as_slice())
        && row[130..].iter().all(|byte| *byte == 0)
}

// Drops a value.
fn end<T: Drop>(_value: T) {}

// Checks a job of the largest pages.
fn check_job(rt: &impl Abort, alloc: Global, job: &Job) -> Result<(), NoMemory> {
    assert!(rt; job.total() == 64 * 65_535);
    send_feed(alloc, job)?;
    let row = first_row(alloc, job)?;
    assert!(rt; is_blank(&row));
    Ok(())
}

#[test]
fn the_largest_pages_are_streamed(rt: HostRuntime) -> Result<(), Fail> {
    let text = largest_plan(rt.alloc())?;
    let job = job_of(&rt, rt.alloc(), text.as_str())?;
    lent(&job);
    let checked = check_job(&rt, rt.alloc(), &job);
    end(job);
    checked?;
    Ok(())
}
