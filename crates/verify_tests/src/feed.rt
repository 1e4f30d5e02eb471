// The calls of plate_verify: the plates of a job compared with its feed, and two files compared with each
// other.
ghost use Rattle.std.specs.Prelude.{◌≡◌};
ghost use Rattle.press_job.specs.Rows.{plate_frames};

use crate::files::GROUPS;
use crate::room::check;
use plan_json::read_plan;
use plate_verify::{Checked, first_difference, verify};
use pr_base::RowFeed;
use pr_ports::Shelf;
use press_feed::{Feed, Job, prepare};
use std::alloc::Global;
use std::process::Abort;
use std::thread::Threads;
use test_room::{Desk, Held, ZONED, plan_text};

// Whether `verify` finds the four plates of a job below OUT to be the same.
fn are_same<F: RowFeed, H: Shelf>(alloc: Global, job: &Job, feed: &mut F, shelf: &mut H) -> bool
    requires { F.left feed.old ≡ plate_frames job.now.plan job.now.files }
{
    match verify(alloc, job.plan(), job.rows(), feed, "OUT", shelf) {
        Ok(Checked::Same { plates }) => plates == 4,
        Ok(_) | Err(_) => false,
    }
}

// Prepares the job of a plan whose files are on a shelf.
fn job_of<R: Abort + AllocGlobal + Threads + Sync, H: Shelf>(
    rt: &R,
    plan: &str,
    shelf: &mut H,
) -> Job {
    let Ok(plan) = read_plan(rt.alloc(), plan.as_bytes()) else {
        rt.abort();
    };
    match prepare(rt, rt.alloc(), plan, "FILES", shelf) {
        Ok(job) => job,
        Err(_) => rt.abort(),
    }
}

// The same, and drops the feed.
fn are_same_owned<F: RowFeed + Drop, H: Shelf>(
    alloc: Global,
    job: &Job,
    feed: F,
    shelf: &mut H,
) -> bool
    requires { F.left feed ≡ plate_frames job.now.plan job.now.files }
{
    let mut feed = feed;
    are_same(alloc, job, &mut feed, shelf)
}

// Whether the plates of a job below OUT are the same, with a feed opened for them.
fn looks<R: Abort + AllocGlobal, H: Shelf>(rt: &R, job: &Job, shelf: &mut H) -> bool {
    let feed = Feed::open(rt.alloc(), job).expect(rt, "memory");
    are_same_owned(rt.alloc(), job, feed, shelf)
}

// Whether the plates of a plan's job are the same.
fn looks_at_plan<R: Abort + AllocGlobal + Threads + Sync, H: Shelf>(
    rt: &R,
    plan: &str,
    shelf: &mut H,
) -> bool {
    let job = job_of(rt, plan, shelf);
    looks(rt, &job, shelf)
}

#[test]
fn looks_at_the_plates_of_a_job(rt: HostRuntime) {
    let files = [
        ("plan.json", Held::Small(&ZONED)),
        ("FILES/a.tif", Held::Image),
    ];
    let mut desk = Desk::new(rt.alloc(), &files, &GROUPS, &[], None);
    let plan = plan_text(rt.alloc(), &ZONED).expect(&rt, "memory");
    assert!(rt; looks_at_plan(&rt, plan.as_str(), &mut desk));
    assert!(rt; desk.loads == 5);
}

// Two files, and the first offset at which they have different bytes or only one of them has a byte.
const FILES: [(&[u8], &[u8], Option<u64>); 6] = [
    (&[], &[], None),
    (&[], &[0], Some(0)),
    (&[7, 8, 9], &[7, 8, 9], None),
    (&[7, 8, 9], &[7, 8], Some(2)),
    (&[7, 8], &[7, 8, 9], Some(2)),
    (&[7, 8, 9], &[7, 0, 0], Some(1)),
];

#[test]
fn differences_of_files(rt: HostRuntime) {
    for (n, (file, held, at)) in FILES.iter().enumerate() {
        check(&rt, n, first_difference(file, held) == *at);
    }
}
