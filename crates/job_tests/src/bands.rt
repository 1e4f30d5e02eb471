// Bands of jobs that diffuse inks: the frames of a feed whose bands several threads make, beside those of a
// feed without threads, for each mixture of tiles and diffusion.
ghost use Rattle.std.specs.Prelude.{◌≡◌, ◌%◌, ◌<◌, ◌≤◌, length};
ghost use Rattle.press_feed.specs.Band.{frame_bytes};
ghost use Rattle.press_job.specs.Rows.{plate_frames};

use crate::loaded::Loaded;
use job_gen::make_job;
use plan_json::read_plan;
use pr_base::{Deal, NoMemory, RowFeed};
use press_feed::{Feed, Job, Wanted, prepare};
use press_job::BandFeed;
use std::alloc::{AllocError, Global};
use std::test::Fail;
use std::thread::Threads;

// The screens of the inks where they aren't diffused.
const TILES: [&str; 5] = ["bayer4", "bayer8", "bayer16", "bayer2", "bayer4"];

// Of the plates of the first group only that in K is wanted, and of the second group none.
const SOME: Wanted<'static> = Wanted {
    flags: Some(&[[false, false, false, true, false], [false; 5]]),
};

// Everything behind the screens. Three groups: in five inks, in K, and in C, M, Y and K.
const REST: &str = r#""marks":[{"inks":"CMYK","x":0,"y":0,"w":20,"h":9}],
"pages":[{"name":"a","inks":"CMYKS","layers":[{"kind":"contone","file":"p1.tif","scale":4,"x":2},
{"kind":"line","file":"line.tif","scale":3,"x":9,"y":4,"ink":[40,90,150,200,77],"paint":"overprint"}]},
{"name":"b","inks":"CMYK","layers":[{"kind":"contone","file":"p2.tif","scale":4,"y":1}]},
{"name":"k","inks":"K","layers":[{"kind":"contone","file":"p3.tif","scale":4}]},
{"name":"w","inks":"K","layers":[]}],
"sections":[{"name":"A","pages":["a","k","w","b"]},{"name":"B","pages":["b","k"]}],
"sites":[{"name":"OSLO"}]}"#;

// Returns the screen of the ink with this slot in a mixture: bit `slot` says whether it is diffused.
fn screen_in(mixture: u32, slot: usize) -> &'static str {
    if slot < 5 && mixture >> slot & 1 == 0 {
        TILES[slot]
    } else {
        "diffuse"
    }
}

// Returns the plan of a mixture of screens, whose pages aren't whole bytes or blocks.
fn plan_of(alloc: Global, mixture: u32) -> Result<String, AllocError> {
    let mut text = String::from_str(
        alloc,
        r#"{"plan":2,"edition":"E1","dpi":1200,"page":[70,50],"margins":[3,5,4,6],"gutter":6,
"limit":612,"screens":{"#,
    )?;
    for (slot, name) in ["C", "M", "Y", "K", "S"].iter().enumerate() {
        let screen = screen_in(mixture, slot);
        let comma = if slot < 4 { "," } else { "}," };
        text.push_str(format!(in alloc; r#""{name}":"{screen}"{comma}"#)?.as_str())?;
    }
    text.push_str(REST)?;
    Ok(text)
}

// Prepares the job of a mixture of screens, with the images of generated job 7.
fn job_of<T: Threads + Sync>(rt: &T, alloc: Global, mixture: u32) -> Result<Job, Fail> {
    let text = plan_of(alloc, mixture)?;
    let plan = read_plan(alloc, text.as_bytes())?;
    let made = make_job(alloc, 7)?;
    let mut shelf = Loaded {
        alloc,
        files: &made.files,
        faults: 0,
        longs: 0,
    };
    Ok(prepare(rt, alloc, plan, "in", &mut shelf)?)
}

// Whether two feeds of a job give the same frames. The second one makes bands.
fn are_same<T: Threads + Sync, F: RowFeed, W: BandFeed>(
    rt: &T,
    job: &Job,
    one: &mut F,
    wide: &mut W,
    row: &mut [u8],
    other: &mut [u8],
) -> bool
    requires one { F.left one.old ≡ plate_frames job.now.plan job.now.files }
    requires wide { W.left wide.old ≡ plate_frames job.now.plan job.now.files }
    requires row { length row.old ≡ frame_bytes job.now }
    requires other { length other.old ≡ frame_bytes job.now }
{
    for _n in 0..job.total() {
        one.next(row);
        wide.make_band(rt);
        wide.next(other);
        if &*row != &*other {
            return false;
        }
    }
    true
}

// The same, and drops the feeds.
fn are_same_owned<T: Threads + Sync, F: RowFeed + Drop, W: BandFeed + Drop>(
    rt: &T,
    job: &Job,
    one: F,
    wide: W,
    row: &mut [u8],
    other: &mut [u8],
) -> bool
    requires one { F.left one ≡ plate_frames job.now.plan job.now.files }
    requires wide { W.left wide ≡ plate_frames job.now.plan job.now.files }
    requires row { length row.old ≡ frame_bytes job.now }
    requires other { length other.old ≡ frame_bytes job.now }
{
    let mut one = one;
    let mut wide = wide;
    are_same(rt, job, &mut one, &mut wide, row, other)
}

// Whether a feed with bands of this many rows, made by this many threads, gives the frames of another feed.
fn has_frames_of<T: Threads + Sync, F: RowFeed + Drop>(
    rt: &T,
    alloc: Global,
    job: &Job,
    one: F,
    bands: (Wanted<'_>, usize, u32),
    row: &mut [u8],
    other: &mut [u8],
) -> Result<bool, NoMemory>
    requires one { F.left one ≡ plate_frames job.now.plan job.now.files }
    requires threads { bands.1 ≤ 8 }
    requires height { (bands.2 ≤ 1024) × (bands.2 % 8 ≡ 0) }
    requires row { length row.old ≡ frame_bytes job.now }
    requires other { length other.old ≡ frame_bytes job.now }
{
    let (wanted, threads, height) = bands;
    let wide = Feed::with_threads(alloc, job, wanted, threads, height)?;
    Ok(are_same_owned(rt, job, one, wide, row, other))
}

// Whether a feed with bands of this many rows, made by this many threads, gives the frames of one without.
fn has_right_frames<T: Threads + Sync>(
    rt: &T,
    alloc: Global,
    job: &Job,
    bands: (Wanted<'_>, usize, u32),
) -> Result<bool, NoMemory>
    requires threads { bands.1 ≤ 8 }
    requires height { (bands.2 ≤ 1024) × (bands.2 % 8 ≡ 0) }
{
    let mut row = vec![in alloc; 1; job.row_len()]?;
    let mut other = vec![in alloc; 2; job.row_len()]?;
    let one = Feed::open(alloc, job)?;
    has_frames_of(rt, alloc, job, one, bands, &mut row, &mut other)
}

// Whether the bands of a job have the right frames: of few rows, of more, of whole pages, or where only some
// plates are wanted.
fn has_right_bands<T: Threads + Sync>(
    rt: &T,
    alloc: Global,
    job: &Job,
    form: u32,
) -> Result<bool, NoMemory> {
    match form {
        0 => has_right_frames(rt, alloc, job, (Wanted::all(), 2, 8)),
        1 => has_right_frames(rt, alloc, job, (Wanted::all(), 3, 16)),
        2 => has_right_frames(rt, alloc, job, (Wanted::all(), 8, 1000)),
        _ => has_right_frames(rt, alloc, job, (SOME, 4, 16)),
    }
}

// The same for the job of a mixture of screens.
fn has_right_mixture<T: Threads + Sync>(rt: &T, alloc: Global, mixture: u32) -> Result<bool, Fail>
    requires { mixture < 32 }
{
    let job = job_of(rt, alloc, mixture)?;
    let form = (mixture + mixture / 4) % 4;
    Ok(has_right_bands(rt, alloc, &job, form)?)
}

#[test]
fn bands_have_the_frames_of_one_thread(rt: HostRuntime) -> Result<(), Fail> {
    for mixture in 0..32 {
        assert!(rt;
            has_right_mixture(&rt, rt.alloc(), mixture)?,
            "mixture {mixture}"
        );
    }
    Ok(())
}
