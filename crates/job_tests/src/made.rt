// Jobs of some numbers, compared with values worked out by hand from the definition of a generated job.
use job_gen::{GenJob, make_job};
use plan_json::read_plan;
use std::process::Abort;

// The number, its counts of sites and pages, the sides of a page, and the number of files.
const JOBS: [(u32, [usize; 2], [u32; 2], usize); 4] = [
    (0, [1, 5], [64, 48], 7),
    (7, [4, 9], [64, 48], 11),
    (127, [4, 9], [1024, 768], 11),
    (4294967295, [4, 9], [1024, 768], 11),
];

// Bytes of job 7: the index of the file, the offset in it, and the byte.
const BYTES: [(usize, usize, u8); 10] = [
    // Yellow at column 3 of row 2 of p1.tif, whose strips begin at 154: 7 + 29 + 2 * 61 + 3 * 3 + 7 * 2.
    (0, 154 + 4 * (2 * 16 + 3) + 2, 181),
    // Black at column 1 of row 1 of z1.tif, whose planes begin at 238: 7 + 3 * 61 + 3 + 7.
    (8, 238 + 3 * 192 + 17, 200),
    // The first two packed rows of line.tif.
    (9, 146, 1),
    (9, 147, 0x88),
    (9, 148, 0x88),
    (9, 149, 1),
    (9, 150, 0x11),
    (9, 151, 0x11),
    // A row of mask.tif.
    (10, 122, 0xFF),
    (10, 123, 0),
];

#[test]
fn plans_are_read(rt: HostRuntime) {
    for (n, lists, sides, files) in JOBS {
        let job = job_of(&rt, n);
        assert!(rt; is_plan(&rt, &job, lists, sides), "plan {n}");
        assert!(rt; job.files.len() == files, "files of {n}");
    }
}

// Generates the job of a number.
fn job_of<R: Abort + AllocGlobal>(rt: &R, n: u32) -> GenJob {
    make_job(rt.alloc(), n).expect(rt, "memory")
}

// Whether the plan of a job is accepted, and has this many sites and pages with these sides.
fn is_plan<R: AllocGlobal>(rt: &R, job: &GenJob, lists: [usize; 2], sides: [u32; 2]) -> bool {
    let Ok(plan) = read_plan(rt.alloc(), job.plan.as_slice()) else {
        return false;
    };
    [plan.sites.len(), plan.pages.len()] == lists && [plan.page_width, plan.page_height] == sides
}

#[test]
fn files_hold_their_pixels(rt: HostRuntime) {
    let job = job_of(&rt, 7);
    for (file, place, byte) in BYTES {
        assert!(rt;
            byte_of(&job, file, place) == Some(byte),
            "byte {place} of file {file}"
        );
    }
}

fn byte_of(job: &GenJob, file: usize, place: usize) -> Option<u8> {
    job.files.get(file)?.1.get(place).copied()
}
