// A job generated from a number.
ghost use Rattle.std.specs.Prelude.{◌≡◌, IfOk, Ok, OnOk, map, nat_eq};
ghost use Rattle.std.specs.Cmp.Lexicographic.{pointwise};
ghost use Rattle.std.specs.List.{IsDistinct};
ghost use Rattle.plan_json.specs.PlanOf.{plan_of};
ghost use Rattle.job_gen.specs.Images.{contone_bytes, files_of, line_bytes, mask_bytes};
ghost use Rattle.job_gen.specs.Job.{shown};
ghost use Rattle.job_gen.specs.Passes.{ArePassing};
ghost use Rattle.job_gen.specs.Plan.{job_plan};

use crate::files::files;
use crate::text::plan_text;
use pr_base::{NoMemory, PathText};
use std::alloc::Global;

/// An edition plan, and the files that it names, each with its path in the folder `in`.
#[derive(Drop)]
pub struct GenJob {
    /// The plan as JSON.
    pub plan: Vec<u8>,
    pub files: Vec<(PathText, Vec<u8>)>,
}

/// Returns job number `n`.
pub fn make_job(alloc: Global, n: u32) -> Result<GenJob, NoMemory>
    ensures plan { IfOk result (λ job. plan_of job.plan.items ≡ Ok (job_plan n)) }
    ensures files { IfOk result (λ job. shown job.files.items ≡ files_of n) }
    ensures paths { OnOk result (IsDistinct (pointwise nat_eq) (map (λ file. file.0) (files_of n))) }
    ensures images { OnOk result (ArePassing n (contone_bytes n) (line_bytes n) (mask_bytes n)) }
{
    Ok(GenJob {
        plan: plan_text(alloc, n)?.into_bytes(),
        files: files(alloc, n)?,
    })
}
