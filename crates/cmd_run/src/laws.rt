// A law on the preparation of jobs.
ghost use Rattle.cmd_run.specs.Drill.{GeneratedJobsPass};

/// Every generated job passes the verdict on its files. So preparing it from a shelf that holds its files
/// fails only if memory runs out, or if the shelf counts a failed load.
pub fn generated_jobs_pass()
    ensures { GeneratedJobsPass }
{}
