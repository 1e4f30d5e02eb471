// The commands that run an edition (over ring_run): `run` delivers the plates of all sites of an edition and
// prints the report, `keys` also counts the ink keys, and `drill` runs a generated job in memory and counts
// the dots. `run_job` and `run_keys` open the feed of a job and run it. The definitions common to all
// commands are in cmd_base.
#![tactic(auto)]

mod dots;
mod drill;
mod edition;
mod job_run;
mod keys;
mod keys_run;
mod laws;
mod report;

pub use drill::{Drill, DrillRun, print_drill, run_drill};
pub use edition::{Edition, run_edition};
pub use job_run::run_job;
pub use keys::run_with_keys;
pub use keys_run::run_keys;
pub use laws::generated_jobs_pass;
