// The run of a job: one writer and all sites run in parallel over a ring, round after round. `run_fed`
// delivers the plates of a job, whose rows come from a feed, to the racks of its sites, and returns how each
// site ended. A key reader may count the ink keys of the plates at the same time.
#![tactic(auto)]

mod ends;
mod job_run;
mod role;
mod round;
mod rows;
mod seat;
mod site_end;
mod writer;

pub use job_run::run_fed;
pub use ring_turns::{FeedEnd, feed_turn};
pub use rows::Run;
pub use site_end::{Outcome, SiteEnd};
