// The command line: parses the arguments, calls the crate that implements the command, and reports a refusal.
// `plate_main` is the entry point.
#![tactic(auto)]

mod answer;
mod command;
mod laws;
mod main_call;
mod number;

pub use cmd_base::{Refusal, Whose};
pub use cmd_run::{generated_jobs_pass, run_job, run_keys};
pub use laws::{
    plate_main_complete, plate_main_cut, plate_main_done, plate_main_done_loads,
    plate_main_done_longs, plate_main_done_note, plate_main_done_note_faults,
    plate_main_done_verdict, plate_main_drill, plate_main_eight, plate_main_file,
    plate_main_memory_note, plate_main_memory_note_faults, plate_main_one, plate_main_out_stays,
    plate_main_plan, plate_main_printing, plate_main_printing_note, plate_main_printing_out,
    plate_main_racks_stay, plate_main_refused_loads, plate_main_refused_note_faults,
    plate_main_refused_out, plate_main_refused_racks, plate_main_shelf, plate_main_statuses,
    plate_main_verdict, plate_main_verdict_there, plate_main_verify, plate_main_verify_racks,
    plate_main_words, plate_main_words_note, plate_main_words_there,
};
pub use main_call::plate_main;
pub use ring_run::{FeedEnd, Outcome, SiteEnd, feed_turn};
