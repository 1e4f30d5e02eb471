// The command `verify`: checks whether the plates on a shelf are those of an edition. The job is loaded as
// for a run, plate_verify compares the plates, and one line reports the result. The contract of any command
// is in cmd_base.
#![tactic(auto)]

mod check;

pub use check::print_check;
