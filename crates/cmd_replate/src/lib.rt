// The command `replate`: makes the plates of an edition that changed, and only these. An old and a new job
// are loaded and compared (crate replate), the plates that must be made are made, and a text reports them
// and the dropped plates. The contract of any command is in cmd_base.
#![tactic(auto)]

mod change;
mod remade;

pub use change::{Change, print_change};
