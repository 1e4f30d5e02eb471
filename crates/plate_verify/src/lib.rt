// Verifies that the plates held by a shelf are those of an edition, and finds the first difference.
#![tactic(auto)]

mod checked;
mod count;
mod edition;
mod group;
mod inks;
mod laws;
mod making;

pub use checked::{Checked, VerifyFault};
pub use edition::verify;
pub use laws::same_is_a_yes;
pub use pr_ports::first_difference;
