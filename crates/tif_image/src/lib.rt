// The images that plateroom accepts: the tests of a file's fields in order, and the first that fails
// (TIFF 6.0, Sections 3, 8, 15 and 16). Only `test_image` allocates.
#![tactic(auto)]

mod bilevel;
mod check;
mod contone;
mod fields;
mod found;
mod test;
mod test_fault;
mod usage;

pub use bilevel::Bilevel;
pub use contone::Contone;
pub use found::Found;
pub use test::test_image;
pub use test_fault::TestFault;
pub use usage::{BilevelUse, Usage};
