// Painting over a row of one ink: what a pixel of a layer does to the ink below it.
#![tactic(auto)]

mod lay;

pub use lay::{Painting, lay_ink, lay_span};
