// Tone: the tone curve of an ink, and the ink limit (TAC) of a pixel.
#![tactic(auto)]

mod block;
mod curve;
mod limit;
mod reciprocals;
mod row;

pub use curve::{Curve, valid_points};
pub use limit::limit_inks;
pub use row::limit_row;
