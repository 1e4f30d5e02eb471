// Error diffusion (Floyd and Steinberg 1976): rows of ink values become rows of packed bits, and the error of
// each pixel is carried to the right and to the row below.
#![tactic(auto)]

mod bits;
mod block;
mod block_diffuser;
mod diffuser;
mod dots;
mod history;
mod lanes;
mod laws;
mod passes;
mod row;
mod weave;

pub use block_diffuser::BlockDiffuser;
pub use diffuser::Diffuser;
pub use laws::{error_law, row_law};
