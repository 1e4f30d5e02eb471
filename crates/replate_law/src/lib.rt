// The laws of replating and of parts: a plate that need not be made again is the one already present, and two
// jobs that print a section alike produce the same plates of it.
#![tactic(auto)]

mod laws;

pub use laws::{part_law, replate_law};
