// Generates a job from a number: an edition plan and the images that it names. For every number the plan is
// accepted and the files pass the tests of their uses. The plan and the pixels are fixed by a definition.
#![tactic(auto)]

mod files;
mod images;
mod job;
mod layout;
mod members;
mod names;
mod numbers;
mod text;

pub use job::{GenJob, make_job};
