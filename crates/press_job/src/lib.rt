// A job: a plan and its files, tested before any row is made. After `prepare` nothing can be refused, except
// for lack of memory. This crate defines the rows of the plates and what a run requires of their feed
// (`BandFeed`). It makes the rows of pages in ink values (`PrintedRow`); the crates above screen them and
// make the rows of plates.
#![tactic(auto)]

mod band_feed;
mod file_test;
mod files;
mod findings;
mod fit;
mod job;
mod laws;
mod layers;
mod loading;
mod plane;
mod preparing;
mod printed_row;
mod refusal;
mod tones;
mod usage;

pub use band_feed::BandFeed;
pub use job::Job;
pub use laws::spotless_law;
pub use layers::{most_layers, put_layers};
pub use preparing::prepare;
pub use printed_row::PrintedRow;
pub use refusal::Refusal;
pub use tones::Tones;
