// Parts shared by all commands: what a call observed, the contract of any command, refusals with their
// statuses and lines, loading a job, and printing a text. Each command has its own crate above this one;
// plate_room parses the arguments.
#![tactic(auto)]

mod loading;
mod note;
mod paths;
mod put;
mod refusal;
mod status;

pub use loading::load_job;
pub use note::tell;
pub use paths::Paths;
pub use put::put_text;
pub use refusal::{Refusal, Stop, Whose};
pub use status::Status;
