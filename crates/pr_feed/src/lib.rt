// A feed of rows that also passes over rows, for callers that need only some of them.
#![tactic(auto)]

mod passing;

pub use passing::PassingFeed;
