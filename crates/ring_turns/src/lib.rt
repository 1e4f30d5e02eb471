// Turns at a ring: the writer's, and those of any other ends side by side, in as many threads as there are
// processors for them. Nothing here knows of racks, sites or jobs.
#![tactic(auto)]

mod ahead;
mod feeding;
mod one_thread;
mod pace;
mod side_by_side;
mod turn;
mod waiting;
mod ways;

pub use ahead::Ahead;
pub use feeding::{FeedEnd, feed_ahead, feed_turn};
pub use pace::Pace;
pub use side_by_side::turn_all;
pub use turn::TurnWith;
pub use ways::Ways;
