// The environment of a drill: a shelf and racks in memory that never fail, and the count of the dots on the
// finished plates.
#![tactic(auto)]

mod dots;
mod sure_rack;
mod sure_shelf;

pub use dots::count_dots;
pub use sure_rack::SureRack;
pub use sure_shelf::SureShelf;
