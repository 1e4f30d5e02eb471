// A print site: which of the rows of an edition it keeps, and how it builds its plates from them on its rack.
#![tactic(auto)]

mod calls;
mod kept;
mod new_site;
mod plate;
mod plate_row;
mod plates;
mod site;
mod slots;
mod turn;
mod turn_end;

pub use kept::{Kept, LeftCause};
pub use site::Site;
pub use slots::tell_slots;
pub use turn_end::TurnEnd;
