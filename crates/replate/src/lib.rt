// Which plates a late page changes. A plate's recipe is all that the plate is made of, and two jobs are
// compared by the recipes of their plates. Files are classified once, and nothing of either job is copied.
// `deliver` makes the changed plates, and only these.
#![tactic(auto)]

mod alike;
mod classes;
mod delivery;
mod dropped;
mod inputs;
mod kept;
mod maker;
mod old_plate;
mod picks;
mod remade;
mod remaking;
mod standing;
mod wanted;

pub use delivery::deliver;
pub use inputs::Inputs;
pub use old_plate::OldPlate;
pub use picks::Picks;
pub use remade::RemadeEnd;
pub use wanted::wanted_inks;
