// What the tests of the commands share: a shelf, racks and sinks in memory, runs of the program, and what the
// racks have afterwards. No function aborts; the tests do, where one is out of memory.
#![tactic(auto)]

mod desk;
mod plans;
mod plates;
mod room;

pub use desk::{Desk, File, Held};
pub use plans::{FOUR_PAGES, SmallPlan, TWO_PAGES, ZONED, plan_text};
pub use plates::{Plate, are_empty, has_plates, have_plates, took, took_rows};
pub use room::{CALM, Ended, Failing, RACKS, leaves_racks, prints, racks, racks_after, tells};
pub use worked_files::{FORM, PLATE, SAMPLES, Sides};
