// The order of all rows of an edition: which sites share a plate, the number of each row, which rows a site
// keeps, and the paths and files of its plates.
#![tactic(auto)]

mod counts;
mod group;
mod laws;
mod parting;
mod path;
mod place;
mod row_plan;
mod sides;

pub use group::Group;
pub use laws::spot_law;
pub use path::{plate_name, plate_path, section_name, site_name};
pub use place::RowPlace;
pub use row_plan::RowPlan;
pub use sides::plate_sides;
