// The edition plan: reads a JSON text as a plan, or rejects it with its first fault and that fault's path. A
// plan gives the sizes of pages and plates, how inks are screened, which images are on which page, which
// pages form the sections, and which zone and site prints which pages. Contracts see each type as the plain
// data of its fields, and `Plan` keeps `IsPlan`.
#![tactic(auto)]

mod files;
mod first_keys;
mod four_numbers;
mod laws;
mod named;
mod plan;
mod read_layers;
mod read_pages;
mod read_sections;
mod read_sites;
mod read_zones;
mod reading;
mod zoning;

pub use laws::plan_one_is_plan_two;
pub use plan::Plan;
pub use plan_parts::{Mark, Page, PlanCurve, PlanFault, PlanLayer, PlanTile, Screen};
pub use reading::read_plan;
pub use zoning::{PlanSite, Replace, Section, Zone};
