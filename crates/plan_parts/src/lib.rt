// Reading the parts of a plan from JSON. The readers accept objects without unknown keys, lists of a stated
// length, numbers in a range, texts, names and file names of their form, and names that are new in their list
// or defined in another one. A reader returns the value, or the first fault with its path. The parts are
// threshold tiles, screens, tone curves, marks, and the layers of a page; contracts see each as the plain
// data of its fields. Pages are read in plan_json.
#![tactic(auto)]

mod fault;
mod forms;
mod layer;
mod list;
mod names;
mod node;
mod number;
mod object;
mod place;
mod printing;
mod read_curves;
mod read_marks;
mod read_tiles;

pub use fault::PlanFault;
pub use layer::{Page, PlanLayer};
pub use list::{Items, ListOf};
pub use names::{Defined, FileName, Name, Named, NewName, index_of};
pub use node::{ItemReader, Node, Reader};
pub use number::Number;
pub use object::Object;
pub use place::Place;
pub use printing::{Mark, PlanCurve, PlanTile, Screen};
pub use read_curves::curves_in;
pub use read_marks::marks_in;
pub use read_tiles::{screens_in, tiles_in};
