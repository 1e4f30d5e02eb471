// The place of a value in the plan. Its path is built only for a fault and at the start of a list or an
// object.
ghost use Rattle.std.specs.Prelude.{◌≡◌, IfOk};
ghost use Rattle.plan_parts.specs.Place.{path_of};

use pr_base::{NoMemory, PathText};
use std::alloc::Global;

/// The place of a value: the top of the plan, or one step below a path, by a key or by an index from 0.
#[derive(Clone, Copy)]
pub enum Place<'a> {
    Top,
    Key(&'a str, &'a str),
    Item(&'a str, usize),
}

impl Place<'_> {
    /// Returns the path of the place. Fails only when out of memory.
    pub fn path(self, alloc: Global) -> Result<PathText, NoMemory>
        ensures { IfOk result (λ path. path ≡ path_of self.entry) }
    {
        match self {
            Place::Top => PathText::of(alloc, ""),
            Place::Key(path, key) => PathText::of(
                alloc,
                format!(in alloc; "{path}/{key}")?.as_str(),
            ),
            Place::Item(path, i) => PathText::of(alloc, format!(in alloc; "{path}/{i}")?.as_str()),
        }
    }
}
