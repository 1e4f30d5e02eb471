// A value of a plan with its place, and the traits of readers.
ghost use Rattle.std.specs.Prelude.{◌≡◌, List, ℕ, IfOk};
ghost use Rattle.plan_parts.specs.Gives.{Gives, View, itself};
ghost use Rattle.plan_parts.specs.Node.{at};
ghost use Rattle.plan_parts.specs.Place.{path_of};
ghost use Rattle.plan_parts.specs.Reading.{Read, text as spec_text};
ghost use Rattle.serde_json.specs.Data.{Data};
ghost use Rattle.serde_json.specs.View.{view};

use crate::PlanFault;
use crate::place::Place;
use pr_base::{NoMemory, PathText};
use serde_json::Value;
use std::alloc::Global;

/// A value of the plan, with its place.
#[derive(Clone, Copy)]
pub struct Node<'a> {
    /// The allocator for the paths of faults.
    pub alloc: Global,
    pub place: Place<'a>,
    pub value: &'a Value,
}

impl<'a> Node<'a> {
    /// Returns the path to the value. Fails only when out of memory.
    pub fn path(self) -> Result<PathText, NoMemory>
        ensures { IfOk result (λ path. path ≡ path_of self.entry.place) }
    {
        self.place.path(self.alloc)
    }

    /// Returns the text that the value is. A value that is not a text is a fault of kind.
    pub fn text(self) -> Result<&'a str, PlanFault>
        ensures { Gives (λ s. s.now) result (at self.entry spec_text) }
    {
        match self.value.as_str() {
            Some(s) => Ok(s),
            None => Err(PlanFault::Kind(self.path()?)),
        }
    }
}

/// Reads a value, by a form or by a table of keys.
pub trait Reader {
    /// The type of what is read.
    type Out: Drop;

    // How contracts see it.
    ghost shows: { View Self.Out } = { itself };

    // What is read from a value at a path, or the value's first fault.
    ghost reads: { Self → List ℕ → Data → Read Self.shows.Seen };

    // A property of everything that is read.
    ghost keeps: { Self → Self.Out → Type 0 } = { λ _ _. Unit {0} };

    /// Returns what the value is, or its first fault.
    fn read(&self, node: Node<'_>) -> Result<Self::Out, PlanFault>
        ensures value { Gives Self.shows.seen result (at node.entry (Self.reads self.now)) }
        ensures kept { IfOk result (Self.keeps self.now) };
}

/// Reads an item of a list, with access to the items before it.
pub trait ItemReader {
    /// The type of what is read.
    type Item: Drop;

    // What is read from an item at a path, after these items, or the item's first fault.
    ghost reads: { Self → List Self.Item → List ℕ → Data → Read Self.Item };

    /// Returns what the item is, or its first fault.
    fn read_item(&self, earlier: &[Self::Item], node: Node<'_>) -> Result<Self::Item, PlanFault>
        ensures { Gives (λ x. x) result (at node.entry (Self.reads self.now earlier.now)) };
}
