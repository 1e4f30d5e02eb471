// A list of a stated length, and its items.
ghost use Rattle.std.specs.Prelude.{◌≡◌, ◌≤◌, List, [], IfOk, IfSome, length, option_map};
ghost use Rattle.plan_parts.specs.Gives.{Gives};
ghost use Rattle.plan_parts.specs.Node.{at, among};
ghost use Rattle.plan_parts.specs.Place.{path_of};
ghost use Rattle.plan_parts.specs.Reading as spec;
ghost use Rattle.serde_json.specs.Find.{get_item};
ghost use Rattle.serde_json.specs.View.{view, items_view};

use crate::PlanFault;
use crate::node::{ItemReader, Node, Reader};
use crate::place::Place;
use pr_base::PathText;
use serde_json::Value;
use std::alloc::Global;

/// The items of a list at a path, after its length was tested.
#[derive(Drop)]
pub struct Items<'a> {
    /// The allocator for the paths of faults.
    pub alloc: Global,
    /// The path to the list.
    pub path: PathText,
    pub values: &'a [Value],
}

impl<'a> Node<'a> {
    // Returns the items of the list, or a fault where the value is not a list.
    #[tactic(auto, unfolding(crate::specs::Reading::items_in))]
    fn values(self) -> Result<&'a [Value], PlanFault>
        ensures { Gives (λ values. items_view values.now) result (at self.entry spec.items_in) }
    {
        match self.value {
            Value::Array(values) => Ok(values.as_slice()),
            _ => Err(PlanFault::Kind(self.path()?)),
        }
    }

    /// Returns the items of the list, which has `low` to `high` of them. A value that is not a list is a
    /// fault of kind, a list of another length a fault of range.
    #[tactic(auto, using(crate::proofs::Lists::count_view), unfolding(crate::specs::Reading::items_within))]
    pub fn items(self, low: usize, high: usize) -> Result<Items<'a>, PlanFault>
        ensures value { Gives (λ items. items_view items.values.now) result
            (at self.entry (spec.items_within low high)) }
        ensures path { IfOk result (λ items. items.path ≡ path_of self.entry.place) }
        ensures least { IfOk result (λ items. low ≤ length items.values.now) }
        ensures most { IfOk result (λ items. length items.values.now ≤ high) }
    {
        let values = self.values()?;
        if values.len() < low || values.len() > high {
            return Err(PlanFault::Range(self.path()?));
        }
        Ok(Items {
            alloc: self.alloc,
            path: self.path()?,
            values,
        })
    }
}

impl Items<'_> {
    /// Returns the number of items.
    #[tactic(auto, using(crate::proofs::Lists::count_view))]
    pub fn count(&self) -> usize
        ensures { result ≡ spec.count_of (items_view self.now.values.now) }
    {
        self.values.len()
    }

    /// Returns the item at an index, from 0, if there is one.
    pub fn get(&self, i: usize) -> Option<Node<'_>>
        ensures value { option_map (λ node. view node.value.now) result
            ≡ get_item i (items_view self.now.values.now) }
        ensures place { IfSome result (λ node. path_of node.place ≡ spec.at_item self.now.path i) }
    {
        if i < self.values.len() {
            Some(Node {
                alloc: self.alloc,
                place: Place::Item(self.path.as_str(), i),
                value: &self.values[i],
            })
        } else {
            None
        }
    }

    /// Reads the item at an index, from 0. An absent item is a fault, `Missing`.
    #[tactic(auto, unfolding(crate::specs::Reading::nth))]
    pub fn required<R: Reader>(&self, i: usize, read: &R) -> Result<R::Out, PlanFault>
        ensures value { Gives R.shows.seen result (among self.now (spec.nth i (R.reads read.now))) }
        ensures kept { IfOk result (R.keeps read.now) }
    {
        match self.get(i) {
            Some(node) => read.read(node),
            None => {
                let path = Place::Item(self.path.as_str(), i).path(self.alloc)?;
                Err(PlanFault::Missing(path))
            }
        }
    }

    /// Reads the item at an index, from 0, or returns `absent` where there is no such item.
    pub fn optional<R: Reader>(
        &self,
        i: usize,
        absent: R::Out,
        read: &R,
    ) -> Result<R::Out, PlanFault>
        requires { R.keeps read.now absent }
        ensures value { Gives R.shows.seen result (among self.now
            (λ path items. spec.optional_in (R.shows.seen absent) (R.reads read.now)
            (spec.at_item path i) (get_item i items))) }
        ensures kept { IfOk result (R.keeps read.now) }
    {
        match self.get(i) {
            Some(node) => read.read(node),
            None => Ok(absent),
        }
    }

    /// Reads all items in order, each with access to the items before it.
    pub fn each<I: ItemReader>(&self, read: &I) -> Result<Vec<I::Item>, PlanFault>
        ensures value { Gives (λ all. all.items) result
            (among self.now (spec.each_after [] (I.reads read.now))) }
        ensures count { IfOk result (λ all. length all.items ≡ length self.now.values.now) }
    {
        let mut all = Vec::new(self.alloc);
        for value in self.values {
            let node = Node {
                alloc: self.alloc,
                place: Place::Item(self.path.as_str(), all.len()),
                value,
            };
            let one = read.read_item(all.as_slice(), node)?;
            all.push(one)?;
        }
        Ok(all)
    }
}

/// Reads a list whose number of items is from the first number to the second, inclusive.
#[derive(Drop)]
pub struct ListOf<I>(pub usize, pub usize, pub I);

impl<I: ItemReader> Reader for ListOf<I> {
    type Out = Vec<I::Item>;

    ghost shows = { record { Seen = List I.Item; seen = λ all. all.items } };

    ghost reads = { λ list. spec.list_of list.0 list.1 (I.reads list.2) };

    fn read(&self, node: Node<'_>) -> Result<Vec<I::Item>, PlanFault> {
        let items = node.items(self.0, self.1)?;
        items.each(&self.2)
    }
}
