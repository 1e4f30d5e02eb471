// An object without unknown keys, and the values of its keys.
ghost use Rattle.std.specs.Prelude.{◌≡◌, IfOk, IfSome, not, map, option_map, string_bytes};
ghost use Rattle.std.specs.List.{find, list_any};
ghost use Rattle.std.specs.Str.{bytes_eq};
ghost use Rattle.std.specs.BTreeMap.{keys as keys_of};
ghost use Rattle.plan_parts.specs.Gives.{Gives};
ghost use Rattle.plan_parts.specs.Node.{at, inside};
ghost use Rattle.plan_parts.specs.Reading.{ink_keys};
ghost use Rattle.plan_parts.specs.Place.{path_of};
ghost use Rattle.plan_parts.specs.Reading as spec;
ghost use Rattle.serde_json.specs.Find.{get};
ghost use Rattle.serde_json.specs.View.{view, members_view};

use crate::PlanFault;
use crate::node::{Node, Reader};
use crate::place::Place;
use pr_base::{NoMemory, PathText};
use serde_json::{Map, Value};
use std::alloc::Global;

/// An object at a path, after its keys were tested.
#[derive(Drop)]
pub struct Object<'a> {
    /// The allocator for the paths of faults.
    pub alloc: Global,
    /// The path to the object.
    pub path: PathText,
    pub value: &'a Value,
}

impl<'a> Node<'a> {
    /// Returns the object that the value is, when it has no keys but these. A value that is not an object is
    /// a fault of kind; otherwise the first other key in byte order is a fault, `Unknown`.
    #[tactic(auto, unfolding(crate::specs::Reading::object_with))]
    pub fn object(self, keys: &[&str]) -> Result<Object<'a>, PlanFault>
        ensures value { Gives (λ o. view o.value.now) result
            (at self.entry (spec.object_with (map (λ key. key.now) keys.now))) }
        ensures path { IfOk result (λ o. o.path ≡ path_of self.entry.place) }
    {
        let path = self.path()?;
        let Value::Object(members) = self.value else {
            return Err(PlanFault::Kind(path));
        };
        if let Some(key) = first_unknown(keys, members) {
            let unknown = Place::Key(path.as_str(), key).path(self.alloc)?;
            return Err(PlanFault::Unknown(unknown));
        }
        Ok(Object {
            alloc: self.alloc,
            path,
            value: self.value,
        })
    }

    /// Returns the object that the value is, when its keys are inks: C, M, Y, K and, where there is a spot
    /// ink, S. The faults are those of `object`.
    pub fn ink_object(self, spot: bool) -> Result<Object<'a>, PlanFault>
        ensures value { Gives (λ o. view o.value.now) result
            (at self.entry (spec.object_with (ink_keys spot))) }
        ensures path { IfOk result (λ o. o.path ≡ path_of self.entry.place) }
    {
        if spot {
            self.object(&["C", "M", "Y", "K", "S"])
        } else {
            self.object(&["C", "M", "Y", "K"])
        }
    }
}

impl Object<'_> {
    /// Returns the path of a key.
    pub fn path_to(&self, key: &str) -> Result<PathText, NoMemory>
        ensures { IfOk result (λ path. path ≡ spec.at_key self.now.path key.now) }
    {
        Place::Key(self.path.as_str(), key).path(self.alloc)
    }

    // Returns the value of a key, if the object has the key.
    fn get<'k>(&'k self, key: &'k str) -> Option<Node<'k>>
        ensures value { option_map (λ node. view node.value.now) result
            ≡ get key.now (view self.now.value.now) }
        ensures place { IfSome result (λ node. path_of node.place ≡ spec.at_key self.now.path key.now) }
    {
        match self.value.get(key) {
            Some(value) => Some(Node {
                alloc: self.alloc,
                place: Place::Key(self.path.as_str(), key),
                value,
            }),
            None => None,
        }
    }

    /// Reads the value of a required key. An absent key is a fault, `Missing`.
    #[tactic(auto, unfolding(crate::specs::Reading::required))]
    pub fn required<R: Reader>(&self, key: &str, read: &R) -> Result<R::Out, PlanFault>
        ensures value { Gives R.shows.seen result
            (inside self.now (spec.required key.now (R.reads read.now))) }
        ensures kept { IfOk result (R.keeps read.now) }
    {
        match self.get(key) {
            Some(node) => read.read(node),
            None => Err(PlanFault::Missing(self.path_to(key)?)),
        }
    }

    /// Reads the value of a key, or returns `absent` where the key is absent.
    #[tactic(auto, unfolding(crate::specs::Reading::optional))]
    pub fn optional<R: Reader>(
        &self,
        key: &str,
        absent: R::Out,
        read: &R,
    ) -> Result<R::Out, PlanFault>
        requires { R.keeps read.now absent }
        ensures value { Gives R.shows.seen result
            (inside self.now (spec.optional key.now (R.shows.seen absent) (R.reads read.now))) }
        ensures kept { IfOk result (R.keeps read.now) }
    {
        match self.get(key) {
            Some(node) => read.read(node),
            None => Ok(absent),
        }
    }
}

// Returns the first key in byte order that is none of these.
fn first_unknown<'v>(keys: &[&str], members: &'v Map<String, Value>) -> Option<&'v str>
    ensures { option_map (λ key. key.now) result
        ≡ spec.first_unknown (map (λ key. key.now) keys.now) (members_view members.now.entries) }
{
    match unknown_key(keys, members) {
        Some(key) => Some(key.as_str()),
        None => None,
    }
}

fn unknown_key<'v>(keys: &[&str], members: &'v Map<String, Value>) -> Option<&'v String>
    ensures { option_map (λ key. key.now) result
        ≡ find (λ key. not (spec.is_among (map (λ k. k.now) keys.now) (string_bytes key)))
        (keys_of members.now) }
{
    members.keys().find(|key| !is_among(keys, key.as_str()))
}

fn is_among(keys: &[&str], key: &str) -> bool
    ensures { result ≡ spec.is_among (map (λ key. key.now) keys.now) key.now }
{
    is_any(keys, key)
}

fn is_any(keys: &[&str], key: &str) -> bool
    ensures { result ≡ list_any (λ k. bytes_eq key.now k.now) keys.now }
{
    keys.iter().any(|k| key == *k)
}
