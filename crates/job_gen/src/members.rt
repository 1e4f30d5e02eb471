// Members of JSON objects whose values are texts, numbers and lists of numbers, and the objects that have
// them.
ghost use Rattle.std.specs.Prelude.{◌≡◌, [], ◌∷◌, IfOk, OnOk, map};
ghost use Rattle.job_gen.specs.Text.{list_of, members_of, object_of, object_with as object_with_of, put_all};
ghost use Rattle.job_gen.specs.Text.{value_of, whole};
ghost use Rattle.serde_json.specs.View.{members_view, view};

use pr_base::NoMemory;
use serde_json::{Map, Value, put};
use std::alloc::Global;

/// A JSON value that is a text, a whole number or a list of whole numbers.
#[derive(Clone, Copy)]
pub(crate) enum Plain<'a> {
    Text(&'a str),
    Number(u32),
    Numbers(&'a [u32]),
}

impl Plain<'_> {
    /// Returns the JSON value.
    fn value(self, alloc: Global) -> Result<Value, NoMemory>
        ensures { IfOk result (λ value. view value ≡ value_of self.entry) }
    {
        match self {
            Plain::Text(text) => Ok(Value::try_from_str(alloc, text)?),
            Plain::Number(number) => Ok(Value::from(number)),
            Plain::Numbers(all) => numbers(alloc, all),
        }
    }
}

/// Returns a list of numbers.
fn numbers(alloc: Global, all: &[u32]) -> Result<Value, NoMemory>
    ensures { IfOk result (λ value. view value ≡ list_of (map whole all.now)) }
{
    let mut values = Vec::new(alloc);
    for n in all {
        values.push(Value::from(*n))?;
    }
    Ok(Value::Array(values))
}

/// Adds these members to an object.
pub(crate) fn put_members(
    alloc: Global,
    members: &[(&str, Plain<'_>)],
    object: &mut Map<String, Value>,
) -> Result<(), NoMemory>
    ensures { OnOk result (members_view object.new.entries
        ≡ put_all (members_view object.old.entries) (members_of members.now)) }
{
    for (key, value) in members {
        put(object, alloc, *key, value.value(alloc)?)?;
    }
    Ok(())
}

/// Returns the object with these members.
pub(crate) fn object(alloc: Global, members: &[(&str, Plain<'_>)]) -> Result<Value, NoMemory>
    ensures { IfOk result (λ value. view value ≡ object_of (members_of members.now)) }
{
    let mut object = Map::new(alloc);
    put_members(alloc, members, &mut object)?;
    Ok(Value::Object(object))
}

/// Returns the object with these members and one more.
pub(crate) fn object_with(
    alloc: Global,
    members: &[(&str, Plain<'_>)],
    key: &str,
    value: Value,
) -> Result<Value, NoMemory>
    ensures { IfOk result (λ object. view object
        ≡ object_with_of (members_of members.now) key.now (view value)) }
{
    let mut object = Map::new(alloc);
    put_members(alloc, members, &mut object)?;
    put(&mut object, alloc, key, value)?;
    Ok(Value::Object(object))
}

/// Returns the list of one value.
pub(crate) fn list_of_one(alloc: Global, value: Value) -> Result<Value, NoMemory>
    ensures { IfOk result (λ list. view list ≡ list_of (view value ∷ [])) }
{
    Ok(Value::Array(vec![in alloc; value]?))
}
