//! Profile values: no float, and nested at most 100 deep.

ghost use Rattle.std.specs.Prelude.{◌↔◌, IsTrue};
ghost use Rattle.serde_json.specs.View.{items_view, members_view, view};
ghost use Rattle.ascii_json.specs.Profile.{FitsWithin, IsProfile, ItemsFitWithin, MembersFitWithin};
ghost use Rattle.ascii_json.specs.Representable.{IsRepresentable, ItemsAreRepresentable, MembersAreRepresentable};

use serde_json::{Map, Value};

const MOST_NESTED: usize = 100;

/// Whether a value has no float and is nested at most 100 deep.
pub fn is_profile(value: &Value) -> bool
    ensures profile { IsTrue result ↔ IsProfile (view value.now) }
    ensures representable { IsTrue result → IsRepresentable (view value.now) }
{
    fits_within(value, MOST_NESTED)
}

/// Whether a value has no float and is nested at most so deep: a plain value has depth 0, and each list or
/// object adds 1. A number beyond 64 bits, and `-0`, were read as floats.
#[cycle(fits)]
pub fn fits_within(value: &Value, most: usize) -> bool
    ensures fits { IsTrue result ↔ FitsWithin most (view value.now) }
    ensures representable { IsTrue result → IsRepresentable (view value.now) }
{
    match value {
        Value::Number(number) => number.as_u64().is_some() || number.as_i64().is_some(),
        Value::Array(items) => most > 0 && items_fit_within(items, most - 1),
        Value::Object(members) => most > 0 && members_fit_within(members, most - 1),
        Value::String(string) => {
            // Read, so that its bytes are known to be UTF-8.
            let _text = string.as_str();
            true
        }
        Value::Null | Value::Bool(_) => true,
    }
}

#[cycle(fits)]
fn items_fit_within(items: &Vec<Value>, most: usize) -> bool
    ensures fits { IsTrue result ↔ ItemsFitWithin most (items_view items.now.items) }
    ensures representable { IsTrue result → ItemsAreRepresentable (items_view items.now.items) }
{
    for item in items {
        if !fits_within(item, most) {
            return false;
        }
    }
    true
}

#[cycle(fits)]
fn members_fit_within(members: &Map<String, Value>, most: usize) -> bool
    ensures fits { IsTrue result ↔ MembersFitWithin most (members_view members.now.entries) }
    ensures representable { IsTrue result → MembersAreRepresentable (members_view members.now.entries) }
{
    for (_key, member) in members.iter() {
        if !fits_within(member, most) {
            return false;
        }
    }
    true
}
