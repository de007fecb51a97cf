//! The values of a JSON object by the names of its members.

ghost use Rattle.std.specs.Prelude.{◌≡◌, ◌++◌, ℕ, Bool, None, Some, IfOk, IsErrOf, bytes_eq, map, option_map, option_and_then};
ghost use Rattle.std.specs.List.{list_any};
ghost use Rattle.serde_json.specs.Data.{Data};
ghost use Rattle.serde_json.specs.Find.{as_array, as_bool, as_object, as_str, get};
ghost use Rattle.serde_json.specs.View.{items_view, members_view, view};
ghost use Rattle.site_file.specs.SiteFile.{IsTruthOf};
ghost use Rattle.site_file.specs.Fields.{field, has_only, has_only_names, items_in, list_in, list_or_empty, number_in};

use crypto_text::{Ids, Text};
use serde_json::{Map, Value};
use std::alloc::{AllocError, AllocFailed, Global};

/// Why a value isn't read.
#[derive(Clone, Copy, Debug, PartialEq, Eq)]
pub(crate) enum FieldFault {
    /// It is missing, of another type or out of form.
    Form,
    Memory,
}

impl From<AllocError> for FieldFault {
    ghost use Rattle.std.specs.Prelude.{◌≡◌};
    ghost use Rattle.site_file.specs.declared.fields.FieldFault.TheVariants.{Memory};

    ghost from_gives = { λ _ fault. fault ≡ Memory };

    fn from(_: AllocError) -> FieldFault {
        FieldFault::Memory
    }
}

impl<T: Drop> From<AllocFailed<T>> for FieldFault {
    ghost use Rattle.std.specs.Prelude.{◌≡◌};
    ghost use Rattle.site_file.specs.declared.fields.FieldFault.TheVariants.{Memory};

    ghost from_gives = { λ _ fault. fault ≡ Memory };

    fn from(_: AllocFailed<T>) -> FieldFault {
        FieldFault::Memory
    }
}

/// What a JSON value can be read as.
pub(crate) trait FromValue: Drop {
    ghost use Rattle.std.specs.Prelude.{Option};
    ghost use Rattle.serde_json.specs.Data.{Data};

    /// What is read of a value, if anything.
    ghost value_in: { Data → Option Self };

    /// Reads the value.
    fn from_value(alloc: Global, value: &Value) -> Result<Self, FieldFault>
        ensures ok { IfOk result (λ x. value_in (view value.now) ≡ Some x) }
        ensures form { IsErrOf result FieldFault.Form → value_in (view value.now) ≡ None };
}

impl FromValue for u64 {
    ghost value_in = { number_in };

    #[tactic(auto, unfolding(crate::specs::Fields::number_in))]
    fn from_value(_alloc: Global, value: &Value) -> Result<u64, FieldFault> {
        value.as_u64().ok_or(FieldFault::Form)
    }
}

impl FromValue for bool {
    ghost value_in = { as_bool };

    fn from_value(_alloc: Global, value: &Value) -> Result<bool, FieldFault> {
        value.as_bool().ok_or(FieldFault::Form)
    }
}

impl FromValue for Text {
    ghost value_in = { as_str };

    fn from_value(alloc: Global, value: &Value) -> Result<Text, FieldFault> {
        match value.as_str() {
            Some(text) => Ok(Text::of(alloc, text)?),
            None => Err(FieldFault::Form),
        }
    }
}

impl FromValue for Ids {
    ghost value_in = { list_in number_in };

    fn from_value(alloc: Global, value: &Value) -> Result<Ids, FieldFault> {
        Ok(Ids::from_vec(list_of(alloc, value)?))
    }
}

/// The truth value that a field may say; false where it is absent.
pub(crate) fn truth_of(value: Option<&Value>) -> Result<bool, FieldFault>
    ensures ok { IfOk result (IsTruthOf (option_map (λ v. view v.now) value.entry)) }
    ensures form { IsErrOf result FieldFault.Form → (truth : Bool) → ¬ IsTruthOf (option_map (λ v. view v.now) value.entry) truth }
{
    match value {
        Some(value) => match value.as_bool() {
            Some(truth) => Ok(truth),
            None => Err(FieldFault::Form),
        },
        None => Ok(false),
    }
}

/// The value under a name.
#[tactic(auto, unfolding(crate::specs::Fields::field))]
pub(crate) fn at<T: FromValue>(alloc: Global, value: &Value, name: &str) -> Result<T, FieldFault>
    ensures ok { IfOk result (λ x. field T.value_in name.now (view value.now) ≡ Some x) }
    ensures form { IsErrOf result FieldFault.Form → field T.value_in name.now (view value.now) ≡ None }
{
    match value.get(name) {
        Some(value) => T::from_value(alloc, value),
        None => Err(FieldFault::Form),
    }
}

/// The list that may stand under a name.
#[tactic(auto, unfolding(crate::specs::Fields::list_or_empty))]
pub(crate) fn list_or_empty<T: FromValue>(
    alloc: Global,
    value: Option<&Value>,
) -> Result<Vec<T>, FieldFault>
    ensures ok { IfOk result (λ list. list_or_empty T.value_in (option_map (λ v. view v.now) value.entry) ≡ Some list.items) }
    ensures form { IsErrOf result FieldFault.Form → list_or_empty T.value_in (option_map (λ v. view v.now) value.entry) ≡ None }
{
    match value {
        Some(value) => list_of(alloc, value),
        None => Ok(Vec::new(alloc)),
    }
}

/// The values of a list.
#[tactic(auto, unfolding(crate::specs::Fields::list_in))]
pub(crate) fn list_of<T: FromValue>(alloc: Global, value: &Value) -> Result<Vec<T>, FieldFault>
    ensures ok { IfOk result (λ list. list_in T.value_in (view value.now) ≡ Some list.items) }
    ensures form { IsErrOf result FieldFault.Form → list_in T.value_in (view value.now) ≡ None }
{
    match value.as_array() {
        Some(items) => items_of(alloc, items.as_slice()),
        None => Err(FieldFault::Form),
    }
}

fn items_of<T: FromValue>(alloc: Global, items: &[Value]) -> Result<Vec<T>, FieldFault>
    ensures ok { IfOk result (λ list. items_in T.value_in (items_view items.now) ≡ Some list.items) }
    ensures form { IsErrOf result FieldFault.Form → items_in T.value_in (items_view items.now) ≡ None }
{
    let mut list = Vec::with_capacity(alloc, items.len())?;
    for item in items {
        list.push(T::from_value(alloc, item)?)?;
    }
    Ok(list)
}

/// Whether the value is an object without other names than these.
pub(crate) fn has_only(value: &Value, names: &[&str]) -> bool
    ensures { result ≡ has_only (map (λ name. name.now) names.now) (as_object (view value.now)) }
{
    match value.as_object() {
        Some(members) => has_only_names(members, names),
        None => false,
    }
}

fn has_only_names(members: &Map<String, Value>, names: &[&str]) -> bool
    ensures { result ≡ has_only_names (map (λ name. name.now) names.now) (members_view members.now.entries) }
{
    for (name, _member) in members.iter() {
        if !is_known(name.as_str(), names) {
            return false;
        }
    }
    true
}

fn is_known(name: &str, names: &[&str]) -> bool
    ensures { result ≡ list_any (λ known. bytes_eq known name.now) (map (λ known. known.now) names.now) }
{
    for known in names {
        if *known == name {
            return true;
        }
    }
    false
}
