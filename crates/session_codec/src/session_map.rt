//! The map that a session is.

ghost use Rattle.std.specs.Prelude.{◌≡◌, ◌↔◌, IfOk, IsTrue, MatchOption, None, OnErr, OnOk, Some, option_map};
ghost use Rattle.serde_json.specs.Data.{no_members, object, put};
ghost use Rattle.serde_json.specs.Find.{as_object, get_member};
ghost use Rattle.serde_json.specs.View.{view};
ghost use Rattle.ascii_json.specs.Profile.{FitsWithin, IsProfile};
ghost use Rattle.ascii_json.specs.Representable.{IsRepresentable};
ghost use Rattle.session_codec.specs.SessionMap.{IsSession, IsSessionValue, without};

use crate::object::{has_no_members, put_member, take_member};
use ascii_json::fits_within;
use serde_json::{Map, Value};
use std::alloc::{AllocError, Global};
use std::marker::Model;

const MOST_NESTED: usize = 99;

/// JSON values under names, seen as the members of an object: names in byte order, each once. No value
/// has a float or is nested more than 99 deep. It has no `Debug`, so that no session is printed.
#[derive(Drop)]
pub struct SessionMap {
    members: Value,
}

impl Model for SessionMap {
    ghost use Rattle.serde_json.specs.Data.{Members};
    ghost use Rattle.ascii_json.specs.MembersCode.{members_code};

    ghost Value = { Members };

    ghost coded = { members_code };

    ghost use Rattle.serde_json.specs.View.{view as data_of};
    ghost use Rattle.session_codec.specs.Held.{IsHeld, members_held};

    ghost view = { λ s. members_held (data_of s.members) };

    ghost invariant = { λ s. IsHeld (data_of s.members) };
}

/// Whether a session can hold a value: no float, and nested at most 99 deep.
pub fn is_session_value(value: &Value) -> bool
    ensures value { IsTrue result ↔ IsSessionValue (view value.now) }
    ensures fits { IsTrue result ↔ FitsWithin 99 (view value.now) }
{
    fits_within(value, MOST_NESTED)
}

impl SessionMap {
    /// A map without names. Takes no memory.
    pub fn new(alloc: Global) -> SessionMap
        ensures { result ≡ no_members }
    {
        SessionMap {
            members: Value::Object(Map::new(alloc)),
        }
    }

    /// The map of an object, if the value is one.
    pub(crate) fn of_value(value: Value) -> Option<SessionMap>
        requires profile { IsProfile (view value) }
        requires representable { IsRepresentable (view value) }
        ensures { MatchOption result (as_object (view value) ≡ None) (λ map. as_object (view value) ≡ Some map) }
    {
        if value.is_object() {
            Some(SessionMap { members: value })
        } else {
            None
        }
    }

    /// Another map with the same values.
    pub fn copy(&self, _alloc: Global) -> Result<SessionMap, AllocError>
        ensures { IfOk result (λ copy. copy ≡ self.now) }
    {
        // Values know by themselves where their memory is from.
        Ok(SessionMap {
            members: self.members.clone()?,
        })
    }

    /// The value under a name.
    pub fn get(&self, key: &str) -> Option<&Value>
        ensures { option_map (λ value. view value.now) result ≡ get_member key.now self.now }
    {
        self.members.get(key)
    }

    /// Puts a value under a name, in place of the one that was there. Ask `is_session_value` first.
    pub fn set(&mut self, alloc: Global, key: &str, value: Value) -> Result<(), AllocError>
        requires { FitsWithin 99 (view value) }
        ensures ok { OnOk result (self.new ≡ put key.now (view value) self.old) }
        ensures err { OnErr result (self.new ≡ self.old) }
    {
        // What memory holds is representable, which the question says.
        if !is_session_value(&value) {
            unreachable!();
        }
        let name = String::from_str(alloc, key)?;
        match self.members.as_object_mut() {
            Some(members) => put_member(members, name, value),
            None => unreachable!(),
        }
    }

    /// Removes a name and its value, if it is there.
    pub fn remove(&mut self, key: &str)
        ensures { self.new ≡ without key.now self.old }
    {
        match self.members.as_object_mut() {
            Some(members) => take_member(members, key),
            None => unreachable!(),
        }
    }

    /// Removes all names.
    pub fn clear(&mut self)
        ensures { self.new ≡ no_members }
    {
        match self.members.as_object_mut() {
            Some(members) => members.clear(),
            None => unreachable!(),
        }
    }

    /// Whether there is no name.
    pub fn is_empty(&self) -> bool
        ensures { IsTrue result ↔ (self.now ≡ no_members) }
    {
        match &self.members {
            Value::Object(members) => has_no_members(members),
            _ => unreachable!(),
        }
    }

    /// The members as a JSON object.
    pub fn as_value(&self) -> &Value
        ensures value { view result.now ≡ object self.now }
        ensures session { IsSession self.now }
    {
        &self.members
    }
}
