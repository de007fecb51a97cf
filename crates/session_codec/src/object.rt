//! The members of an object, as the library keeps them.

ghost use Rattle.std.specs.Prelude.{◌≡◌, ◌↔◌, IsTrue, OnErr, OnOk, string_bytes};
ghost use Rattle.serde_json.specs.Data.{no_members, put};
ghost use Rattle.serde_json.specs.View.{members_view, view};
ghost use Rattle.session_codec.specs.SessionMap.{without};

use serde_json::{Map, Value};
use std::alloc::AllocError;

/// Puts a value under a name, in place of the one that was there.
pub(crate) fn put_member(
    members: &mut Map<String, Value>,
    name: String,
    value: Value,
) -> Result<(), AllocError>
    ensures ok { OnOk result (members_view members.new.entries ≡ put (string_bytes name) (view value) (members_view members.old.entries)) }
    ensures err { OnErr result (members_view members.new.entries ≡ members_view members.old.entries) }
{
    members.insert(name, value)?;
    Ok(())
}

/// Removes a name and its value, if it is there.
#[tactic(auto, using(crate::proofs::MembersLemmas::taken_away))]
pub(crate) fn take_member(members: &mut Map<String, Value>, name: &str)
    ensures { members_view members.new.entries ≡ without name.now (members_view members.old.entries) }
{
    drop(members.remove(name));
}

/// Whether there is no name.
pub(crate) fn has_no_members(members: &Map<String, Value>) -> bool
    ensures { IsTrue result ↔ (members_view members.now.entries ≡ no_members) }
{
    members.is_empty()
}
