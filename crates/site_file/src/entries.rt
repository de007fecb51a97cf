//! The rows that the field `opening` writes down.

ghost use Rattle.std.specs.Prelude.{◌≡◌, None, Some, IfOk, IsErrOf, option_map};
ghost use Rattle.serde_json.specs.View.{view};
ghost use Rattle.site_file.specs.Entries.{entries_in, entries_of, entries_parts, group_in, group_parts, perm_in, perm_parts, session_in, session_parts, user_in, user_parts};

use crate::fields::{FieldFault, FromValue, at, has_only, list_or_empty};
use crypto_text::Text;
use ledger_rows::{RowList, UserRow};
use permissions::{GroupRow, PermRow};
use serde_json::Value;
use std::alloc::Global;

/// An opening session as it is written down; its row's text is made of it.
#[derive(Drop)]
pub struct SessionEntry {
    pub key: Text,
    /// The id of its user.
    pub user: u64,
    /// The place of its backend in the site's backends.
    pub backend: u64,
    /// The place of the key that signs it in the site's keys.
    pub under: u64,
    /// The moment when it began.
    pub began: u64,
    pub expire: u64,
}

/// All that the field writes down.
#[derive(Drop)]
pub struct Entries {
    pub users: RowList<UserRow>,
    pub groups: RowList<GroupRow>,
    pub perms: RowList<PermRow>,
    pub sessions: RowList<SessionEntry>,
}

/// Reads the field, whose value may be absent.
pub(crate) fn entries_of(alloc: Global, value: Option<&Value>) -> Result<Entries, FieldFault>
    ensures ok { IfOk result (λ entries. entries_of (option_map (λ v. view v.now) value.entry) ≡ Some entries) }
    ensures form { IsErrOf result FieldFault.Form → entries_of (option_map (λ v. view v.now) value.entry) ≡ None }
{
    match value {
        Some(value) => entries_in(alloc, value),
        None => Ok(Entries {
            users: RowList::from_vec(Vec::new(alloc)),
            groups: RowList::from_vec(Vec::new(alloc)),
            perms: RowList::from_vec(Vec::new(alloc)),
            sessions: RowList::from_vec(Vec::new(alloc)),
        }),
    }
}

#[tactic(auto, unfolding(crate::specs::Entries::entries_in))]
fn entries_in(alloc: Global, value: &Value) -> Result<Entries, FieldFault>
    ensures ok { IfOk result (λ entries. entries_in (view value.now) ≡ Some entries) }
    ensures form { IsErrOf result FieldFault.Form → entries_in (view value.now) ≡ None }
{
    if has_only(value, &["users", "groups", "perms", "sessions"]) {
        entries_parts(alloc, value)
    } else {
        Err(FieldFault::Form)
    }
}

#[tactic(auto, unfolding(crate::specs::Entries::entries_parts))]
fn entries_parts(alloc: Global, value: &Value) -> Result<Entries, FieldFault>
    ensures ok { IfOk result (λ entries. entries_parts (view value.now) ≡ Some entries) }
    ensures form { IsErrOf result FieldFault.Form → entries_parts (view value.now) ≡ None }
{
    Ok(Entries {
        users: RowList::from_vec(list_or_empty(alloc, value.get("users"))?),
        groups: RowList::from_vec(list_or_empty(alloc, value.get("groups"))?),
        perms: RowList::from_vec(list_or_empty(alloc, value.get("perms"))?),
        sessions: RowList::from_vec(list_or_empty(alloc, value.get("sessions"))?),
    })
}

impl FromValue for UserRow {
    ghost value_in = { user_in };

    #[tactic(auto, unfolding(crate::specs::Entries::user_in))]
    fn from_value(alloc: Global, value: &Value) -> Result<UserRow, FieldFault> {
        if has_only(
            value,
            &[
                "id",
                "name",
                "email",
                "password",
                "active",
                "superuser",
                "groups",
                "perms",
            ],
        ) {
            user_parts(alloc, value)
        } else {
            Err(FieldFault::Form)
        }
    }
}

#[tactic(auto, unfolding(crate::specs::Entries::user_parts))]
fn user_parts(alloc: Global, value: &Value) -> Result<UserRow, FieldFault>
    ensures ok { IfOk result (λ row. user_parts (view value.now) ≡ Some row) }
    ensures form { IsErrOf result FieldFault.Form → user_parts (view value.now) ≡ None }
{
    Ok(UserRow {
        id: at(alloc, value, "id")?,
        name: at(alloc, value, "name")?,
        email: at(alloc, value, "email")?,
        password: at(alloc, value, "password")?,
        active: at(alloc, value, "active")?,
        superuser: at(alloc, value, "superuser")?,
        last_login: None,
        groups: at(alloc, value, "groups")?,
        perms: at(alloc, value, "perms")?,
    })
}

impl FromValue for GroupRow {
    ghost value_in = { group_in };

    #[tactic(auto, unfolding(crate::specs::Entries::group_in))]
    fn from_value(alloc: Global, value: &Value) -> Result<GroupRow, FieldFault> {
        if has_only(value, &["id", "name", "perms"]) {
            group_parts(alloc, value)
        } else {
            Err(FieldFault::Form)
        }
    }
}

#[tactic(auto, unfolding(crate::specs::Entries::group_parts))]
fn group_parts(alloc: Global, value: &Value) -> Result<GroupRow, FieldFault>
    ensures ok { IfOk result (λ row. group_parts (view value.now) ≡ Some row) }
    ensures form { IsErrOf result FieldFault.Form → group_parts (view value.now) ≡ None }
{
    Ok(GroupRow {
        id: at(alloc, value, "id")?,
        name: at(alloc, value, "name")?,
        perms: at(alloc, value, "perms")?,
    })
}

impl FromValue for PermRow {
    ghost value_in = { perm_in };

    #[tactic(auto, unfolding(crate::specs::Entries::perm_in))]
    fn from_value(alloc: Global, value: &Value) -> Result<PermRow, FieldFault> {
        if has_only(value, &["id", "app", "codename"]) {
            perm_parts(alloc, value)
        } else {
            Err(FieldFault::Form)
        }
    }
}

#[tactic(auto, unfolding(crate::specs::Entries::perm_parts))]
fn perm_parts(alloc: Global, value: &Value) -> Result<PermRow, FieldFault>
    ensures ok { IfOk result (λ row. perm_parts (view value.now) ≡ Some row) }
    ensures form { IsErrOf result FieldFault.Form → perm_parts (view value.now) ≡ None }
{
    Ok(PermRow {
        id: at(alloc, value, "id")?,
        app: at(alloc, value, "app")?,
        codename: at(alloc, value, "codename")?,
    })
}

impl FromValue for SessionEntry {
    ghost value_in = { session_in };

    #[tactic(auto, unfolding(crate::specs::Entries::session_in))]
    fn from_value(alloc: Global, value: &Value) -> Result<SessionEntry, FieldFault> {
        if has_only(value, &["key", "user", "backend", "under", "at", "expire"]) {
            session_parts(alloc, value)
        } else {
            Err(FieldFault::Form)
        }
    }
}

#[tactic(auto, unfolding(crate::specs::Entries::session_parts))]
fn session_parts(alloc: Global, value: &Value) -> Result<SessionEntry, FieldFault>
    ensures ok { IfOk result (λ entry. session_parts (view value.now) ≡ Some entry) }
    ensures form { IsErrOf result FieldFault.Form → session_parts (view value.now) ≡ None }
{
    Ok(SessionEntry {
        key: at(alloc, value, "key")?,
        user: at(alloc, value, "user")?,
        backend: at(alloc, value, "backend")?,
        under: at(alloc, value, "under")?,
        began: at(alloc, value, "at")?,
        expire: at(alloc, value, "expire")?,
    })
}
