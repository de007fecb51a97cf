//! Whether the sessions of an opening are well formed.

ghost use Rattle.std.specs.Prelude.{◌≡◌, ◌↔◌, ◌<◌, IfOk, IsTrue, length};
ghost use Rattle.std.specs.List.{All};
ghost use Rattle.std.specs.List.Sorted.{IsStrictlyIncreasing};
ghost use Rattle.std.specs.Option.{option_copied};
ghost use Rattle.ledger_rows.specs.Opening.{ids_of_users};
ghost use Rattle.ledger_rows.specs.Tables.{user_of};
ghost use Rattle.site_file.specs.OpeningForm.{AreSessionEntries, IsSessionEntry, keys_of_entries};

use crate::entries::SessionEntry;
use crypto_text::{Text, are_different, is_moment};
use ledger_rows::{Backend, UserRow, is_session_key};
use signing_core::Keys;
use std::alloc::{AllocError, Global};

/// Whether the sessions are well formed, by these keys, backends and users.
pub(crate) fn are_sessions(
    alloc: Global,
    keys: &Keys,
    backends: &[Backend],
    users: &[UserRow],
    sessions: &[SessionEntry],
) -> Result<bool, AllocError>
    requires { IsStrictlyIncreasing (ids_of_users users.now) }
    ensures { IfOk result (λ answer. IsTrue answer ↔ AreSessionEntries keys.now backends.now users.now sessions.now) }
{
    let different = are_different(session_keys(alloc, sessions)?);
    Ok(different && are_session_rows(keys, backends, users, sessions))
}

fn are_session_rows(
    keys: &Keys,
    backends: &[Backend],
    users: &[UserRow],
    sessions: &[SessionEntry],
) -> bool
    requires { IsStrictlyIncreasing (ids_of_users users.now) }
    ensures { IsTrue result ↔ All (IsSessionEntry keys.now backends.now users.now) sessions.now }
{
    sessions
        .iter()
        .all(|entry| is_session(keys, backends, users, entry))
}

fn is_session(keys: &Keys, backends: &[Backend], users: &[UserRow], entry: &SessionEntry) -> bool
    requires { IsStrictlyIncreasing (ids_of_users users.now) }
    ensures { IsTrue result ↔ IsSessionEntry keys.now backends.now users.now entry.now }
{
    is_session_key(entry.key.as_str())
        && user_of(users, entry.user).is_some()
        && entry.backend < backends.len() as u64
        && entry.under < keys.len() as u64
        && is_moment(entry.began)
        && is_moment(entry.expire)
}

/// The user of an id, found by halves.
pub(crate) fn user_of(users: &[UserRow], id: u64) -> Option<&UserRow>
    requires { IsStrictlyIncreasing (ids_of_users users.now) }
    ensures { option_copied result ≡ user_of users.now id }
{
    match users.binary_search_by_key(&id, |user| user.id) {
        Ok(index) => Some(&users[index]),
        Err(_) => None,
    }
}

fn session_keys(alloc: Global, sessions: &[SessionEntry]) -> Result<Vec<Text>, AllocError>
    ensures { IfOk result (λ keys. keys.items ≡ keys_of_entries sessions.now) }
{
    let mut keys = Vec::with_capacity(alloc, sessions.len())?;
    for entry in sessions {
        keys.push(entry.key.copy(alloc)?)?;
    }
    Ok(keys)
}
