//! The field `opening`: what a new store begins with.

ghost use Rattle.std.specs.Prelude.{◌≡◌, ◌∷◌, ◌<◌, [], None, IfOk, IsErrOf, IsSome, length, map, option_map};
ghost use Rattle.std.specs.List.{All};
ghost use Rattle.std.specs.List.Sorted.{IsStrictlyIncreasing};
ghost use Rattle.serde_json.specs.View.{view};
ghost use Rattle.signing_core.specs.Keys.{key_at};
ghost use Rattle.ledger_rows.specs.Opening.{IsOpening, ids_of_users};
ghost use Rattle.ledger_rows.specs.Tables.{user_of};
ghost use Rattle.ledger_rows.specs.declared.rows.Opening.{Opening};
ghost use Rattle.site_file.specs.OpeningForm.{AreEntries, IsOpeningOf, IsSessionEntry, opening_from, password_of, session_row};

use crate::entries::{Entries, SessionEntry, entries_of};
use crate::fields::FieldFault;
use crate::opening_form::are_entries;
use crate::session_form::user_of;
use crate::texts::list_of_bytes;
use crypto_text::Bytes;
use ledger_rows::{Backend, Opening, RowList, SessionRow, UserRow, session_auth_text};
use serde_json::Value;
use session_codec::{SessionKind, SessionMap, encode};
use signing_core::Keys;
use std::alloc::{AllocError, Global};

/// What the field, whose value may be absent, says under these keys and by these backends.
pub(crate) fn opening_of(
    alloc: Global,
    keys: Keys,
    backends: &[Backend],
    value: Option<&Value>,
) -> Result<Opening, FieldFault>
    ensures ok { IfOk result (IsOpeningOf keys backends.now (option_map (λ v. view v.now) value.entry)) }
    ensures opening { IfOk result (λ opening. IsOpening opening) }
    ensures form { IsErrOf result FieldFault.Form → (opening : Opening) → ¬ IsOpeningOf keys backends.now (option_map (λ v. view v.now) value.entry) opening }
{
    let entries = entries_of(alloc, value)?;
    if are_entries(alloc, &keys, backends, &entries)? {
        Ok(opening_from(alloc, keys, backends, entries)?)
    } else {
        Err(FieldFault::Form)
    }
}

#[tactic(auto, unfolding(crate::specs::OpeningForm::opening_from))]
fn opening_from(
    alloc: Global,
    keys: Keys,
    backends: &[Backend],
    entries: Entries,
) -> Result<Opening, AllocError>
    requires { AreEntries keys backends.now entries }
    ensures value { IfOk result (λ opening. opening ≡ opening_from keys backends.now entries) }
    ensures form { IfOk result (λ opening. IsOpening opening) }
{
    let sessions = session_rows(
        alloc,
        &keys,
        backends,
        entries.users.items(),
        entries.sessions.items(),
    )?;
    Ok(Opening {
        keys,
        users: entries.users,
        groups: entries.groups,
        perms: entries.perms,
        sessions: RowList::from_vec(sessions),
    })
}

fn session_rows(
    alloc: Global,
    keys: &Keys,
    backends: &[Backend],
    users: &[UserRow],
    sessions: &[SessionEntry],
) -> Result<Vec<SessionRow>, AllocError>
    requires ids { IsStrictlyIncreasing (ids_of_users users.now) }
    requires form { All (IsSessionEntry keys.now backends.now users.now) sessions.now }
    ensures { IfOk result (λ rows. rows.items ≡ map (session_row keys.now backends.now users.now) sessions.now) }
{
    let mut rows = Vec::with_capacity(alloc, sessions.len())?;
    for entry in sessions {
        rows.push(session_row(alloc, keys, backends, users, entry)?)?;
    }
    Ok(rows)
}

#[tactic(auto, unfolding(crate::specs::OpeningForm::session_row))]
fn session_row(
    alloc: Global,
    keys: &Keys,
    backends: &[Backend],
    users: &[UserRow],
    entry: &SessionEntry,
) -> Result<SessionRow, AllocError>
    requires ids { IsStrictlyIncreasing (ids_of_users users.now) }
    requires backend { entry.now.backend < length backends.now }
    requires under { entry.now.under < length keys.now }
    ensures { IfOk result (λ row. row ≡ session_row keys.now backends.now users.now entry.now) }
{
    let under = key_alone(alloc, keys, entry.under as usize)?;
    let hash = session_auth_text(alloc, password_of(users, entry.user), under.first())?;
    let path = backends[entry.backend as usize].path();
    let map = SessionMap::of_auth(alloc, entry.user, path, hash.as_str())?;
    Ok(SessionRow {
        key: entry.key.copy(alloc)?,
        text: encode(alloc, &map, SessionKind::Stored, &under, entry.began)?,
        expire: entry.expire,
    })
}

/// The key at an index, as the one key of a list.
fn key_alone(alloc: Global, keys: &Keys, at: usize) -> Result<Keys, AllocError>
    requires { at < length keys.now }
    ensures { IfOk result (λ alone. alone ≡ key_at keys.now at ∷ []) }
{
    let key = Bytes::of(alloc, keys.key(at))?;
    match list_of_bytes(alloc, key, Vec::new(alloc)) {
        Ok(alone) => Ok(alone),
        Err(FieldFault::Form) => unreachable!(),
        Err(FieldFault::Memory) => Err(AllocError),
    }
}

fn password_of(users: &[UserRow], id: u64) -> &str
    requires { IsStrictlyIncreasing (ids_of_users users.now) }
    ensures { result.now ≡ password_of (user_of users.now id) }
{
    match user_of(users, id) {
        Some(user) => user.password.as_str(),
        None => "",
    }
}
