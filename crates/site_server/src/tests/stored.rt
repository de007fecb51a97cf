//! The sessions that a run leaves in the store.

use super::runs::{Asked, Done, NOW};
use super::*;
use keepers::KeeperFault;
use ledger_rows::SessionRow;
use session_codec::{SessionKind, decode, payload};

pub(super) const SECOND_KEY: &str = "s2s2s2s2s2s2s2s2s2s2s2s2s2s2s2s2";

/// Alice's login, with the hash that Python's hmac and hashlib make of her password text under the key `k0`, after
/// Django's `get_session_auth_hash`.
pub(super) const LOGIN: &str =
    r#"{"_auth_user_backend":"django.contrib.auth.backends.ModelBackend","_auth_user_hash":"94270d73c07ade8a370c7e654f8f8829baaffa1653e6c9641487d371331bcb81","_auth_user_id":"1"}"#;

/// The same under the key `k1`.
pub(super) const SECOND_LOGIN: &str =
    r#"{"_auth_user_backend":"django.contrib.auth.backends.ModelBackend","_auth_user_hash":"5da830d29958abfb31c55283c4d4e11db0097a03201daac5a13669cdabf5ccde","_auth_user_id":"1"}"#;

pub(super) const FIRST_ROW: Row<'static> = Row {
    key: ALICES_KEY,
    expire: 1_700_000_001,
    map: Some(LOGIN),
};

pub(super) const SECOND_ROW: Row<'static> = Row {
    key: SECOND_KEY,
    expire: 1_700_500_000,
    map: Some(SECOND_LOGIN),
};

/// A session that is to be stored.
#[derive(Clone, Copy)]
pub(super) struct Row<'a> {
    pub(super) key: &'a str,
    /// The moment from which on it is over.
    pub(super) expire: u64,
    /// Its map as JSON; none where its text isn't signed under a present key.
    pub(super) map: Option<&'a str>,
}

/// Whether these are all sessions of the store.
pub(super) fn are_stored<K: Keeper>(
    alloc: Global,
    keeper: &mut K,
    rows: &[Row<'_>],
) -> Result<bool, KeeperFault> {
    for row in rows {
        if !is_stored(alloc, keeper, row)? {
            return Ok(false);
        }
    }
    Ok(session_count(keeper)? == rows.len() as u64)
}

// A keeper that isn't new may be asked.
fn session_count<K: Keeper>(keeper: &mut K) -> Result<u64, KeeperFault> {
    if keeper.is_new()? {
        return Ok(0);
    }
    keeper.count_expired(u64::MAX)
}

fn is_stored<K: Keeper>(alloc: Global, keeper: &mut K, due: &Row<'_>) -> Result<bool, KeeperFault> {
    if keeper.is_new()? {
        return Ok(false);
    }
    match keeper.session(alloc, due.key)? {
        Some(found) if found.expire == due.expire => is_readable(alloc, keeper, &found, due),
        _ => Ok(false),
    }
}

fn is_readable<K: Keeper>(
    alloc: Global,
    keeper: &mut K,
    found: &SessionRow,
    due: &Row<'_>,
) -> Result<bool, KeeperFault> {
    if keeper.is_new()? {
        return Ok(false);
    }
    let keys = keeper.keys(alloc)?;
    let map = match decode(alloc, found.text.as_str(), SessionKind::Stored, &keys, NOW) {
        Ok(map) => Some(payload(alloc, &map)?),
        Err(_) => None,
    };
    Ok(map.as_ref().map(|text| text.as_str()) == due.map)
}

/// The password text of user 1, of the password `wxyz`.
pub(super) const ALICES_TEXT: &str = "md5$abcdefghijklmnopqrstuv$c3fcd3d76192e4007dfb496cca67e13b";

/// Whether user 1, where there is one, has the last password text and the moment of the last login that these steps leave: each
/// change that expects the text before it is done.
pub(super) fn is_alice<K: Keeper>(
    alloc: Global,
    keeper: &mut K,
    steps: &[Done<'_>],
) -> Result<bool, KeeperFault> {
    if keeper.is_new()? {
        return Ok(false);
    }
    match keeper.user_by_id(alloc, 1)? {
        Some(row) => Ok(
            row.password.as_str() == text_after(steps) && row.last_login == login_after(steps),
        ),
        None => Ok(true),
    }
}

fn text_after<'a>(steps: &[Done<'a>]) -> &'a str {
    let mut text = ALICES_TEXT;
    for step in steps {
        if let Asked::Password(expected, fresh) = step.what {
            if expected == text {
                text = fresh;
            }
        }
    }
    text
}

fn login_after(steps: &[Done<'_>]) -> Option<u64> {
    for step in steps {
        if let Asked::Stamp = step.what {
            return Some(NOW);
        }
    }
    None
}
