//! Who a stored session speaks for.

ghost use Rattle.std.specs.Prelude.{◌≡◌, IfOk};
ghost use Rattle.std.specs.Option.{option_copied};
ghost use Rattle.crypto_text.specs.Hexadecimal.{hex_text};
ghost use Rattle.signing_core.specs.Keys.{key_at};
ghost use Rattle.ledger_rows.specs.Admission.{IsRowOf, admits, auth_hash, backend_of, login_of, verdict_on_auth, verdict_on_user};
ghost use Rattle.ledger_rows.specs.Step.{admitted_user, user_read};

use crate::auth_keys::{AuthKeyList, AuthKeys};
use crate::reply::UserRead;
use crate::rows::{Backend, UserRow};
use crate::verdict::Verdict;
use crypto_text::{Text, hex_of, salted_hmac};
use session_codec::AuthPart;
use std::alloc::{AllocError, Global};

pub(crate) const SESSION_AUTH_SALT: &[u8] =
    b"django.contrib.auth.models.AbstractBaseUser.get_session_auth_hash";

/// What is found of a session that was read.
#[derive(Drop)]
pub struct Judgement {
    pub verdict: Verdict,
    /// Whom the verdict admits.
    pub user: Option<UserRead>,
}

/// The hash that a session of a user keeps, as Django's `get_session_auth_hash`: it is made of the password
/// text and the key, so that it admits nobody once one of them is gone. Takes no memory.
#[tactic(auto, unfolding(crate::specs::Admission::auth_hash, crate::specs::Admission::session_auth_salt))]
pub fn session_auth_hash(password: &str, key: &[u8]) -> [u8; 64]
    ensures { result ≡ auth_hash password.now key.now }
{
    hex_of(&salted_hmac(SESSION_AUTH_SALT, password.as_bytes(), key))
}

/// The same hash as a text.
#[tactic(auto, unfolding(crate::specs::Admission::auth_hash, crate::specs::Admission::session_auth_salt))]
pub fn session_auth_text(alloc: Global, password: &str, key: &[u8]) -> Result<Text, AllocError>
    ensures { IfOk result (λ text. text ≡ auth_hash password.now key.now) }
{
    hex_text(
        alloc,
        salted_hmac(SESSION_AUTH_SALT, password.as_bytes(), key),
    )
}

fn hex_text(alloc: Global, mac: [u8; 32]) -> Result<Text, AllocError>
    ensures { IfOk result (λ text. text ≡ hex_text mac) }
{
    Ok(Text::from_string(hex::encode(alloc, mac)?))
}

/// The verdict on a session that was read: its login, the configured backends in their order, the user
/// whom the login names, and the present keys. Takes no memory.
pub fn admit<K: AuthKeyList>(
    part: Option<&AuthPart<'_>>,
    backends: &[Backend],
    user: Option<&UserRow>,
    keys: &K,
) -> Verdict
    requires row { IsRowOf (login_of (option_copied part)) (option_copied user) }
    ensures { result ≡ verdict_on_auth backends.now (K.listed keys.now) (login_of (option_copied part.entry)) (option_copied user.entry) }
{
    match part {
        Some(part) => match backend_of(backends, part.backend) {
            Some(backend) => verdict_on_user(backend, keys, part.hash, user),
            None => Verdict::BadBackend,
        },
        None => Verdict::NoAuth,
    }
}

/// The verdict on a session that was read, with the user whom it admits. Where the first key admits, the
/// user's hash is the one that was just compared, and isn't computed again.
pub fn judge(
    alloc: Global,
    part: Option<&AuthPart<'_>>,
    backends: &[Backend],
    user: Option<UserRow>,
    keys: &AuthKeys,
) -> Result<Judgement, AllocError>
    requires row { IsRowOf (login_of (option_copied part)) user }
    ensures verdict { IfOk result (λ found. found.verdict ≡ verdict_on_auth backends.now keys.now (login_of (option_copied part.entry)) user) }
    ensures user { IfOk result (λ found. found.user ≡ admitted_user found.verdict keys.now user) }
{
    let verdict = admit(part, backends, user.as_ref(), keys);
    match (verdict, part, user) {
        (Verdict::Admitted { key_index }, Some(part), Some(row)) => Ok(Judgement {
            verdict,
            user: Some(read_under(alloc, keys, key_index, part.hash, row)?),
        }),
        _ => Ok(Judgement {
            verdict,
            user: None,
        }),
    }
}

// The hash is that of the key at this index.
fn read_under(
    alloc: Global,
    keys: &AuthKeys,
    key_index: usize,
    hash: &str,
    row: UserRow,
) -> Result<UserRead, AllocError>
    requires { auth_hash row.password (key_at keys.now key_index) ≡ hash.now }
    ensures { IfOk result (λ read. read ≡ user_read keys.now row) }
{
    let auth_hash = if key_index == 0 {
        Text::of(alloc, hash)?
    } else {
        session_auth_text(alloc, row.password.as_str(), keys.keys().first())?
    };
    Ok(UserRead { row, auth_hash })
}

fn backend_of(backends: &[Backend], path: &str) -> Option<Backend>
    ensures { result ≡ backend_of backends.now path.now }
{
    for backend in backends {
        if backend.path() == path {
            return Some(*backend);
        }
    }
    None
}

fn verdict_on_user<K: AuthKeyList>(
    backend: Backend,
    keys: &K,
    hash: &str,
    user: Option<&UserRow>,
) -> Verdict
    ensures { result ≡ verdict_on_user backend (K.listed keys.now) hash.now (option_copied user.entry) }
{
    match user {
        Some(user) if admits(backend, user) => match keys.key_index(user.password.as_str(), hash) {
            Some(key_index) => Verdict::Admitted { key_index },
            None => Verdict::BadHash,
        },
        Some(_) => Verdict::Inactive,
        None => Verdict::NoUser,
    }
}

fn admits(backend: Backend, user: &UserRow) -> bool
    ensures { result ≡ admits backend user.now }
{
    match backend {
        Backend::Model => user.active,
        Backend::AllowAll => true,
    }
}
