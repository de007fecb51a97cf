//! What a login, a logout and a new password do to a request's session.

ghost use Rattle.std.specs.Prelude.{◌≡◌, IfOk, OnErr, OnOk, option_map};
ghost use Rattle.serde_json.specs.Data.{put, string};
ghost use Rattle.session_codec.specs.SessionMap.{text_at, user_id_name};
ghost use Rattle.ledger_rows.specs.Backends.{path_of};
ghost use Rattle.auth_backends.specs.SessionBox.{flushed, has_user, is_id, is_login, kept_hash, kept_map, login_changed, rehashed, with_names};

use crate::login_names::{backend_name, hash_name, user_id_name};
use crate::session_box::SessionBox;
use crypto_text::same;
use ledger_rows::{Backend, UserRead};
use serde_json::Value;
use session_codec::SessionMap;
use std::alloc::{AllocError, Global};

/// Logs a user in, as Django's `login`. A session of another user, or of another hash, is ended first, so that
/// nobody sees another's entries; one of nobody gets a new key, so that a key from before the login is of no
/// use after it.
pub fn login_change(
    session: &mut SessionBox,
    alloc: Global,
    read: &UserRead,
    backend: Backend,
) -> Result<(), AllocError>
    ensures ok { OnOk result (session.new ≡ login_changed read.now backend session.old) }
    ensures err { OnErr result (session.new ≡ session.old) }
{
    let id = format!(in alloc; "{}", read.row.id)?;
    let anonymous = !has_user(&session.map);
    let kept = anonymous || is_login(&session.map, id.as_str(), read.auth_hash.as_str());
    // All memory is taken before the session is changed.
    let mut map = kept_map(&session.map, alloc, kept)?;
    put_login(
        &mut map,
        alloc,
        id.as_str(),
        read.auth_hash.as_str(),
        backend,
    )?;
    if !kept {
        session.flush();
    }
    session.map = map;
    session.cycle |= anonymous;
    session.modified = true;
    Ok(())
}

/// Logs out whoever is logged in, as Django's `logout`: all entries go, whoever wrote them. Takes no memory.
pub fn logout_change(session: &mut SessionBox)
    ensures { session.new ≡ flushed session.old }
{
    session.flush();
}

/// Writes a new hash into the user's own session and asks for a new key, as Django's `update_session_auth_hash`,
/// so that a user who changes the password stays logged in.
pub fn rehash_change(
    session: &mut SessionBox,
    alloc: Global,
    auth_hash: &str,
) -> Result<(), AllocError>
    ensures ok { OnOk result (session.new ≡ rehashed auth_hash.now session.old) }
    ensures err { OnErr result (session.new ≡ session.old) }
{
    set_text(&mut session.map, alloc, hash_name(), auth_hash)?;
    session.cycle = true;
    session.modified = true;
    Ok(())
}

fn has_user(map: &SessionMap) -> bool
    ensures { result ≡ has_user map.now }
{
    map.get(user_id_name()).is_some()
}

fn is_login(map: &SessionMap, id: &str, hash: &str) -> bool
    ensures { result ≡ is_login id.now hash.now map.now }
{
    is_user(map, id) && same(kept_hash(map).as_bytes(), hash.as_bytes())
}

fn is_user(map: &SessionMap, id: &str) -> bool
    ensures { result ≡ is_id id.now (text_at user_id_name map.now) }
{
    match text_of(map, user_id_name()) {
        Some(text) => text == id,
        None => false,
    }
}

fn kept_hash(map: &SessionMap) -> &str
    ensures { result.now ≡ kept_hash map.now }
{
    match text_of(map, hash_name()) {
        Some(text) => text,
        None => "",
    }
}

fn text_of<'a>(map: &'a SessionMap, name: &str) -> Option<&'a str>
    ensures { option_map (λ text. text.now) result ≡ text_at name.now map.now }
{
    match map.get(name) {
        Some(value) => value.as_str(),
        None => None,
    }
}

fn kept_map(map: &SessionMap, alloc: Global, kept: bool) -> Result<SessionMap, AllocError>
    ensures { IfOk result (λ copy. copy ≡ kept_map kept map.now) }
{
    if kept {
        map.copy(alloc)
    } else {
        Ok(SessionMap::new(alloc))
    }
}

fn put_login(
    map: &mut SessionMap,
    alloc: Global,
    id: &str,
    hash: &str,
    backend: Backend,
) -> Result<(), AllocError>
    ensures { OnOk result (map.new ≡ with_names id.now (path_of backend) hash.now map.old) }
{
    set_text(map, alloc, user_id_name(), id)?;
    set_text(map, alloc, backend_name(), backend.path())?;
    set_text(map, alloc, hash_name(), hash)
}

fn set_text(map: &mut SessionMap, alloc: Global, name: &str, text: &str) -> Result<(), AllocError>
    ensures ok { OnOk result (map.new ≡ put name.now (string text.now) map.old) }
    ensures err { OnErr result (map.new ≡ map.old) }
{
    let text = Value::try_from_str(alloc, text)?;
    map.set(alloc, name, text)
}
