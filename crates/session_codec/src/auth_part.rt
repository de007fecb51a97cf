//! Who is logged in, by a session map.

ghost use Rattle.std.specs.Prelude.{◌≡◌, [], IfOk, MatchOption, None, OnOk, Some, option_and_then, option_map, unwrap_or};
ghost use Rattle.crypto_text.specs.Numeral.{positive_of};
ghost use Rattle.serde_json.specs.Data.{put, string};
ghost use Rattle.session_codec.specs.SessionMap.{auth_members, auth_of, backend_name, hash_name, text_at, user_id_name};

use crate::session_map::SessionMap;
use crypto_text::positive_decode;
use serde_json::Value;
use std::alloc::{AllocError, Global};

const USER_ID_NAME: &str = "_auth_user_id";

const BACKEND_NAME: &str = "_auth_user_backend";

const HASH_NAME: &str = "_auth_user_hash";

/// A login: the user, the path of the backend that let them in, and the session hash of that moment,
/// empty where the map has none.
#[derive(Clone, Copy, Debug)]
pub struct AuthPart<'a> {
    pub user: u64,
    pub backend: &'a str,
    pub hash: &'a str,
}

impl SessionMap {
    /// The map of a login, as Django's `login` leaves a new session.
    pub fn of_auth(
        alloc: Global,
        user: u64,
        backend: &str,
        hash: &str,
    ) -> Result<SessionMap, AllocError>
        ensures { IfOk result (λ map. map ≡ auth_members user backend.now hash.now) }
    {
        let id = format!(in alloc; "{user}")?;
        let mut map = SessionMap::new(alloc);
        set_text(&mut map, alloc, USER_ID_NAME, id.as_str())?;
        set_text(&mut map, alloc, BACKEND_NAME, backend)?;
        set_text(&mut map, alloc, HASH_NAME, hash)?;
        Ok(map)
    }

    /// The login of the map: none where the id under `_auth_user_id` or the backend under
    /// `_auth_user_backend` is missing. Takes no memory.
    pub fn auth_part(&self) -> Option<AuthPart<'_>>
        ensures { MatchOption result (auth_of self.now ≡ None) (λ part. auth_of self.now ≡ Some (record { user = part.user; backend = part.backend.now; hash = part.hash.now })) }
    {
        match user_of(self) {
            Some(user) => part_of(self, user),
            None => None,
        }
    }
}

fn part_of(map: &SessionMap, user: u64) -> Option<AuthPart<'_>>
    requires { option_and_then positive_of (text_at user_id_name map.now) ≡ Some user }
    ensures { MatchOption result (auth_of map.now ≡ None) (λ part. auth_of map.now ≡ Some (record { user = part.user; backend = part.backend.now; hash = part.hash.now })) }
{
    match backend_of(map) {
        Some(backend) => {
            let hash = hash_of(map);
            Some(AuthPart {
                user,
                backend,
                hash,
            })
        }
        None => None,
    }
}

#[tactic(auto, unfolding(crate::specs::SessionMap::user_id_name))]
fn user_of(map: &SessionMap) -> Option<u64>
    ensures { result ≡ option_and_then positive_of (text_at user_id_name map.now) }
{
    match text_of(map, USER_ID_NAME) {
        Some(text) => positive_decode(text),
        None => None,
    }
}

#[tactic(auto, unfolding(crate::specs::SessionMap::backend_name))]
fn backend_of(map: &SessionMap) -> Option<&str>
    ensures { option_map (λ text. text.now) result ≡ text_at backend_name map.now }
{
    text_of(map, BACKEND_NAME)
}

#[tactic(auto, unfolding(crate::specs::SessionMap::hash_name))]
fn hash_of(map: &SessionMap) -> &str
    ensures { result.now ≡ unwrap_or (text_at hash_name map.now) [] }
{
    match text_of(map, HASH_NAME) {
        Some(text) => text,
        None => "",
    }
}

fn text_of<'a>(map: &'a SessionMap, name: &str) -> Option<&'a str>
    ensures { option_map (λ text. text.now) result ≡ text_at name.now map.now }
{
    match map.get(name) {
        Some(value) => value.as_str(),
        None => None,
    }
}

fn set_text(map: &mut SessionMap, alloc: Global, name: &str, text: &str) -> Result<(), AllocError>
    ensures { OnOk result (map.new ≡ put name.now (string text.now) map.old) }
{
    let text = Value::try_from_str(alloc, text)?;
    map.set(alloc, name, text)
}
