//! The names that a login has in a session, as `django.contrib.auth` defines them.

ghost use Rattle.std.specs.Prelude.{◌≡◌};
ghost use Rattle.session_codec.specs.SessionMap.{backend_name, hash_name, user_id_name};

/// Django's SESSION_KEY.
#[tactic(auto, unfolding(session_codec::specs::SessionMap::user_id_name))]
pub(crate) fn user_id_name() -> &'static str
    ensures { result.now ≡ user_id_name }
{
    "_auth_user_id"
}

/// Django's BACKEND_SESSION_KEY.
#[tactic(auto, unfolding(session_codec::specs::SessionMap::backend_name))]
pub(crate) fn backend_name() -> &'static str
    ensures { result.now ≡ backend_name }
{
    "_auth_user_backend"
}

/// Django's HASH_SESSION_KEY.
#[tactic(auto, unfolding(session_codec::specs::SessionMap::hash_name))]
pub(crate) fn hash_name() -> &'static str
    ensures { result.now ≡ hash_name }
{
    "_auth_user_hash"
}
