//! The site whose store is measured.

ghost use Rattle.std.specs.Prelude.{IfOk};
ghost use Rattle.ledger_rows.specs.Opening.{IsOpening};
ghost use Rattle.ledger_rows.specs.Replies.{IsPayload};

use anyhow::{Result, bail};
use crypto_text::Text;
use ledger_rows::{Backend, Cfg, Opening, UserRow, session_auth_text};
use session_codec::{SessionMap, payload};
use signing_core::Keys;
use site_file::{SettingsAll, read_settings};
use std::alloc::{AllocError, Global};

const SETTINGS: &str =
    r#"{"keys":["k0"],"allowed_hosts":["example.com"],"hashers":["md5"],"opening":{"users":[{"id":1,"name":"alice","email":"alice@example.com","password":"md5$abcdefghijklmnopqrstuv$c3fcd3d76192e4007dfb496cca67e13b","active":true,"superuser":false,"groups":[],"perms":[]}],"groups":[],"perms":[],"sessions":[]}}"#;

/// What its store is opened with: one key and one user.
pub(crate) fn site(alloc: Global) -> Result<(Cfg, Opening)>
    ensures { IfOk result (λ site. IsOpening site.1) }
{
    let SettingsAll { settings, opening } = read_settings(alloc, SETTINGS.as_bytes())?;
    Ok((settings.cfg, opening))
}

/// The payload of a session in which its first user is logged in.
pub(crate) fn login_payload(alloc: Global, opening: &Opening) -> Result<Text>
    ensures { IfOk result IsPayload }
{
    match opening.users.items().first() {
        Some(user) => Ok(payload_of(alloc, user, &opening.keys)?),
        None => bail!("the site has no user"),
    }
}

fn payload_of(alloc: Global, user: &UserRow, keys: &Keys) -> Result<Text, AllocError>
    ensures { IfOk result IsPayload }
{
    let hash = session_auth_text(alloc, user.password.as_str(), keys.first())?;
    let map = SessionMap::of_auth(alloc, user.id, Backend::Model.path(), hash.as_str())?;
    payload(alloc, &map)
}
