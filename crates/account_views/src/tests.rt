mod login;
mod password_change;

ghost use Rattle.std.specs.Prelude.{IfOk};
ghost use Rattle.pass_hashers.specs.PasswordText.{IsUsable};

use crypto_text::{Ids, Text, TextList};
use ledger_rows::{Backend, Cfg, Engine, RowList, UserRead, UserRow};
use middleware_chain::Settings;
use pass_hashers::{Algo, Hasher};
use std::alloc::{AllocError, Global};

const NOW: u64 = 1_700_000_000;

// Without a clause, so that no proof spells out what a text of the tests says.
fn text_of(alloc: Global, text: &str) -> Result<Text, AllocError> {
    Text::of(alloc, text)
}

/// Of a site whose one host is `example.com`.
fn settings_of(alloc: Global) -> Result<Settings, AllocError>
    ensures { IfOk result (λ settings. IsUsable settings.cfg.preferred) }
{
    let hosts = [text_of(alloc, "example.com")?];
    Ok(Settings {
        cfg: Cfg {
            engine: Engine::Db,
            backends: RowList::from_vec(vec![in alloc; Backend::Model]?),
            installed: RowList::from_vec(vec![in alloc; Algo::Md5]?),
            preferred: Hasher::Md5,
        },
        allowed: TextList::of(alloc, &hosts)?,
        trusted: RowList::from_vec(Vec::new(alloc)),
        proxy_secure: false,
        cookie_secure: false,
        common: TextList::from_vec(Vec::new(alloc)),
    })
}

fn alice(alloc: Global) -> Result<UserRead, AllocError> {
    let row = UserRow {
        id: 1,
        name: text_of(alloc, "alice")?,
        email: text_of(alloc, "alice@example.com")?,
        password: text_of(alloc, "!")?,
        active: true,
        superuser: false,
        last_login: None,
        groups: Ids::from_vec(Vec::new(alloc)),
        perms: Ids::from_vec(Vec::new(alloc)),
    };
    let auth_hash = text_of(alloc, "h")?;
    Ok(UserRead { row, auth_hash })
}
