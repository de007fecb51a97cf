use super::*;
use crypto_text::{Ids, Text};
use ledger_rows::{Backend, Cfg, Engine, RowList, UserRead, UserRow};
use pass_hashers::{Algo, Hasher};
use session_codec::{from_payload, payload};
use std::alloc::{AllocError, Global};
use std::test::Fail;

// The text of `wxyz` by Django's `MD5PasswordHasher`.
const PASSWORD: &str = "md5$abcdefghijklmnopqrstuv$c3fcd3d76192e4007dfb496cca67e13b";

const NONE: &[Backend] = &[];

const MODEL: &[Backend] = &[Backend::Model];

const ALL: &[Backend] = &[Backend::AllowAll];

const MODEL_FIRST: &[Backend] = &[Backend::Model, Backend::AllowAll];

const ALL_FIRST: &[Backend] = &[Backend::AllowAll, Backend::Model];

fn alice(alloc: Global, active: bool) -> Result<UserRow, AllocError> {
    Ok(UserRow {
        id: 1,
        name: Text::of(alloc, "alice")?,
        email: Text::of(alloc, "alice@example.com")?,
        password: Text::of(alloc, PASSWORD)?,
        active,
        superuser: false,
        last_login: None,
        groups: Ids::of(alloc, &[])?,
        perms: Ids::of(alloc, &[])?,
    })
}

fn site(alloc: Global, backends: &[Backend], preferred: Hasher) -> Result<Cfg, AllocError> {
    let mut list = Vec::new(alloc);
    for backend in backends {
        list.push(*backend)?;
    }
    let mut installed = Vec::new(alloc);
    installed.push(Algo::Md5)?;
    Ok(Cfg {
        engine: Engine::Db,
        backends: RowList::from_vec(list),
        installed: RowList::from_vec(installed),
        preferred,
    })
}

fn yes(backend: Backend) -> AuthAnswer {
    AuthAnswer::Yes {
        backend,
        upgrade: false,
    }
}

#[test]
fn the_first_backend_that_admits_answers(rt: HostRuntime) -> Result<(), Fail> {
    let alloc = rt.alloc();
    for (backends, active, password, answer) in [
        (NONE, true, "wxyz", AuthAnswer::Refused),
        (MODEL, true, "wxyz", yes(Backend::Model)),
        (MODEL, true, "wxy", AuthAnswer::WrongPassword),
        (MODEL, false, "wxyz", AuthAnswer::Refused),
        (MODEL, false, "wxy", AuthAnswer::Refused),
        (ALL, false, "wxyz", yes(Backend::AllowAll)),
        (ALL, false, "", AuthAnswer::WrongPassword),
        (MODEL_FIRST, true, "wxyz", yes(Backend::Model)),
        (MODEL_FIRST, false, "wxyz", yes(Backend::AllowAll)),
        (ALL_FIRST, true, "wxyz", yes(Backend::AllowAll)),
    ] {
        let row = alice(alloc, active)?;
        let cfg = site(alloc, backends, Hasher::Md5)?;
        assert_eq!(rt;
            authenticate(Some(&row), password, &cfg),
            answer,
            "{backends:?} {active}"
        );
        assert_eq!(rt;
            authenticate(None, password, &cfg),
            AuthAnswer::Refused,
            "{backends:?}"
        );
    }
    Ok(())
}

#[test]
fn an_outdated_text_is_to_be_upgraded(rt: HostRuntime) -> Result<(), Fail> {
    let alloc = rt.alloc();
    let row = alice(alloc, true)?;
    let cfg = site(alloc, MODEL, Hasher::Pbkdf2Sha256 { iterations: 1 })?;
    let answer = AuthAnswer::Yes {
        backend: Backend::Model,
        upgrade: true,
    };
    assert_eq!(rt; authenticate(Some(&row), "wxyz", &cfg), answer);
    Ok(())
}

const KEY: &str = "s1s1s1s1s1s1s1s1s1s1s1s1s1s1s1s1";

const THEME: &str = "{\"theme\":\"dark\"}";

// Logged in by another backend, as user 1 with the hash `5c`.
const LOGGED_IN: &str =
    "{\"_auth_user_backend\":\"b\",\"_auth_user_hash\":\"5c\",\"_auth_user_id\":\"1\",\"theme\":\"dark\"}";

const OTHER_USER: &str =
    "{\"_auth_user_backend\":\"b\",\"_auth_user_hash\":\"5c\",\"_auth_user_id\":\"2\",\"theme\":\"dark\"}";

const OTHER_HASH: &str =
    "{\"_auth_user_backend\":\"b\",\"_auth_user_hash\":\"5d\",\"_auth_user_id\":\"1\",\"theme\":\"dark\"}";

const NO_HASH: &str = "{\"_auth_user_backend\":\"b\",\"_auth_user_id\":\"1\",\"theme\":\"dark\"}";

const ID_IS_NO_TEXT: &str =
    "{\"_auth_user_backend\":\"b\",\"_auth_user_hash\":\"5c\",\"_auth_user_id\":1,\"theme\":\"dark\"}";

const NEW: &str =
    "{\"_auth_user_backend\":\"django.contrib.auth.backends.ModelBackend\",\"_auth_user_hash\":\"5c\",\"_auth_user_id\":\"1\"}";

const KEPT: &str =
    "{\"_auth_user_backend\":\"django.contrib.auth.backends.ModelBackend\",\"_auth_user_hash\":\"5c\",\"_auth_user_id\":\"1\",\"theme\":\"dark\"}";

const REHASHED: &str =
    "{\"_auth_user_backend\":\"b\",\"_auth_user_hash\":\"5e\",\"_auth_user_id\":\"1\",\"theme\":\"dark\"}";

fn stored(alloc: Global, map: &str) -> Result<SessionBox, Fail> {
    Ok(SessionBox {
        came: true,
        key: Some(Text::of(alloc, KEY)?),
        map: from_payload(alloc, map)?,
        dropped: None,
        cycle: false,
        accessed: true,
        modified: false,
    })
}

fn is_key(key: &Option<Text>) -> bool {
    match key {
        Some(key) => key.as_str() == KEY,
        None => false,
    }
}

#[test]
fn a_login_keeps_the_entries_of_its_user_alone(rt: HostRuntime) -> Result<(), Fail> {
    let alloc = rt.alloc();
    let read = UserRead {
        row: alice(alloc, true)?,
        auth_hash: Text::of(alloc, "5c")?,
    };
    for (found, left, kept, cycle) in [
        (THEME, KEPT, true, true),
        (LOGGED_IN, KEPT, true, false),
        (OTHER_USER, NEW, false, false),
        (OTHER_HASH, NEW, false, false),
        (NO_HASH, NEW, false, false),
        (ID_IS_NO_TEXT, NEW, false, false),
    ] {
        let mut session = stored(alloc, found)?;
        login_change(&mut session, alloc, &read, Backend::Model)?;
        assert_eq!(rt; payload(alloc, &session.map)?.as_str(), left, "{found}");
        assert_eq!(rt; is_key(&session.key), kept, "{found}");
        assert_eq!(rt; is_key(&session.dropped), !kept, "{found}");
        assert_eq!(rt; session.cycle, cycle, "{found}");
        assert!(rt; session.modified, "{found}");
    }
    Ok(())
}

#[test]
fn a_new_hash_is_stored_under_a_new_key(rt: HostRuntime) -> Result<(), Fail> {
    let alloc = rt.alloc();
    let mut session = stored(alloc, LOGGED_IN)?;
    rehash_change(&mut session, alloc, "5e")?;
    assert_eq!(rt; payload(alloc, &session.map)?.as_str(), REHASHED);
    assert!(rt; session.cycle && session.modified && is_key(&session.key));
    Ok(())
}

#[test]
fn a_logout_leaves_an_empty_session(rt: HostRuntime) -> Result<(), Fail> {
    let alloc = rt.alloc();
    let mut session = stored(alloc, LOGGED_IN)?;
    logout_change(&mut session);
    assert!(rt; session.map.is_empty() && session.key.is_none() && session.modified);
    assert!(rt; is_key(&session.dropped));
    // Once more: the key to delete stays.
    logout_change(&mut session);
    assert!(rt; is_key(&session.dropped));
    Ok(())
}
