use super::*;
use crypto_text::Bytes;
use serde_json::Value;
use signing_core::{Keys, dumps, json_read};
use std::alloc::Global;
use std::test::Fail;

// Texts here are those of Django's `signing.dumps` (JSON serializer with sorted keys, no compression),
// computed with Python's `hmac`, `hashlib`, `base64` and `json` alone.

const NOW: u64 = 1_700_000_000;

const BACKEND: &str = "django.contrib.auth.backends.ModelBackend";

const PAYLOAD: &str =
    "{\"_auth_user_backend\":\"django.contrib.auth.backends.ModelBackend\",\"_auth_user_hash\":\"5c\",\"_auth_user_id\":\"1\"}";

const STORED: &str =
    "eyJfYXV0aF91c2VyX2JhY2tlbmQiOiJkamFuZ28uY29udHJpYi5hdXRoLmJhY2tlbmRzLk1vZGVsQmFja2VuZCIsIl9hdXRoX3VzZXJfaGFzaCI6IjVjIiwiX2F1dGhfdXNlcl9pZCI6IjEifQ:1r31eq:KAAp62yBRrJgK3knc7J-QIO6ead4Xu7Qz34Ok13tv0g";

const COOKIE: &str =
    "eyJfYXV0aF91c2VyX2JhY2tlbmQiOiJkamFuZ28uY29udHJpYi5hdXRoLmJhY2tlbmRzLk1vZGVsQmFja2VuZCIsIl9hdXRoX3VzZXJfaGFzaCI6IjVjIiwiX2F1dGhfdXNlcl9pZCI6IjEifQ:1r31eq:SfEoWfcToWKb5z6HeAhl9IRIOIjfxIPjpf2iSHAkOUo";

fn one_key(alloc: Global) -> Result<Keys, Fail> {
    Ok(Keys::new(alloc, Bytes::of(alloc, b"k1")?, Vec::new(alloc))?)
}

#[test]
fn a_login_is_encoded_as_django_encodes_it(rt: HostRuntime) -> Result<(), Fail> {
    let alloc = rt.alloc();
    let keys = one_key(alloc)?;
    let map = SessionMap::of_auth(alloc, 1, BACKEND, "5c")?;
    assert_eq!(rt; payload(alloc, &map)?.as_str(), PAYLOAD);
    for (kind, text) in [(SessionKind::Stored, STORED), (SessionKind::Cookie, COOKIE)] {
        assert_eq!(rt; encode(alloc, &map, kind, &keys, NOW)?.as_str(), text);
        let decoded = decode(alloc, text, kind, &keys, NOW)?;
        assert_eq!(rt; payload(alloc, &decoded)?.as_str(), PAYLOAD);
    }
    let other = decode(alloc, STORED, SessionKind::Cookie, &keys, NOW);
    assert!(rt; other.err() == Some(DecodeFault::Corrupt));
    Ok(())
}

#[test]
fn a_cookie_is_read_for_two_weeks(rt: HostRuntime) -> Result<(), Fail> {
    let alloc = rt.alloc();
    let keys = one_key(alloc)?;
    let last = NOW + 1_209_600;
    assert!(rt; decode(alloc, COOKIE, SessionKind::Cookie, &keys, last).is_ok());
    let late = decode(alloc, COOKIE, SessionKind::Cookie, &keys, last + 1);
    assert!(rt; late.err() == Some(DecodeFault::Expired { age: 1_209_601 }));
    assert!(rt; decode(alloc, STORED, SessionKind::Stored, &keys, last + 1).is_ok());
    let list = json_read(alloc, b"[1]")?;
    let no_object = dumps(
        alloc,
        &list,
        "django.contrib.sessions.SessionStore",
        &keys,
        NOW,
    )?;
    for text in [no_object.as_str(), "", "{}", "e30:1r31eq:x"] {
        let refused = decode(alloc, text, SessionKind::Stored, &keys, NOW);
        assert!(rt; refused.err() == Some(DecodeFault::Corrupt), "{text}");
    }
    Ok(())
}

#[test]
fn a_login_needs_an_id_and_a_backend(rt: HostRuntime) -> Result<(), Fail> {
    let alloc = rt.alloc();
    for (text, user) in [
        (
            "{\"_auth_user_id\":\"7\",\"_auth_user_backend\":\"b\"}",
            Some(7),
        ),
        ("{\"_auth_user_id\":\"7\",\"_auth_user_hash\":\"h\"}", None),
        (
            "{\"_auth_user_backend\":\"b\",\"_auth_user_hash\":\"h\"}",
            None,
        ),
        ("{\"_auth_user_id\":7,\"_auth_user_backend\":\"b\"}", None),
        (
            "{\"_auth_user_id\":\"7\",\"_auth_user_backend\":null}",
            None,
        ),
        (
            "{\"_auth_user_id\":\"0\",\"_auth_user_backend\":\"b\"}",
            None,
        ),
        (
            "{\"_auth_user_id\":\"01\",\"_auth_user_backend\":\"b\"}",
            None,
        ),
        (
            "{\"_auth_user_id\":\"+1\",\"_auth_user_backend\":\"b\"}",
            None,
        ),
        (
            "{\"_auth_user_id\":\"18446744073709551615\",\"_auth_user_backend\":\"b\"}",
            Some(u64::MAX),
        ),
        (
            "{\"_auth_user_id\":\"18446744073709551616\",\"_auth_user_backend\":\"b\"}",
            None,
        ),
    ] {
        let map = from_payload(alloc, text)?;
        match map.auth_part() {
            Some(part) => {
                assert!(rt; Some(part.user) == user, "{text}");
                assert!(rt; part.backend == "b" && part.hash == "", "{text}");
            }
            None => assert!(rt; user.is_none(), "{text}"),
        }
    }
    let map = SessionMap::of_auth(alloc, 7, "b", "h")?;
    assert!(rt;
        map.auth_part()
            .is_some_and(|part| part.user == 7 && part.hash == "h")
    );
    Ok(())
}

#[test]
fn a_session_lasts_as_it_says(rt: HostRuntime) -> Result<(), Fail> {
    let alloc = rt.alloc();
    for (text, seconds, at_close) in [
        ("{}", 1_209_600, false),
        ("{\"_session_expiry\":0}", 1_209_600, true),
        ("{\"_session_expiry\":1}", 1, false),
        ("{\"_session_expiry\":3153600000}", 3_153_600_000, false),
        ("{\"_session_expiry\":3153600001}", 3_153_600_000, false),
        ("{\"_session_expiry\":-1}", 1_209_600, false),
        ("{\"_session_expiry\":\"60\"}", 1_209_600, false),
    ] {
        let expiry = from_payload(alloc, text)?.expiry();
        assert!(rt; expiry == Expiry { seconds, at_close }, "{text}");
    }
    for text in ["[]", "{", "{\"a\":1.5}"] {
        assert!(rt;
            from_payload(alloc, text).err() == Some(DecodeFault::Corrupt),
            "{text}"
        );
    }
    Ok(())
}

// A list in a list, so many times.
fn nested(alloc: Global, depth: usize) -> Result<Value, Fail> {
    let mut text = String::new(alloc);
    for _ in 0..depth {
        text.push('[')?;
    }
    for _ in 0..depth {
        text.push(']')?;
    }
    Ok(json_read(alloc, text.as_bytes())?)
}

#[test]
fn values_are_put_and_taken_away(rt: HostRuntime) -> Result<(), Fail> {
    let alloc = rt.alloc();
    let mut map = SessionMap::new(alloc);
    assert!(rt; map.is_empty());
    assert!(rt; !is_session_value(&nested(alloc, 100)?));
    for number in [1, 2] {
        let value = Value::from(number);
        assert!(rt; is_session_value(&value));
        map.set(alloc, "a", value)?;
    }
    let deep = nested(alloc, 99)?;
    assert!(rt; is_session_value(&deep));
    map.set(alloc, "b", deep)?;
    let mut copy = map.copy(alloc)?;
    assert!(rt; copy.get("a").and_then(Value::as_u64) == Some(2));
    copy.remove("b");
    assert_eq!(rt; payload(alloc, &copy)?.as_str(), "{\"a\":2}");
    assert!(rt; map.get("b").is_some());
    copy.clear();
    assert!(rt; copy.is_empty() && !map.is_empty());
    Ok(())
}
