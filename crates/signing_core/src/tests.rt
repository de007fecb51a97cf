use super::*;
use crypto_text::Bytes;
use std::alloc::Global;
use std::test::Fail;

// Signed texts here are those of Django's `Signer`, `TimestampSigner`, `signing.dumps` (JSON
// serializer, no compression) and `get_cookie_signer`, computed with Python's `hmac`, `hashlib`,
// `base64` and `json` alone: the signature of a value is the base64url, without padding, of its
// HMAC-SHA-256 under SHA-256(salt + "signer" + key), the key with its prefix before it.

const NOW: u64 = 1_700_000_000;

const SALT: &str = "django.core.signing";

fn key_list(alloc: Global, first: &str, fallback: &str) -> Result<Keys, Fail> {
    let mut fallbacks = Vec::new(alloc);
    fallbacks.push(Bytes::of(alloc, fallback.as_bytes())?)?;
    let first = Bytes::of(alloc, first.as_bytes())?;
    Ok(Keys::new(alloc, first, fallbacks)?)
}

#[test]
fn a_signed_value_may_have_colons(rt: HostRuntime) -> Result<(), Fail> {
    let alloc = rt.alloc();
    let keys = key_list(alloc, "k0", "k1")?;
    let signer = Signer::new(&keys, "", SALT);
    let text = signer.sign(alloc, "a:b")?;
    assert_eq!(rt;
        text.as_str(),
        "a:b:9Smeco5i8eID3OaZuAL-Ngl3LgF4A94G6-9em58QIm4"
    );
    assert!(rt; signer.unsign(text.as_str()) == Ok("a:b"));
    assert!(rt; signer.unsign("abc") == Err(SignFault::NoSeparator));
    assert!(rt; signer.unsign("a:b") == Err(SignFault::BadSignature));
    Ok(())
}

#[test]
fn a_listed_key_is_read_and_the_first_key_signs(rt: HostRuntime) -> Result<(), Fail> {
    let alloc = rt.alloc();
    let old = key_list(alloc, "k0", "k1")?;
    let text = Signer::new(&old, "", SALT).sign(alloc, "a:b")?;
    let rotated = old.rotated(alloc, b"k2")?;
    let signer = Signer::new(&rotated, "", SALT);
    assert!(rt; signer.unsign(text.as_str()) == Ok("a:b"));
    assert!(rt; signer.sign(alloc, "a:b")? != text);
    let retired = rotated.retired(alloc)?;
    assert!(rt;
        Signer::new(&retired, "", SALT).unsign(text.as_str()) == Err(SignFault::BadSignature)
    );
    Ok(())
}

#[test]
fn a_timed_text_expires_beyond_its_age(rt: HostRuntime) -> Result<(), Fail> {
    let alloc = rt.alloc();
    let keys = key_list(alloc, "k0", "k1")?;
    let signer = Signer::new(&keys, "", SALT);
    let text = signer.sign_timed(alloc, "hello", NOW)?;
    assert_eq!(rt;
        text.as_str(),
        "hello:1r31eq:JNl3bSQPBx_g8qLSa3kcaxm9IRPt837t4a4VEUpWk4w"
    );
    let hello = Ok(("hello", NOW));
    assert!(rt; signer.unsign_timed(text.as_str(), NOW + 10, Some(10)) == hello);
    assert!(rt;
        signer.unsign_timed(text.as_str(), NOW + 11, Some(10))
            == Err(TimedFault::Expired { age: 11 })
    );
    assert!(rt; signer.unsign_timed(text.as_str(), NOW + 11, None) == hello);
    assert!(rt; signer.unsign_timed(text.as_str(), NOW - 1, Some(0)) == hello);
    let untimed = signer.sign(alloc, "x")?;
    assert!(rt; signer.unsign_timed(untimed.as_str(), NOW, None) == Err(TimedFault::BadTime));
    assert!(rt; signer.unsign_timed("hello", NOW, None) == Err(TimedFault::NoSeparator));
    assert!(rt; signer.unsign_timed("hello:1r31eq", NOW, None) == Err(TimedFault::BadSignature));
    Ok(())
}

#[test]
fn values_are_dumped_as_django_dumps_them(rt: HostRuntime) -> Result<(), Fail> {
    let alloc = rt.alloc();
    let keys = key_list(alloc, "k1", "k0")?;
    for (json, now, dumped) in [
        (
            "[1,-7,null,true,\"\u{1f600}\"]",
            0,
            "WzEsLTcsbnVsbCx0cnVlLCJcdWQ4M2RcdWRlMDAiXQ:0:_c8ooxIbHcS8SdV2uAKVNHOjBgWV40GjbRXQZ9HTX_M",
        ),
        // The base64url of {"a":1,"b":"\u00e9"}.
        (
            "{\"b\":\"é\",\"a\":1}",
            NOW,
            "eyJhIjoxLCJiIjoiXHUwMGU5In0:1r31eq:7LWksCanI70jjq81xKxxzjQ7luS43CNbrSZFL6lYJRg",
        ),
    ] {
        let value = json_read(alloc, json.as_bytes())?;
        let text = dumps(alloc, &value, SALT, &keys, now)?;
        assert_eq!(rt; text.as_str(), dumped);
        assert!(rt; loads(alloc, text.as_str(), SALT, &keys, NOW, None)? == value);
    }
    Ok(())
}

// Django orders members as they were put in: here in byte order too.
#[test]
fn a_session_of_django_is_loaded(rt: HostRuntime) -> Result<(), Fail> {
    let alloc = rt.alloc();
    let keys = key_list(alloc, "k1", "k0")?;
    let text =
        "eyJfYXV0aF91c2VyX2JhY2tlbmQiOiJkamFuZ28uY29udHJpYi5hdXRoLmJhY2tlbmRzLk1vZGVsQmFja2VuZCIsIl9hdXRoX3VzZXJfaWQiOiIxIiwidGhlbWUiOiJkdW5rZWwgXHUwMGU5In0:1r31eq:Ffkkl9M9KWEOBjFFOyb1lKdGTl0mzJyTJXqRPl06pOE";
    let salt = "django.contrib.sessions.SessionStore";
    let session = loads(alloc, text, salt, &keys, NOW, Some(0))?;
    let id = session.get("_auth_user_id").and_then(|id| id.as_str());
    assert!(rt; id == Some("1"));
    let first = keys.rotated(alloc, b"other")?;
    assert!(rt; loads(alloc, text, salt, &first, NOW, Some(0))? == session);
    Ok(())
}

#[test]
fn payloads_are_refused_by_what_is_wrong_with_them(rt: HostRuntime) -> Result<(), Fail> {
    let alloc = rt.alloc();
    let keys = key_list(alloc, "k0", "k1")?;
    let signer = Signer::new(&keys, "", SALT);
    for (payload, fault) in [
        (".eJx", LoadFault::Compressed),
        ("*", LoadFault::NotBase64),
        ("MR", LoadFault::NotBase64),
        ("eA", LoadFault::NotJson),
    ] {
        let text = signer.sign_timed(alloc, payload, NOW)?;
        assert!(rt;
            loads(alloc, text.as_str(), SALT, &keys, NOW, None).err() == Some(fault),
            "{payload}"
        );
    }
    let one = signer.sign_timed(alloc, "MQ", NOW)?;
    assert!(rt; loads(alloc, one.as_str(), SALT, &keys, NOW, None)?.as_u64() == Some(1));
    let late = loads(alloc, one.as_str(), SALT, &keys, NOW + 2, Some(1));
    assert!(rt; late.err() == Some(LoadFault::Timed(TimedFault::Expired { age: 2 })));
    Ok(())
}

#[test]
fn a_signed_cookie_is_read_under_its_own_name(rt: HostRuntime) -> Result<(), Fail> {
    let alloc = rt.alloc();
    let keys = key_list(alloc, "k0", "k1")?;
    let text = sign_cookie(alloc, "theme", "dark", "", &keys, NOW)?;
    assert_eq!(rt;
        text.as_str(),
        "dark:1r31eq:gmuHA7mD5IzXSmmdeyo7PXV1iT2zUWvuMmkFzEjjZ0o"
    );
    let cookie = text.as_str();
    assert!(rt; unsign_cookie(alloc, "theme", cookie, "", &keys, NOW + 5, Some(5)) == Ok("dark"));
    let other = unsign_cookie(alloc, "other", cookie, "", &keys, NOW, None);
    assert!(rt; other == Err(CookieFault::Timed(TimedFault::BadSignature)));
    let salted = sign_cookie(alloc, "theme", "dark", "extra", &keys, NOW)?;
    assert_eq!(rt;
        salted.as_str(),
        "dark:1r31eq:SUOlF1jNmLk429w-tNQvs4xF_KnklJcFNy185oKVuaE"
    );
    Ok(())
}

// Keys of one byte each, counted from `from`.
fn short_keys(alloc: Global, from: u8, to: u8) -> Result<Vec<Bytes>, Fail> {
    let mut keys = Vec::new(alloc);
    for byte in from..to {
        keys.push(Bytes::of(alloc, &[byte])?)?;
    }
    Ok(keys)
}

#[test]
fn key_lists_have_their_bounds(rt: HostRuntime) -> Result<(), Fail> {
    let alloc = rt.alloc();
    let sixteen = Keys::new(alloc, Bytes::of(alloc, b"0")?, short_keys(alloc, 1, 16)?)?;
    assert_eq!(rt; sixteen.len(), 16);
    assert!(rt; sixteen.rotated(alloc, b"new").err() == Some(RotateFault::TooMany));
    assert!(rt; sixteen.rotated(alloc, b"0").err() == Some(RotateFault::Held));
    assert!(rt; sixteen.rotated(alloc, b"").err() == Some(RotateFault::Length));
    let copy = sixteen.copy(alloc)?;
    for at in 0..copy.len() {
        let expected = if at == 0 { b'0' } else { at as u8 };
        assert_eq!(rt; copy.key(at), [expected].as_slice());
    }
    let retired = sixteen.retired(alloc)?;
    assert_eq!(rt; retired.len(), 1);
    assert_eq!(rt; retired.first(), b"0".as_slice());
    let seventeen = Keys::new(alloc, Bytes::of(alloc, b"0")?, short_keys(alloc, 1, 17)?);
    assert!(rt; seventeen.err() == Some(KeysFault::TooMany));
    let longest = [7; 1024];
    let longer = [7; 1025];
    let long = Keys::new(alloc, Bytes::of(alloc, &longest)?, Vec::new(alloc))?;
    assert_eq!(rt; long.first(), longest.as_slice());
    assert!(rt;
        Keys::new(alloc, Bytes::of(alloc, &longer)?, Vec::new(alloc)).err()
            == Some(KeysFault::Length { at: 0 })
    );
    assert!(rt; long.rotated(alloc, &longer).err() == Some(RotateFault::Length));
    let twice = Keys::new(alloc, Bytes::of(alloc, &[2])?, short_keys(alloc, 1, 4)?);
    assert!(rt; twice.err() == Some(KeysFault::Twice { at: 2 }));
    Ok(())
}
