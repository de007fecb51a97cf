use super::*;
use crate::moment::moment_text;
use crypto_text::{Bytes, is_moment};
use signing_core::Keys;
use std::alloc::Global;
use std::test::Fail;

// Tokens and texts here are computed with Python's `hmac`, `hashlib`, `base64` and `datetime`
// alone: every second hex digit of the HMAC-SHA-256 of the row's text and the number under
// SHA-256(salt + key).

const NOW: u64 = 1_700_000_000;

const PASSWORD: &str = "md5$abcdefghijklmnopqrstuv$c3fcd3d76192e4007dfb496cca67e13b";

const ALICE: ResetUser<'static> = ResetUser {
    id: 1,
    password: PASSWORD,
    last_login: Some(NOW),
    email: "alice@example.com",
};

const TOKEN: &str = "bxodq8-d724229790748b8521ce1883b7d970ac";

// The token of the key `k0`.
const FALLBACK_TOKEN: &str = "bxodq8-fb6cb118b3cd513a04501567fc442c17";

fn key_list(alloc: Global) -> Result<Keys, Fail> {
    let mut fallbacks = Vec::new(alloc);
    fallbacks.push(Bytes::of(alloc, b"k0")?)?;
    Ok(Keys::new(alloc, Bytes::of(alloc, b"k1")?, fallbacks)?)
}

#[test]
fn a_token_lives_three_days(rt: HostRuntime) -> Result<(), Fail> {
    let alloc = rt.alloc();
    let keys = key_list(alloc)?;
    let token = make_token(alloc, &ALICE, &keys, NOW)?;
    assert_eq!(rt; token.as_str(), TOKEN);
    for (now, answer) in [
        (NOW - 1, Ok(())),
        (NOW + 259_200, Ok(())),
        (NOW + 259_201, Err(ResetFault::Expired { age: 259_201 })),
    ] {
        assert!(rt; is_moment(now));
        assert!(rt;
            check_token(alloc, &ALICE, &keys, TOKEN, now) == answer,
            "{now}"
        );
    }
    Ok(())
}

#[test]
fn a_token_is_checked_in_order(rt: HostRuntime) -> Result<(), Fail> {
    let alloc = rt.alloc();
    let keys = key_list(alloc)?;
    for (token, answer) in [
        (TOKEN, Ok(())),
        (FALLBACK_TOKEN, Ok(())),
        (
            "0bxodq8-d724229790748b8521ce1883b7d970ac",
            Err(ResetFault::Mismatch),
        ),
        (
            "cwy9s-2c9201175556df0f55dee754f1f44a3f",
            Err(ResetFault::Expired { age: 700_000_000 }),
        ),
        ("cwy9s-2c92", Err(ResetFault::Mismatch)),
        ("abc", Err(ResetFault::Shape)),
        ("abc-1-2", Err(ResetFault::Shape)),
        ("-1", Err(ResetFault::Shape)),
        ("Abc-1", Err(ResetFault::Shape)),
        ("00000000000001-1", Err(ResetFault::Shape)),
    ] {
        assert!(rt;
            check_token(alloc, &ALICE, &keys, token, NOW) == answer,
            "{token}"
        );
    }
    Ok(())
}

#[test]
fn a_token_is_judged(rt: HostRuntime) -> Result<(), Fail> {
    let alloc = rt.alloc();
    let keys = key_list(alloc)?;
    for (token, now, verdict) in [
        (TOKEN, NOW - 1, ResetVerdict::Valid),
        (TOKEN, NOW + 259_200, ResetVerdict::Valid),
        (TOKEN, NOW + 259_201, ResetVerdict::Expired { age: 259_201 }),
        (FALLBACK_TOKEN, NOW, ResetVerdict::Valid),
        (
            "0bxodq8-d724229790748b8521ce1883b7d970ac",
            NOW,
            ResetVerdict::Mismatch,
        ),
        ("cwy9s-2c92", NOW, ResetVerdict::Mismatch),
        ("abc", NOW, ResetVerdict::Shape),
        ("abc-1-2", NOW, ResetVerdict::Shape),
        ("00000000000001-1", NOW, ResetVerdict::Shape),
    ] {
        assert!(rt; is_moment(now));
        assert!(rt;
            judge_token(alloc, &ALICE, &keys, token, now) == Ok(verdict),
            "{token} {now}"
        );
    }
    Ok(())
}

#[test]
fn a_token_of_another_row_is_refused(rt: HostRuntime) -> Result<(), Fail> {
    let alloc = rt.alloc();
    let keys = key_list(alloc)?;
    for (id, password, last_login, email) in [
        (1, "!", Some(NOW), "alice@example.com"),
        (1, PASSWORD, Some(NOW + 1), "alice@example.com"),
        (1, PASSWORD, None, "alice@example.com"),
        (2, PASSWORD, Some(NOW), "alice@example.com"),
        (1, PASSWORD, Some(NOW), "alice@example.org"),
    ] {
        let user = ResetUser {
            id,
            password,
            last_login,
            email,
        };
        assert!(rt; last_login.is_none_or(|moment| is_moment(moment)));
        let answer = check_token(alloc, &user, &keys, TOKEN, NOW);
        assert!(rt;
            answer == Err(ResetFault::Mismatch),
            "{id} {password} {email}"
        );
    }
    Ok(())
}

// Logins are counted in whole seconds: a second one within the second of the last leaves the row as it was.
#[test]
fn a_token_outlives_a_login_within_the_same_second(rt: HostRuntime) -> Result<(), Fail> {
    let alloc = rt.alloc();
    let keys = key_list(alloc)?;
    for (last_login, answer) in [(NOW, Ok(())), (NOW + 1, Err(ResetFault::Mismatch))] {
        let again = ResetUser {
            last_login: Some(last_login),
            ..ALICE
        };
        assert!(rt; is_moment(last_login));
        assert!(rt; check_token(alloc, &again, &keys, TOKEN, NOW + 1) == answer);
    }
    Ok(())
}

#[test]
fn a_first_login_counts_from_nothing(rt: HostRuntime) -> Result<(), Fail> {
    let alloc = rt.alloc();
    let keys = key_list(alloc)?;
    let user = ResetUser {
        last_login: None,
        ..ALICE
    };
    let token = make_token(alloc, &user, &keys, NOW)?;
    assert_eq!(rt; token.as_str(), "bxodq8-3efb9e5ed1963568ede74e96ab6e5e47");
    Ok(())
}

#[test]
fn a_login_is_written_in_utc(rt: HostRuntime) -> Result<(), Fail> {
    for (moment, text) in [
        (1_000_000_000, "2001-09-09 01:46:40"),
        (1_700_000_000, "2023-11-14 22:13:20"),
        (1_709_164_800, "2024-02-29 00:00:00"),
        (250_000_000_000, "9892-03-08 12:26:40"),
    ] {
        assert!(rt; is_moment(moment));
        assert_eq!(rt; moment_text(rt.alloc(), moment)?.as_str(), text);
    }
    assert!(rt; !is_moment(999_999_999));
    assert!(rt; !is_moment(250_000_000_001));
    Ok(())
}

#[test]
fn ids_of_links_are_read_back(rt: HostRuntime) -> Result<(), Fail> {
    for (id, text) in [
        (1, "MQ"),
        (1_234, "MTIzNA"),
        (u64::MAX, "MTg0NDY3NDQwNzM3MDk1NTE2MTU"),
    ] {
        assert_eq!(rt; uid_text(rt.alloc(), id)?.as_str(), text);
        assert_eq!(rt; uid_read(text), Some(id));
    }
    // The digits 0, 01, +1, 18446744073709551616 and no digit; and what is no base64url.
    for text in [
        "MA",
        "MDE",
        "KzE",
        "MTg0NDY3NDQwNzM3MDk1NTE2MTY",
        "",
        "MR",
        "M",
    ] {
        assert_eq!(rt; uid_read(text), None, "{text}");
    }
    Ok(())
}
