use super::*;
use crypto_text::{Text, TextList};
use std::test::Fail;

const SHA256: &str = "pbkdf2_sha256$1$salt$VawEblbjCJ/sFpHCJUS2BflBhSFt3gRl5oudV8INrLw=";

// A salt of 22 bytes, and one of 21.
const LONG_SALT: &str = "md5$abcdefghijklmnopqrstuv$c3fcd3d76192e4007dfb496cca67e13b";

const SHORT_SALT: &str = "md5$abcdefghijklmnopqrstu$c3fcd3d76192e4007dfb496cca67e13b";

#[test]
fn texts_are_django_s(rt: HostRuntime) -> Result<(), Fail> {
    for (hasher, password, salt, text) in [
        (
            Hasher::Pbkdf2Sha256 { iterations: 1 },
            "passwd",
            "salt",
            SHA256,
        ),
        (
            Hasher::Pbkdf2Sha1 { iterations: 1 },
            "password",
            "salt",
            "pbkdf2_sha1$1$salt$DGDID5YfDnHzqbUkr2ASBi/gN6Y=",
        ),
        (
            Hasher::Md5,
            "bc",
            "a",
            "md5$a$900150983cd24fb0d6963f7d28e17f72",
        ),
    ] {
        assert!(rt; is_usable(hasher), "{text}");
        assert!(rt; is_salt(salt), "{text}");
        let made = make(rt.alloc(), hasher, password, salt)?;
        assert_eq!(rt; made.as_str(), text);
    }
    Ok(())
}

#[test]
fn a_password_fits_where_its_algorithm_is_installed(rt: HostRuntime) {
    assert!(rt; verify("passwd", SHA256, &[Algo::Md5, Algo::Pbkdf2Sha256]));
    assert!(rt; !verify("passwd", SHA256, &[Algo::Md5]));
    assert!(rt; !verify("passwd", SHA256, &[]));
    assert!(rt; !verify("Passwd", SHA256, &[Algo::Pbkdf2Sha256]));
    assert!(rt; verify("wxyz", LONG_SALT, &[Algo::Md5]));
    assert!(rt; verify("vwxyz", SHORT_SALT, &[Algo::Md5]));
    assert!(rt; !verify("", "!", &[Algo::Md5]));
}

#[test]
fn texts_are_identified(rt: HostRuntime) {
    for (text, hasher) in [
        (SHA256, Ok(Hasher::Pbkdf2Sha256 { iterations: 1 })),
        (
            "pbkdf2_sha1$10000000$salt$DGDID5YfDnHzqbUkr2ASBi/gN6Y=",
            Ok(Hasher::Pbkdf2Sha1 {
                iterations: 10_000_000,
            }),
        ),
        (LONG_SALT, Ok(Hasher::Md5)),
        ("!", Err(HashFault::Unusable)),
        ("!md5$a$", Err(HashFault::Unusable)),
        ("", Err(HashFault::Unknown)),
        ("argon2$x", Err(HashFault::Unknown)),
        ("md5", Err(HashFault::Malformed)),
        ("md5$a$9", Err(HashFault::Malformed)),
        (
            "md5$$900150983cd24fb0d6963f7d28e17f72",
            Err(HashFault::Malformed),
        ),
        (
            "md5$a b$900150983cd24fb0d6963f7d28e17f72",
            Err(HashFault::Malformed),
        ),
        (
            "md5$a$900150983CD24fb0d6963f7d28e17f72",
            Err(HashFault::Malformed),
        ),
        (
            "pbkdf2_sha1$01$salt$DGDID5YfDnHzqbUkr2ASBi/gN6Y=",
            Err(HashFault::Malformed),
        ),
        (
            "pbkdf2_sha1$+1$salt$DGDID5YfDnHzqbUkr2ASBi/gN6Y=",
            Err(HashFault::Malformed),
        ),
        (
            "pbkdf2_sha1$10000001$salt$DGDID5YfDnHzqbUkr2ASBi/gN6Y=",
            Err(HashFault::Malformed),
        ),
        (
            "pbkdf2_sha1$1$salt$DGDID5YfDnHzqbUkr2ASBi/gN6Y",
            Err(HashFault::Malformed),
        ),
        (
            "pbkdf2_sha1$1$salt$DGDID5YfDnHzqbUkr2ASBi/gN6Z=",
            Err(HashFault::Malformed),
        ),
    ] {
        assert_eq!(rt; identify(text), hasher, "{text}");
    }
}

#[test]
fn texts_of_other_hashers_or_short_salts_are_outdated(rt: HostRuntime) {
    let sha256 = Hasher::Pbkdf2Sha256 {
        iterations: 600_000,
    };
    let kept =
        "pbkdf2_sha256$600000$abcdefghijklmnopqrstuv$VawEblbjCJ/sFpHCJUS2BflBhSFt3gRl5oudV8INrLw=";
    let fewer =
        "pbkdf2_sha256$599999$abcdefghijklmnopqrstuv$VawEblbjCJ/sFpHCJUS2BflBhSFt3gRl5oudV8INrLw=";
    let sha1 = Hasher::Pbkdf2Sha1 {
        iterations: 600_000,
    };
    for (text, preferred, outdated) in [
        (kept, sha256, false),
        (fewer, sha256, true),
        (kept, sha1, true),
        (LONG_SALT, Hasher::Md5, false),
        (SHORT_SALT, Hasher::Md5, true),
        ("!", Hasher::Md5, false),
    ] {
        assert_eq!(rt; must_update(text, preferred), outdated, "{text}");
    }
}

#[test]
fn weak_passwords_are_refused(rt: HostRuntime) -> Result<(), Fail> {
    let common = TextList::of(rt.alloc(), &[Text::of(rt.alloc(), "password1")?])?;
    for (password, answer) in [
        ("1234567", Err(Weak::TooShort)),
        ("éééé", Err(Weak::TooShort)),
        ("12345678", Err(Weak::AllDigits)),
        ("password1", Err(Weak::Common)),
        (" Password1 ", Err(Weak::Common)),
        ("password12", Ok(())),
    ] {
        assert_eq!(rt;
            validate(rt.alloc(), password, &common),
            answer,
            "{password}"
        );
    }
    Ok(())
}

#[test]
fn hashers_and_salts_can_be_asked_for(rt: HostRuntime) {
    assert!(rt; is_usable(Hasher::Pbkdf2Sha1 { iterations: 1 }));
    assert!(rt; !is_usable(Hasher::Pbkdf2Sha256 { iterations: 0 }));
    assert!(rt; is_usable(Hasher::Md5));
    assert!(rt; is_salt("~!"));
    assert!(rt; !is_salt(""));
    assert!(rt; !is_salt("a$b"));
}

#[test]
fn unusable_texts_fit_no_password(rt: HostRuntime) -> Result<(), Fail> {
    let text = make_unusable(rt.alloc(), &[0; 40])?;
    assert_eq!(rt; text.as_str(), "!aaaaaaaaaaaaaaaaaaaaaaaaaaaaaaaaaaaaaaaa");
    assert_eq!(rt; identify(text.as_str()), Err(HashFault::Unusable));
    assert!(rt; is_password_text(text.as_str()));
    assert!(rt; is_password_text(SHA256));
    assert!(rt; !is_password_text("!"));
    assert!(rt; !is_password_text("!aaaaaaaaaaaaaaaaaaaaaaaaaaaaaaaaaaaaaaa-"));
    assert!(rt; !is_password_text("md5$a$9"));
    Ok(())
}
