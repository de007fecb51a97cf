use super::*;
use crypto_text::{Text, TextList};
use std::alloc::{AllocError, Global};
use std::test::Fail;

// `9` counts as 61 and `b` as 1, so their sum is 62, which comes round to `a`.
const SECRET: &str = "99999999999999999999999999999999";

const MASK: &str = "bbbbbbbbbbbbbbbbbbbbbbbbbbbbbbbb";

const TOKEN: &str = "bbbbbbbbbbbbbbbbbbbbbbbbbbbbbbbbaaaaaaaaaaaaaaaaaaaaaaaaaaaaaaaa";

#[test]
fn a_token_carries_its_secret(rt: HostRuntime) {
    match (format_of(SECRET), format_of(MASK), format_of(TOKEN)) {
        (Ok(Form::Bare(secret)), Ok(Form::Bare(pad)), Ok(sent)) => {
            let token = mask(&secret, &pad);
            assert_eq!(rt; token.as_slice(), TOKEN.as_bytes());
            assert_eq!(rt; unmask(&token), secret);
            assert_eq!(rt; secret_of(&sent), secret);
            assert!(rt; matches(&sent, &secret));
            assert!(rt; !matches(&sent, &pad));
        }
        _ => panic!(rt; "two secrets and a token are read"),
    }
}

#[test]
fn a_length_is_refused_before_a_character(rt: HostRuntime) {
    let long = "-aaaaaaaaaaaaaaaaaaaaaaaaaaaaaaaaaaaaaaaaaaaaaaaaaaaaaaaaaaaaaaa";
    for (text, fault) in [
        ("", Some(TokenFault::Length)),
        (&long[1..], Some(TokenFault::Length)),
        (long, Some(TokenFault::Characters)),
        (&long[..32], Some(TokenFault::Characters)),
        (
            "éaaaaaaaaaaaaaaaaaaaaaaaaaaaaaa",
            Some(TokenFault::Characters),
        ),
        (
            "aaaaaaaaaaaaaaaaaaaaaaaaaaaaaaa\n",
            Some(TokenFault::Characters),
        ),
        (
            "aaaaaaaaaaaaaaaaaaaaaaaaaaaaaaaaa",
            Some(TokenFault::Length),
        ),
        (SECRET, None),
        (TOKEN, None),
    ] {
        assert_eq!(rt; format_of(text).err(), fault, "{text}");
    }
}

#[test]
fn hosts_are_split(rt: HostRuntime) {
    for (host, parts) in [
        ("example.com", Some(("example.com", ""))),
        ("EXAMPLE.com.:8000", Some(("EXAMPLE.com", "8000"))),
        ("example.com..", Some(("example.com.", ""))),
        (".", Some(("", ""))),
        ("[::1]", Some(("[::1]", ""))),
        ("[2001:DB8::1]:443", Some(("[2001:DB8::1]", "443"))),
        ("[:.]", Some(("[:.]", ""))),
        ("", None),
        (":80", None),
        ("example.com:", None),
        ("example.com:80a", None),
        ("example.com:+80", None),
        ("example.com:80:80", None),
        ("exa mple.com", None),
        ("example.com\n", None),
        ("example.com\u{0}", None),
        ("exämple.com", None),
        ("user@example.com", None),
        ("[]", None),
        ("[1]", None),
        ("[:]", None),
        ("[::1", None),
        ("[::1].", None),
        ("[::1]:", None),
        ("[::g]", None),
        ("[::]]", None),
        ("::1", None),
    ] {
        let found = split_host(host).map(|found| (found.domain, found.port));
        assert_eq!(rt; found, parts, "{host}");
    }
}

#[test]
fn patterns_have_domains(rt: HostRuntime) {
    for (host, pattern, fits) in [
        ("example.com", "example.com", true),
        ("EXAMPLE.com", "example.COM", true),
        ("a.example.com", "example.com", false),
        ("example.com", ".example.com", true),
        ("a.b.EXAMPLE.com", ".Example.com", true),
        ("badexample.com", ".example.com", false),
        ("com", ".example.com", false),
        ("example.com", "", false),
        ("", "", false),
        ("", ".", true),
        ("example.com.", ".", true),
        ("\u{212A}", "k", false),
    ] {
        assert_eq!(rt; is_same_domain(host, pattern), fits, "{host} {pattern}");
    }
}

#[test]
fn hosts_are_allowed_whatever_their_port(rt: HostRuntime) -> Result<(), Fail> {
    let alloc = rt.alloc();
    for (host, allowed, answer) in [
        ("EXAMPLE.com.:8000", "example.com", true),
        ("evil.com", "example.com", false),
        ("", "example.com", false),
        ("example.com:", "example.com", false),
        ("exa mple.com", "*", false),
        ("example.com", ".example.com", true),
        ("a.example.com", ".example.com", true),
        ("anything.org:1", "*", true),
        (".", "*", false),
        ("[::1]:80", "[::1]", true),
        ("example.com:80", "example.com:80", false),
    ] {
        let none = Text::of(alloc, "")?;
        let list = TextList::of(alloc, &[none, Text::of(alloc, allowed)?])?;
        assert_eq!(rt; host_allowed(host, &list), answer, "{host} {allowed}");
    }
    Ok(())
}

#[test]
fn urls_are_cut(rt: HostRuntime) {
    for (url, parts) in [
        ("https://example.com", Some(("https", "example.com"))),
        (
            "https://example.com:443/a?b#c",
            Some(("https", "example.com:443")),
        ),
        ("h2+x-1.0://a?b://c", Some(("h2+x-1.0", "a"))),
        ("HTTPS://Example.com#/", Some(("HTTPS", "Example.com"))),
        ("http://a b", Some(("http", "a b"))),
        ("", None),
        ("null", None),
        ("https:", None),
        ("https:/example.com", None),
        ("https:///path", None),
        ("https://?", None),
        ("//example.com", None),
        ("://example.com", None),
        ("2http://example.com", None),
        ("ht tp://example.com", None),
        ("a:b://example.com", None),
    ] {
        let found = url_parts(url).map(|found| (found.scheme, found.netloc));
        assert_eq!(rt; found, parts, "{url}");
    }
}

fn trusted(alloc: Global) -> Result<[Trusted; 2], AllocError> {
    Ok([
        Trusted {
            scheme: Text::of(alloc, "https")?,
            netloc: Text::of(alloc, ".example.org")?,
            wild: true,
        },
        Trusted {
            scheme: Text::of(alloc, "http")?,
            netloc: Text::of(alloc, "localhost:8000")?,
            wild: false,
        },
    ])
}

const NONE: &str = "none";

fn given(text: &str) -> Option<&str> {
    if text == NONE { None } else { Some(text) }
}

// The verdict on a request without a cookie.
fn source_verdict<'a>(
    trusted: &'a [Trusted],
    secure: bool,
    origin: &'a str,
    referer: &'a str,
) -> Result<(), CsrfReason> {
    check(&CsrfView {
        safe: false,
        secure,
        host: "example.com",
        origin: given(origin),
        referer: given(referer),
        cookie: None,
        field: "",
        header: None,
        trusted,
    })
}

#[test]
fn origins_and_referers_are_looked_at_first(rt: HostRuntime) -> Result<(), Fail> {
    let trusted = trusted(rt.alloc())?;
    let passes = Err(CsrfReason::NoCookie);
    let bad_origin = Err(CsrfReason::BadOrigin);
    let bad_referer = Err(CsrfReason::BadReferer);
    let insecure = Err(CsrfReason::InsecureReferer);
    let malformed = Err(CsrfReason::MalformedReferer);
    for (secure, origin, referer, answer) in [
        (true, NONE, NONE, Err(CsrfReason::NoReferer)),
        (true, NONE, "http://example.com/", insecure),
        (true, NONE, "HTTPS://example.com/", insecure),
        (true, NONE, "https://a.example.org/x", passes),
        (true, NONE, "https://localhost:8000/", passes),
        (true, NONE, "https://EXAMPLE.com", passes),
        (true, NONE, "https://example.com:443/", bad_referer),
        (true, NONE, "https://evilexample.org/", bad_referer),
        (true, NONE, "example.com", malformed),
        (true, NONE, "", malformed),
        (false, NONE, NONE, passes),
        (false, NONE, "https://evil.com/", passes),
        (true, "https://example.com", NONE, passes),
        (true, "http://example.com", NONE, bad_origin),
        (false, "http://example.com", NONE, passes),
        (false, "https://example.com", NONE, bad_origin),
        (true, "https://EXAMPLE.com", NONE, bad_origin),
        (true, "https://a.example.org", NONE, passes),
        (true, "https://example.org", NONE, passes),
        (true, "https://evilexample.org", NONE, bad_origin),
        (true, "http://a.example.org", NONE, bad_origin),
        (true, "http://localhost:8000", NONE, passes),
        (true, "http://localhost:8000/", NONE, bad_origin),
        (true, "null", "https://example.com/", bad_origin),
        (true, "", NONE, bad_origin),
    ] {
        let found = source_verdict(trusted.as_slice(), secure, origin, referer);
        assert_eq!(rt; found, answer, "{origin} {referer}");
    }
    Ok(())
}

// The verdict on an insecure request without an origin.
fn token_verdict<'a>(
    safe: bool,
    cookie: Option<&'a str>,
    field: &'a str,
    header: Option<&'a str>,
) -> Result<(), CsrfReason> {
    check(&CsrfView {
        safe,
        secure: false,
        host: "example.com",
        origin: None,
        referer: None,
        cookie,
        field,
        header,
        trusted: &[],
    })
}

#[test]
fn tokens_are_compared_last(rt: HostRuntime) {
    let long = "-bbbbbbbbbbbbbbbbbbbbbbbbbbbbbbb";
    for (cookie, field, header, answer) in [
        (None, SECRET, None, Err(CsrfReason::NoCookie)),
        (Some(""), SECRET, None, Err(CsrfReason::CookieLength)),
        (Some(long), "", None, Err(CsrfReason::CookieCharacters)),
        (Some(SECRET), "", None, Err(CsrfReason::TokenMissing)),
        (Some(SECRET), "", Some(""), Err(CsrfReason::TokenLength)),
        (Some(SECRET), "a", Some(TOKEN), Err(CsrfReason::TokenLength)),
        (Some(SECRET), long, None, Err(CsrfReason::TokenCharacters)),
        (
            Some(SECRET),
            MASK,
            Some(TOKEN),
            Err(CsrfReason::TokenIncorrect),
        ),
        (Some(SECRET), TOKEN, None, Ok(())),
        (Some(SECRET), "", Some(TOKEN), Ok(())),
        (Some(TOKEN), SECRET, None, Ok(())),
        (Some(TOKEN), TOKEN, Some("-"), Ok(())),
    ] {
        let found = token_verdict(false, cookie, field, header);
        assert_eq!(rt; found, answer, "{cookie:?} {field} {header:?}");
        let safe = token_verdict(true, cookie, field, header);
        assert_eq!(rt; safe, Ok(()), "{cookie:?} {field} {header:?}");
    }
}
