use super::*;
use crypto_text::Text;
use std::alloc::Global;
use std::process::Abort;

fn assert_pair(rt: &impl Abort, cookie: &Cookie, name: &str, value: &str) {
    assert_eq!(rt; cookie.name.as_str(), name);
    assert_eq!(rt; cookie.value.as_str(), value);
}

#[test]
fn the_last_value_of_a_name_is_found(rt: HostRuntime) {
    let cookies = parse_cookies(rt.alloc(), "a=1; b; a=2;;").expect(&rt, "there is memory");
    let cookies = cookies.as_slice();
    match cookies {
        [first, second, third] => {
            assert_pair(&rt, first, "a", "1");
            assert_pair(&rt, second, "", "b");
            assert_pair(&rt, third, "a", "2");
        }
        _ => panic!(rt; "there are three cookies"),
    }
    match find(cookies, "a") {
        Some(value) => assert_eq!(rt; value, "2"),
        None => panic!(rt; "the name is in the header"),
    }
    assert_eq!(rt; find(cookies, "c").is_none(), true);
    match cookie_value("a=1; b; a=2;;", "a") {
        Some(value) => assert_eq!(rt; value, "2"),
        None => panic!(rt; "the name is in the header"),
    }
    assert_eq!(rt; cookie_value("a=1; b; a=2;;", "c").is_none(), true);
}

#[test]
fn values_keep_their_signs_and_quotes(rt: HostRuntime) {
    let cookies = parse_cookies(rt.alloc(), " \ta = x=y ; q=\"z\" ;= ; ;").expect(
        &rt,
        "there is memory",
    );
    match cookies.as_slice() {
        [first, second] => {
            assert_pair(&rt, first, "a", "x=y");
            assert_pair(&rt, second, "q", "\"z\"");
        }
        _ => panic!(rt; "there are two cookies"),
    }
}

fn assert_set(
    rt: &impl Abort,
    alloc: Global,
    age: Option<u64>,
    now: u64,
    http_only: bool,
    secure: bool,
    expected: &str,
) {
    let cookie = CookieOut {
        name: "sessionid",
        value: "x",
        // At most what `set_cookie_text` takes, to which the callers keep.
        age: age.map(|age| age.min(3_153_600_000)),
        now: now.min(250_000_000_000),
        http_only,
        secure,
    };
    let text = set_cookie_text(alloc, &cookie).expect(rt, "there is memory");
    assert_eq!(rt; text.as_str(), expected);
}

#[test]
fn cookies_are_set(rt: HostRuntime) {
    assert_set(
        &rt,
        rt.alloc(),
        None,
        1_700_000_000,
        true,
        false,
        "sessionid=x; HttpOnly; Path=/; SameSite=Lax",
    );
    assert_set(
        &rt,
        rt.alloc(),
        Some(1_209_600),
        1_700_000_000,
        true,
        true,
        "sessionid=x; expires=Tue, 28 Nov 2023 22:13:20 GMT; HttpOnly; Max-Age=1209600; Path=/; SameSite=Lax; Secure",
    );
    assert_set(
        &rt,
        rt.alloc(),
        Some(0),
        1_700_000_000,
        false,
        false,
        "sessionid=x; expires=Tue, 14 Nov 2023 22:13:20 GMT; Max-Age=0; Path=/; SameSite=Lax",
    );
    assert_set(
        &rt,
        rt.alloc(),
        Some(3_153_600_000),
        250_000_000_000,
        false,
        false,
        "sessionid=x; expires=Thu, 13 Feb 9992 12:26:40 GMT; Max-Age=3153600000; Path=/; SameSite=Lax",
    );
}

#[test]
fn a_cookie_is_forgotten(rt: HostRuntime) {
    let text = delete_cookie_text(rt.alloc(), "sessionid").expect(&rt, "there is memory");
    assert_eq!(rt;
        text.as_str(),
        "sessionid=\"\"; expires=Thu, 01 Jan 1970 00:00:00 GMT; Max-Age=0; Path=/; SameSite=Lax"
    );
}
