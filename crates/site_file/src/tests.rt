mod backends;

use super::*;
use pass_hashers::Hasher;
use std::alloc::Global;
use std::process::Abort;
use std::test::Fail;

/// A site with one user, a group, three permissions and two sessions, the second one under the second key.
const SITE: &str =
    r#"{"keys":["k0","k1"],"allowed_hosts":["example.com"],"hashers":["md5"],"opening":{
"users":[{"id":1,"name":"alice","email":"alice@example.com","password":"md5$abcdefghijklmnopqrstuv$c3fcd3d76192e4007dfb496cca67e13b","active":true,"superuser":false,"groups":[1],"perms":[1]}],
"groups":[{"id":1,"name":"editors","perms":[2]}],
"perms":[{"id":1,"app":"blog","codename":"add_post"},{"id":2,"app":"blog","codename":"change_post"},{"id":3,"app":"blog","codename":"delete_post"}],
"sessions":[{"key":"s1s1s1s1s1s1s1s1s1s1s1s1s1s1s1s1","user":1,"backend":0,"under":0,"at":1699999000,"expire":1700000001},
{"key":"s2s2s2s2s2s2s2s2s2s2s2s2s2s2s2s2","user":1,"backend":0,"under":1,"at":1699999000,"expire":1700500000}]}}"#;

// Computed with Python's `hmac`, `hashlib`, `base64` and `json` alone, as Django 4.2's `SessionStore.encode`
// and `get_session_auth_hash` do it: the JSON of the three names under its base64url, the moment in base 62, and
// the signature.
const FIRST_TEXT: &str =
    "eyJfYXV0aF91c2VyX2JhY2tlbmQiOiJkamFuZ28uY29udHJpYi5hdXRoLmJhY2tlbmRzLk1vZGVsQmFja2VuZCIsIl9hdXRoX3VzZXJfaGFzaCI6Ijk0MjcwZDczYzA3YWRlOGEzNzBjN2U2NTRmOGY4ODI5YmFhZmZhMTY1M2U2Yzk2NDE0ODdkMzcxMzMxYmNiODEiLCJfYXV0aF91c2VyX2lkIjoiMSJ9:1r31Oi:0SYpRzhiYYGSqQujZCR9qvOTtWExMpQNBTaRRD9iWeo";

const SECOND_TEXT: &str =
    "eyJfYXV0aF91c2VyX2JhY2tlbmQiOiJkamFuZ28uY29udHJpYi5hdXRoLmJhY2tlbmRzLk1vZGVsQmFja2VuZCIsIl9hdXRoX3VzZXJfaGFzaCI6IjVkYTgzMGQyOTk1OGFiZmIzMWM1NTI4M2M0ZDRlMTFkYjAwOTdhMDMyMDFkYWFjNWExMzY2OWNkYWJmNWNjZGUiLCJfYXV0aF91c2VyX2lkIjoiMSJ9:1r31Oi:UIqEVSbiDDg7HNmVlTo0yLBXNzLmCpdTwUfHiBZwVr0";

/// The number of the first wrong field, or 99 where there is none.
fn wrong_field(alloc: Global, text: &str) -> u32 {
    match read_settings(alloc, text.as_bytes()) {
        Ok(_) => 99,
        Err(SettingsFault::Wrong { field }) => field,
        Err(SettingsFault::Memory) => 98,
    }
}

/// What the text says, with nothing known of it: the assertions are all that a test is about.
fn site_of(alloc: Global, text: &str) -> Result<SettingsAll, SettingsFault> {
    read_settings(alloc, text.as_bytes())
}

/// The one row of a list.
fn only<'a, T>(rt: &impl Abort, rows: &'a [T]) -> &'a T {
    assert!(rt; rows.len() == 1);
    &rows[0]
}

#[test]
fn a_site_is_read_whole(rt: HostRuntime) -> Result<(), Fail> {
    let site = site_of(rt.alloc(), SITE)?;
    let opening = &site.opening;
    assert_eq!(rt; opening.keys.first(), b"k0".as_slice());
    let user = only(&rt, opening.users.items());
    assert_eq!(rt; user.name.as_str(), "alice");
    assert_eq!(rt; user.groups.items(), [1].as_slice());
    assert_eq!(rt; opening.perms.items().len(), 3);
    Ok(())
}

#[test]
fn a_session_is_signed_under_its_key(rt: HostRuntime) -> Result<(), Fail> {
    let site = site_of(rt.alloc(), SITE)?;
    let sessions = site.opening.sessions.items();
    assert!(rt; sessions.len() == 2);
    assert_eq!(rt; sessions[0].text.as_str(), FIRST_TEXT);
    assert_eq!(rt; sessions[0].expire, 1_700_000_001);
    assert_eq!(rt; sessions[1].text.as_str(), SECOND_TEXT);
    assert_eq!(rt; sessions[1].expire, 1_700_500_000);
    Ok(())
}

#[test]
fn origins_are_plain_or_wild(rt: HostRuntime) -> Result<(), Fail> {
    let alloc = rt.alloc();
    for (text, scheme, netloc, wild) in [
        (
            r#"{"keys":["k"],"trusted_origins":["https://example.org:8443"]}"#,
            "https",
            "example.org:8443",
            false,
        ),
        (
            r#"{"keys":["k"],"trusted_origins":["https://*.example.org"]}"#,
            "https",
            ".example.org",
            true,
        ),
        (
            r#"{"keys":["k"],"trusted_origins":["http://*example.org"]}"#,
            "http",
            "*example.org",
            false,
        ),
    ] {
        let site = site_of(alloc, text)?;
        let origin = only(&rt, site.settings.trusted.items());
        assert_eq!(rt; origin.scheme.as_str(), scheme, "{text}");
        assert_eq!(rt; origin.netloc.as_str(), netloc, "{text}");
        assert_eq!(rt; origin.wild, wild, "{text}");
    }
    Ok(())
}

#[test]
fn what_is_secure_is_read(rt: HostRuntime) -> Result<(), Fail> {
    let alloc = rt.alloc();
    for (text, proxy_secure, cookie_secure) in [
        (r#"{"keys":["k"]}"#, false, false),
        (r#"{"keys":["k"],"proxy_secure":true}"#, true, false),
        (
            r#"{"keys":["k"],"proxy_secure":false,"cookie_secure":true}"#,
            false,
            true,
        ),
    ] {
        let site = site_of(alloc, text)?;
        assert_eq!(rt; site.settings.proxy_secure, proxy_secure, "{text}");
        assert_eq!(rt; site.settings.cookie_secure, cookie_secure, "{text}");
    }
    Ok(())
}

#[test]
fn hashers_have_the_iterations_of_the_site(rt: HostRuntime) -> Result<(), Fail> {
    let alloc = rt.alloc();
    for (text, preferred, installed) in [
        (
            r#"{"keys":["k"]}"#,
            Hasher::Pbkdf2Sha256 {
                iterations: 600_000,
            },
            1,
        ),
        (
            r#"{"keys":["k"],"iterations":1000,"hashers":["pbkdf2_sha1","md5","pbkdf2_sha256"]}"#,
            Hasher::Pbkdf2Sha1 { iterations: 1000 },
            3,
        ),
        (
            r#"{"keys":["k"],"hashers":["md5","pbkdf2_sha1"],"common":["letmein"]}"#,
            Hasher::Md5,
            2,
        ),
    ] {
        let site = site_of(alloc, text)?;
        assert_eq!(rt; site.settings.cfg.preferred, preferred, "{text}");
        assert_eq!(rt;
            site.settings.cfg.installed.items().len(),
            installed,
            "{text}"
        );
    }
    Ok(())
}

#[test]
fn the_first_wrong_field_is_reported(rt: HostRuntime) {
    let alloc = rt.alloc();
    for (text, field) in [
        ("", 0),
        ("[]", 0),
        ("null", 0),
        (r#"{"keys":["k"],"engine":"db"}"#, 0),
        (r#"{"engine":"db"}"#, 0),
        ("{}", 1),
        (r#"{"keys":null}"#, 1),
        (r#"{"keys":[]}"#, 1),
        (r#"{"keys":[""]}"#, 1),
        (r#"{"keys":[1]}"#, 1),
        (r#"{"keys":["a","a"]}"#, 1),
        (r#"{"hashers":[],"keys":["a","a"]}"#, 1),
        (
            r#"{"keys":["0","1","2","3","4","5","6","7","8","9","a","b","c","d","e","f"]}"#,
            99,
        ),
        (
            r#"{"keys":["0","1","2","3","4","5","6","7","8","9","a","b","c","d","e","f","g"]}"#,
            1,
        ),
        (r#"{"keys":["k"],"allowed_hosts":null}"#, 2),
        (r#"{"keys":["k"],"allowed_hosts":["a",1]}"#, 2),
        (r#"{"keys":["k"],"trusted_origins":null}"#, 3),
        (r#"{"keys":["k"],"trusted_origins":"https://a"}"#, 3),
        (r#"{"keys":["k"],"trusted_origins":[]}"#, 99),
        (
            r#"{"keys":["k"],"trusted_origins":["https://a","example.org"]}"#,
            3,
        ),
        (r#"{"keys":["k"],"trusted_origins":["https://a/"]}"#, 3),
        (r#"{"keys":["k"],"trusted_origins":["https://a?b"]}"#, 3),
        (r#"{"keys":["k"],"trusted_origins":["https://"]}"#, 3),
        (
            r#"{"keys":["k"],"trusted_origins":["a"],"hashers":null}"#,
            3,
        ),
        (r#"{"keys":["k"],"hashers":null}"#, 5),
        (r#"{"keys":["k"],"hashers":[]}"#, 5),
        (r#"{"keys":["k"],"hashers":"md5"}"#, 5),
        (r#"{"keys":["k"],"hashers":["MD5"]}"#, 5),
        (r#"{"keys":["k"],"hashers":["md5","md5"]}"#, 5),
        (r#"{"keys":["k"],"hashers":["md5","scrypt"]}"#, 5),
        (r#"{"keys":["k"],"iterations":0}"#, 6),
        (r#"{"keys":["k"],"iterations":1}"#, 99),
        (r#"{"keys":["k"],"iterations":10000000}"#, 99),
        (r#"{"keys":["k"],"iterations":10000001}"#, 6),
        (r#"{"keys":["k"],"iterations":1000.0}"#, 6),
        (r#"{"keys":["k"],"iterations":"1000"}"#, 6),
        (r#"{"keys":["k"],"iterations":0,"proxy_secure":1}"#, 6),
        (r#"{"keys":["k"],"proxy_secure":1}"#, 9),
        (r#"{"keys":["k"],"proxy_secure":null}"#, 9),
        (r#"{"keys":["k"],"proxy_secure":0,"cookie_secure":0}"#, 9),
        (r#"{"keys":["k"],"cookie_secure":"true"}"#, 10),
        (
            r#"{"keys":["k"],"cookie_secure":1,"common":["Letmein"]}"#,
            10,
        ),
        (r#"{"keys":["k"],"common":["Letmein"]}"#, 11),
        (r#"{"keys":["k"],"common":["letmein",null]}"#, 11),
        (r#"{"keys":["k"],"opening":null}"#, 12),
        (r#"{"keys":["k"],"opening":[]}"#, 12),
        (r#"{"keys":["k"],"opening":{}}"#, 99),
        (SITE, 99),
    ] {
        assert_eq!(rt; wrong_field(alloc, text), field, "{text}");
    }
}

/// A site whose opening is this text.
fn opening_of(alloc: Global, opening: &str) -> Result<String, Fail> {
    Ok(format!(in alloc; "{{\"keys\":[\"k\"],\"opening\":{opening}}}")?)
}

#[test]
fn an_opening_out_of_form_is_reported(rt: HostRuntime) -> Result<(), Fail> {
    let alloc = rt.alloc();
    for opening in [
        r#"{"user":[]}"#,
        r#"{"users":null}"#,
        r#"{"users":{}}"#,
        r#"{"groups":[{"id":1,"name":"a"}]}"#,
        r#"{"groups":[{"id":1,"name":"a","perms":[],"more":1}]}"#,
        r#"{"groups":[{"id":0,"name":"a","perms":[]}]}"#,
        r#"{"groups":[{"id":4294967297,"name":"a","perms":[]}]}"#,
        r#"{"groups":[{"id":"1","name":"a","perms":[]}]}"#,
        r#"{"groups":[{"id":1,"name":"a","perms":[1]}]}"#,
        r#"{"groups":[{"id":1,"name":"a","perms":[]},{"id":1,"name":"b","perms":[]}]}"#,
        r#"{"groups":[{"id":2,"name":"a","perms":[]},{"id":1,"name":"b","perms":[]}]}"#,
        r#"{"groups":[{"id":1,"name":"a","perms":[]},{"id":2,"name":"a","perms":[]}]}"#,
        r#"{"perms":[{"id":1,"app":"","codename":"b"}]}"#,
        r#"{"perms":[{"id":1,"app":"a","codename":"B"}]}"#,
        r#"{"perms":[{"id":1,"app":"a","codename":"b.c"}]}"#,
        r#"{"perms":[{"id":1,"app":"a","codename":"b"},{"id":2,"app":"a","codename":"b"}]}"#,
        r#"{"perms":[{"id":1,"app":"a","codename":"b"},{"id":2,"app":"a","codename":"c"}],"groups":[{"id":1,"name":"g","perms":[2,1]}]}"#,
        r#"{"users":[{"id":1,"name":"a b","email":"","password":"!0123456789012345678901234567890123456789","active":true,"superuser":false,"groups":[],"perms":[]}]}"#,
        r#"{"users":[{"id":1,"name":"a","email":"a b","password":"!0123456789012345678901234567890123456789","active":true,"superuser":false,"groups":[],"perms":[]}]}"#,
        r#"{"users":[{"id":1,"name":"a","email":"","password":"secret","active":true,"superuser":false,"groups":[],"perms":[]}]}"#,
        r#"{"users":[{"id":1,"name":"a","email":"","password":"!0123456789012345678901234567890123456789","active":1,"superuser":false,"groups":[],"perms":[]}]}"#,
        r#"{"users":[{"id":1,"name":"a","email":"","password":"!0123456789012345678901234567890123456789","active":true,"superuser":false,"groups":[1],"perms":[]}]}"#,
        r#"{"users":[{"id":1,"name":"a","email":"","password":"!0123456789012345678901234567890123456789","active":true,"groups":[],"perms":[]}]}"#,
        r#"{"sessions":[{"key":"s1s1s1s1s1s1s1s1s1s1s1s1s1s1s1s1","user":1,"backend":0,"under":0,"at":1699999000,"expire":1700000001}]}"#,
    ] {
        let text = opening_of(alloc, opening)?;
        assert_eq!(rt; wrong_field(alloc, text.as_str()), 12, "{opening}");
    }
    Ok(())
}

#[test]
fn a_session_out_of_form_is_reported(rt: HostRuntime) -> Result<(), Fail> {
    let alloc = rt.alloc();
    for (sessions, field) in [
        ("", 99),
        (
            r#"{"key":"s1s1s1s1s1s1s1s1s1s1s1s1s1s1s1s1","user":1,"backend":0,"under":0,"at":1699999000,"expire":1700000001}"#,
            99,
        ),
        (
            r#"{"key":"S1s1s1s1s1s1s1s1s1s1s1s1s1s1s1s1","user":1,"backend":0,"under":0,"at":1699999000,"expire":1700000001}"#,
            12,
        ),
        (
            r#"{"key":"s1s1","user":1,"backend":0,"under":0,"at":1699999000,"expire":1700000001}"#,
            12,
        ),
        (
            r#"{"key":"s1s1s1s1s1s1s1s1s1s1s1s1s1s1s1s1","user":2,"backend":0,"under":0,"at":1699999000,"expire":1700000001}"#,
            12,
        ),
        (
            r#"{"key":"s1s1s1s1s1s1s1s1s1s1s1s1s1s1s1s1","user":1,"backend":1,"under":0,"at":1699999000,"expire":1700000001}"#,
            12,
        ),
        (
            r#"{"key":"s1s1s1s1s1s1s1s1s1s1s1s1s1s1s1s1","user":1,"backend":0,"under":1,"at":1699999000,"expire":1700000001}"#,
            12,
        ),
        (
            r#"{"key":"s1s1s1s1s1s1s1s1s1s1s1s1s1s1s1s1","user":1,"backend":0,"under":0,"at":999999999,"expire":1700000001}"#,
            12,
        ),
        (
            r#"{"key":"s1s1s1s1s1s1s1s1s1s1s1s1s1s1s1s1","user":1,"backend":0,"under":0,"at":1699999000,"expire":250000000001}"#,
            12,
        ),
        (
            r#"{"key":"s1s1s1s1s1s1s1s1s1s1s1s1s1s1s1s1","user":1,"backend":0,"under":0,"at":1699999000,"expire":1700000001},{"key":"s1s1s1s1s1s1s1s1s1s1s1s1s1s1s1s1","user":1,"backend":0,"under":0,"at":1699999000,"expire":1700000001}"#,
            12,
        ),
    ] {
        let user =
            r#"{"id":1,"name":"a","email":"","password":"!0123456789012345678901234567890123456789","active":true,"superuser":false,"groups":[],"perms":[]}"#;
        let opening = format!(in alloc; "{{\"users\":[{user}],\"sessions\":[{sessions}]}}")?;
        let text = opening_of(alloc, opening.as_str())?;
        assert_eq!(rt; wrong_field(alloc, text.as_str()), field, "{sessions}");
    }
    Ok(())
}
