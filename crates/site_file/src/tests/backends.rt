//! The field `backends`, and the backends of opening sessions.

use super::*;
use ledger_rows::Backend;

/// That of the first session under the first key, had it been begun by the second backend of `BACKENDS`.
const OTHER_TEXT: &str =
    "eyJfYXV0aF91c2VyX2JhY2tlbmQiOiJkamFuZ28uY29udHJpYi5hdXRoLmJhY2tlbmRzLkFsbG93QWxsVXNlcnNNb2RlbEJhY2tlbmQiLCJfYXV0aF91c2VyX2hhc2giOiI5NDI3MGQ3M2MwN2FkZThhMzcwYzdlNjU0ZjhmODgyOWJhYWZmYTE2NTNlNmM5NjQxNDg3ZDM3MTMzMWJjYjgxIiwiX2F1dGhfdXNlcl9pZCI6IjEifQ:1r31Oi:1zoJ8rQwzhdZRAYulVI0A7h4MVIiyB2GOMkYY_AimMM";

/// Both backends, each with a session of the user whom `SITE` has.
const BACKENDS: &str =
    r#"{"keys":["k0"],"backends":["django.contrib.auth.backends.ModelBackend","django.contrib.auth.backends.AllowAllUsersModelBackend"],"opening":{
"users":[{"id":1,"name":"alice","email":"alice@example.com","password":"md5$abcdefghijklmnopqrstuv$c3fcd3d76192e4007dfb496cca67e13b","active":true,"superuser":false,"groups":[],"perms":[]}],
"sessions":[{"key":"s1s1s1s1s1s1s1s1s1s1s1s1s1s1s1s1","user":1,"backend":0,"under":0,"at":1699999000,"expire":1700000001},
{"key":"s2s2s2s2s2s2s2s2s2s2s2s2s2s2s2s2","user":1,"backend":1,"under":0,"at":1699999000,"expire":1700000001}]}}"#;

#[test]
fn a_session_names_its_backend(rt: HostRuntime) -> Result<(), Fail> {
    let site = site_of(rt.alloc(), BACKENDS)?;
    let sessions = site.opening.sessions.items();
    assert!(rt; sessions.len() == 2);
    assert_eq!(rt; sessions[0].text.as_str(), FIRST_TEXT);
    assert_eq!(rt; sessions[1].text.as_str(), OTHER_TEXT);
    Ok(())
}

#[test]
fn backends_stand_in_the_order_of_the_file(rt: HostRuntime) -> Result<(), Fail> {
    let alloc = rt.alloc();
    let model = Backend::Model;
    let all = Backend::AllowAll;
    for (text, backends) in [
        (r#"{"keys":["k"]}"#, [model].as_slice()),
        (
            r#"{"keys":["k"],"backends":["django.contrib.auth.backends.AllowAllUsersModelBackend"]}"#,
            [all].as_slice(),
        ),
        (BACKENDS, [model, all].as_slice()),
        (
            r#"{"keys":["k"],"backends":["django.contrib.auth.backends.AllowAllUsersModelBackend","django.contrib.auth.backends.ModelBackend"]}"#,
            [all, model].as_slice(),
        ),
    ] {
        let site = site_of(alloc, text)?;
        assert_eq!(rt; site.settings.cfg.backends.items(), backends, "{text}");
    }
    Ok(())
}

#[test]
fn backends_out_of_form_are_reported(rt: HostRuntime) -> Result<(), Fail> {
    let alloc = rt.alloc();
    for backends in [
        "null",
        "[]",
        r#""django.contrib.auth.backends.ModelBackend""#,
        "[null]",
        "[1]",
        r#"["ModelBackend"]"#,
        r#"["django.contrib.auth.backends.RemoteUserBackend"]"#,
        r#"["django.contrib.auth.backends.ModelBackend","django.contrib.auth.backends.RemoteUserBackend"]"#,
        r#"["django.contrib.auth.backends.ModelBackend","django.contrib.auth.backends.ModelBackend"]"#,
        r#"["django.contrib.auth.backends.ModelBackend","django.contrib.auth.backends.AllowAllUsersModelBackend","django.contrib.auth.backends.ModelBackend"]"#,
    ] {
        let text = format!(in alloc;
            "{{\"keys\":[\"k\"],\"backends\":{backends},\"hashers\":[]}}"
        )?;
        assert_eq!(rt; wrong_field(alloc, text.as_str()), 4, "{backends}");
        let text = format!(in alloc;
            "{{\"keys\":[\"k\"],\"backends\":{backends},\"trusted_origins\":1}}"
        )?;
        assert_eq!(rt; wrong_field(alloc, text.as_str()), 3, "{backends}");
    }
    Ok(())
}
