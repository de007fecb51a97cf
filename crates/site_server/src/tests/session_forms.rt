//! Forms that are sent to `/session/`: whether they may be forged, and how many fields they have.

use super::runs::*;
use super::stored::*;
use super::*;

/// A site behind a proxy that takes HTTPS.
const SECURE_SITE: &str =
    r#"{"keys":["k0"],"allowed_hosts":["example.com"],"hashers":["md5"],"proxy_secure":true,"trusted_origins":["https://*.example.org"]}"#;

/// A form that is sent by HTTPS without an `Origin`: more lines of its head, its body, and what is answered.
#[derive(Clone, Copy)]
struct Sent {
    lines: &'static str,
    form: &'static str,
    reason: &'static str,
}

fn forged_forms() -> [Sent; 6] {
    [
        Sent {
            lines: "",
            form: "",
            reason: "no-referer",
        },
        Sent {
            lines: "Referer: http://example.com/\r\n",
            form: "",
            reason: "insecure-referer",
        },
        Sent {
            lines: "Referer: https://a.example.org/x\r\n",
            form: "",
            reason: "no-cookie",
        },
        Sent {
            lines: "Referer: https://a.example.org/x\r\nCookie: csrftoken=aaaaaaaaaaaaaaaaaaaaaaaaaaaaaaaa\r\n",
            form: "name=n",
            reason: "token-missing",
        },
        Sent {
            lines: "Referer: https://a.example.org/x\r\nCookie: csrftoken=aaaaaaaaaaaaaaaaaaaaaaaaaaaaaaaa\r\n",
            form: "name=n&csrfmiddlewaretoken=bbbbbbbbbbbbbbbbbbbbbbbbbbbbbbbb",
            reason: "token-incorrect",
        },
        Sent {
            lines: "Referer: https://a.example.org/x\r\nCookie: csrftoken=aaaaaaaaaaaaaaaaaaaaaaaaaaaaaaaa\r\n",
            form: "name=n&csrfmiddlewaretoken=aaaaaaaaaaaaaaaaaaaaaaaaaaaaaaaa&csrfmiddlewaretoken=bbbbbbbbbbbbbbbbbbbbbbbbbbbbbbbb",
            reason: "token-incorrect",
        },
    ]
}

fn secure_post(alloc: Global, lines: &str, form: &str) -> Result<String, AllocError> {
    let length = form.len();
    format!(in alloc;
        "POST /session/ HTTP/1.1\r\nHost: example.com\r\nX-Forwarded-Proto: https\r\n{lines}Content-Type: application/x-www-form-urlencoded\r\nContent-Length: {length}\r\n\r\n{form}"
    )
}

fn is_forged(rt: &impl Abort, alloc: Global, sent: &Sent) -> Result<(), Fail> {
    let reason = sent.reason;
    let body = format!(in alloc; "error=csrf-{reason}\n")?;
    let forbidden = Answer {
        status: "403 Forbidden",
        lines: "",
        body: body.as_str(),
    };
    let input = secure_post(alloc, sent.lines, sent.form)?;
    let output = answer_text(alloc, &forbidden)?;
    let left = Left {
        output: output.as_str(),
        steps: &[],
        rows: &[],
    };
    let given = site(SECURE_SITE, input.as_str());
    leaves(rt, alloc, &given, &left, reason)
}

#[test]
fn a_forged_form_has_no_step(rt: HostRuntime) -> Result<(), Fail> {
    let alloc = rt.alloc();
    for sent in forged_forms() {
        is_forged(&rt, alloc, &sent)?;
    }
    Ok(())
}

const SET: Answer<'static> = Answer {
    status: "200 OK",
    lines: "Vary: Cookie\r\nSet-Cookie: sessionid=aaaaaaaaaaaaaaaaaaaaaaaaaaaaaaaa; expires=Tue, 28 Nov 2023 22:13:20 GMT; HttpOnly; Max-Age=1209600; Path=/; SameSite=Lax\r\n",
    body: "set\n",
};

const NEW_STEPS: [Done<'static>; 2] = [
    Done {
        worker: 1,
        request: 1,
        step: 0,
        what: Asked::Load(None),
    },
    Done {
        worker: 1,
        request: 1,
        step: 1,
        what: Asked::Create("{\"n\":\"v\"}", USUAL_SECONDS),
    },
];

const NEW_ROW: Row<'static> = Row {
    key: NEW_KEY,
    expire: USUAL_END,
    map: Some("{\"n\":\"v\"}"),
};

fn is_set(
    rt: &impl Abort,
    alloc: Global,
    settings: &str,
    input: &str,
    case: &str,
) -> Result<(), Fail> {
    let output = answer_text(alloc, &SET)?;
    let left = Left {
        output: output.as_str(),
        steps: &NEW_STEPS,
        rows: &[NEW_ROW],
    };
    leaves(rt, alloc, &site(settings, input), &left, case)
}

#[test]
fn the_last_token_counts(rt: HostRuntime) -> Result<(), Fail> {
    let alloc = rt.alloc();
    let input = secure_post(
        alloc,
        "Referer: https://a.example.org/x\r\nCookie: csrftoken=aaaaaaaaaaaaaaaaaaaaaaaaaaaaaaaa\r\n",
        "name=n&value=v&csrfmiddlewaretoken=b&csrfmiddlewaretoken=aaaaaaaaaaaaaaaaaaaaaaaaaaaaaaaa",
    )?;
    is_set(&rt, alloc, SECURE_SITE, input.as_str(), "two tokens")
}

/// A form of three fields that count, and so many others before them.
fn form_after(alloc: Global, count: usize) -> Result<String, AllocError> {
    let mut form = String::new(alloc);
    for _ in 0..count {
        form.push_str("a=&")?;
    }
    form.push_str("csrfmiddlewaretoken=aaaaaaaaaaaaaaaaaaaaaaaaaaaaaaaa&name=n&value=v")?;
    Ok(form)
}

#[test]
fn a_form_has_at_most_a_thousand_fields(rt: HostRuntime) -> Result<(), Fail> {
    let alloc = rt.alloc();
    let form = form_after(alloc, 997)?;
    let input = post(alloc, CSRF_COOKIE, form.as_str())?;
    is_set(&rt, alloc, SETTINGS, input.as_str(), "1,000 fields")?;
    let form = form_after(alloc, 998)?;
    let input = post(alloc, CSRF_COOKIE, form.as_str())?;
    let refused = Answer {
        status: "400 Bad Request",
        lines: "",
        body: "error=too-many-fields\n",
    };
    let output = answer_text(alloc, &refused)?;
    let left = Left {
        output: output.as_str(),
        steps: &[],
        rows: &[],
    };
    let given = site(SETTINGS, input.as_str());
    leaves(&rt, alloc, &given, &left, "1,001 fields")
}
