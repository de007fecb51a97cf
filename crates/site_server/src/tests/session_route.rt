//! The entries of a session: which may be set, and how they are listed.

use super::runs::*;
use super::stored::*;
use super::*;

const TOKEN: &str = "csrfmiddlewaretoken=aaaaaaaaaaaaaaaaaaaaaaaaaaaaaaaa";

/// A session of this cookie ends with the browser.
const BEGUN: Answer<'static> = Answer {
    status: "200 OK",
    lines: "Vary: Cookie\r\nSet-Cookie: sessionid=aaaaaaaaaaaaaaaaaaaaaaaaaaaaaaaa; HttpOnly; Path=/; SameSite=Lax\r\n",
    body: "set\n",
};

const LISTED: Answer<'static> = Answer {
    status: "200 OK",
    lines: "Vary: Cookie\r\nSet-Cookie: csrftoken=aaaaaaaaaaaaaaaaaaaaaaaaaaaaaaaa; expires=Tue, 12 Nov 2024 22:13:20 GMT; Max-Age=31449600; Path=/; SameSite=Lax\r\n",
    body: "csrf=aaaaaaaaaaaaaaaaaaaaaaaaaaaaaaaaaaaaaaaaaaaaaaaaaaaaaaaaaaaaaaaa\nn=\"\"\n",
};

const BAD_ENTRY: Answer<'static> = Answer {
    status: "400 Bad Request",
    lines: "Vary: Cookie\r\n",
    body: "error=bad-entry\n",
};

const LIST_REQUEST: &str =
    "GET /session/ HTTP/1.1\r\nHost: example.com\r\nCookie: sessionid=aaaaaaaaaaaaaaaaaaaaaaaaaaaaaaaa\r\n\r\n";

/// The same without a body.
const HEAD_REQUEST: &str =
    "HEAD /session/ HTTP/1.1\r\nHost: example.com\r\nCookie: sessionid=aaaaaaaaaaaaaaaaaaaaaaaaaaaaaaaa\r\n\r\n";

/// A load without a cookie, and then a new session of this map.
fn begins_with(map: &str, seconds: u64) -> [Done<'_>; 2] {
    let load = step_at(1, 0, Asked::Load(None));
    let create = step_at(1, 1, Asked::Create(map, seconds));
    [load, create]
}

#[test]
fn an_entry_begins_a_session_that_lists_it(rt: HostRuntime) -> Result<(), Fail> {
    let alloc = rt.alloc();
    let form = format!(in alloc; "name=n&value=&expiry=0&{TOKEN}")?;
    let mut input = post(alloc, CSRF_COOKIE, form.as_str())?;
    input.push_str(LIST_REQUEST)?;
    input.push_str(HEAD_REQUEST)?;
    let mut output = answer_texts(alloc, &BEGUN, &LISTED)?;
    let head = page(
        alloc,
        LISTED.status,
        LISTED.body.len(),
        LISTED.lines,
        "keep-alive",
        "",
    )?;
    output.push_str(head.as_str())?;
    let map = "{\"_session_expiry\":0,\"n\":\"\"}";
    let [load, create] = begins_with(map, USUAL_SECONDS);
    let load_again = step_at(2, 0, Asked::Load(Some(NEW_KEY)));
    let load_for_head = step_at(3, 0, Asked::Load(Some(NEW_KEY)));
    let row = Row {
        key: NEW_KEY,
        expire: USUAL_END,
        map: Some(map),
    };
    let left = Left {
        output: output.as_str(),
        steps: &[load, create, load_again, load_for_head],
        rows: &[row],
    };
    let given = site(SETTINGS, input.as_str());
    leaves(&rt, alloc, &given, &left, "a new session")
}

/// An entry as a form has it: its name, repeated, a value of so many letters, and an expiry.
#[derive(Clone, Copy, Debug)]
struct Sent {
    name: &'static str,
    name_count: usize,
    value_count: usize,
    expiry: &'static str,
}

fn refused_entries() -> [Sent; 12] {
    let sent = Sent {
        name: "n",
        name_count: 1,
        value_count: 1,
        expiry: "",
    };
    [
        Sent { name: "", ..sent },
        Sent {
            name_count: 101,
            ..sent
        },
        Sent { name: "_x", ..sent },
        Sent {
            name: "a%3Db",
            ..sent
        },
        Sent {
            name: "a+b",
            ..sent
        },
        Sent {
            name: "%C3%A9",
            ..sent
        },
        Sent {
            name: "a%7F",
            ..sent
        },
        Sent {
            value_count: 4097,
            ..sent
        },
        Sent {
            expiry: "007",
            ..sent
        },
        Sent {
            expiry: "x",
            ..sent
        },
        Sent {
            expiry: "-1",
            ..sent
        },
        Sent {
            expiry: "12345678901",
            ..sent
        },
    ]
}

fn form_of(alloc: Global, sent: &Sent) -> Result<String, AllocError> {
    let name = repeated_text(alloc, sent.name, sent.name_count)?;
    let value = repeated_text(alloc, "v", sent.value_count)?;
    let expiry = sent.expiry;
    format!(in alloc; "{TOKEN}&expiry={expiry}&name={name}&value={value}")
}

fn repeated_text(alloc: Global, piece: &str, count: usize) -> Result<String, AllocError> {
    let mut text = String::new(alloc);
    for _ in 0..count {
        text.push_str(piece)?;
    }
    Ok(text)
}

fn is_refused(rt: &impl Abort, alloc: Global, sent: &Sent) -> Result<(), Fail> {
    let form = form_of(alloc, sent)?;
    let input = post(alloc, CSRF_COOKIE, form.as_str())?;
    let output = answer_text(alloc, &BAD_ENTRY)?;
    let [load, _] = begins_with("", USUAL_SECONDS);
    let left = Left {
        output: output.as_str(),
        steps: &[load],
        rows: &[],
    };
    let case = format!(in alloc; "{sent:?}")?;
    let given = site(SETTINGS, input.as_str());
    leaves(rt, alloc, &given, &left, case.as_str())
}

#[test]
fn an_entry_out_of_form_is_refused(rt: HostRuntime) -> Result<(), Fail> {
    let alloc = rt.alloc();
    for sent in refused_entries() {
        is_refused(&rt, alloc, &sent)?;
    }
    Ok(())
}

/// A session of a hundred years, which is the longest.
const LONGEST: Answer<'static> = Answer {
    status: "200 OK",
    lines: "Vary: Cookie\r\nSet-Cookie: sessionid=aaaaaaaaaaaaaaaaaaaaaaaaaaaaaaaa; expires=Thu, 21 Oct 2123 22:13:20 GMT; HttpOnly; Max-Age=3153600000; Path=/; SameSite=Lax\r\n",
    body: "set\n",
};

#[test]
fn the_longest_entry_is_taken(rt: HostRuntime) -> Result<(), Fail> {
    let alloc = rt.alloc();
    let sent = Sent {
        name: "n",
        name_count: 100,
        value_count: 4096,
        expiry: "9999999999",
    };
    let form = form_of(alloc, &sent)?;
    let input = post(alloc, CSRF_COOKIE, form.as_str())?;
    let output = answer_text(alloc, &LONGEST)?;
    let map = longest_map(alloc)?;
    let row = Row {
        key: NEW_KEY,
        expire: 4_853_600_000,
        map: Some(map.as_str()),
    };
    let left = Left {
        output: output.as_str(),
        steps: &begins_with(map.as_str(), 3_153_600_000),
        rows: &[row],
    };
    let given = site(SETTINGS, input.as_str());
    leaves(&rt, alloc, &given, &left, "the longest entry")
}

fn longest_map(alloc: Global) -> Result<String, AllocError> {
    let name = repeated_text(alloc, "n", 100)?;
    let value = repeated_text(alloc, "v", 4096)?;
    format!(in alloc; "{{\"_session_expiry\":9999999999,\"{name}\":\"{value}\"}}")
}

/// Alice's session is saved.
const SAVED: Answer<'static> = Answer {
    status: "200 OK",
    lines: "Vary: Cookie\r\nSet-Cookie: sessionid=s1s1s1s1s1s1s1s1s1s1s1s1s1s1s1s1; expires=Tue, 28 Nov 2023 22:13:20 GMT; HttpOnly; Max-Age=1209600; Path=/; SameSite=Lax\r\n",
    body: "set\n",
};

/// Sends so many names to alice's session, and then the first again.
fn many_names(alloc: Global, count: usize) -> Result<String, AllocError> {
    let mut input = String::new(alloc);
    for number in 0..count {
        push_name(alloc, &mut input, number)?;
    }
    push_name(alloc, &mut input, 0)?;
    Ok(input)
}

fn push_name(alloc: Global, input: &mut String, number: usize) -> Result<(), AllocError> {
    let cookie = format!(in alloc; "{CSRF_COOKIE}; sessionid={ALICES_KEY}")?;
    let form = format!(in alloc; "{TOKEN}&name=n{number}")?;
    input.push_str(post(alloc, cookie.as_str(), form.as_str())?.as_str())
}

#[test]
fn a_session_has_at_most_sixty_four_names(rt: HostRuntime) -> Result<(), Fail> {
    let alloc = rt.alloc();
    let words = words_of(alloc, &["site.json", "mem", "pipe"])?;
    let input = many_names(alloc, 65)?;
    let saved = answer_text(alloc, &SAVED)?;
    let mut due = repeated(alloc, "", saved.as_str(), 64)?;
    let end = answer_texts(alloc, &BAD_ENTRY, &SAVED)?;
    due.extend_from_slice(end.as_bytes())?;
    let given = Given {
        piece: 4096,
        ..site(ALICES_SITE, input.as_str())
    };
    let (status, output, entries) = run(alloc, &words, &given)?;
    assert_eq!(rt; status, Status::Done);
    assert_eq!(rt; output.items(), due.as_slice());
    // A start, 66 loads and 65 saves.
    assert_eq!(rt; entries.len(), 132);
    Ok(())
}
