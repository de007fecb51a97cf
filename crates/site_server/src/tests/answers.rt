//! What requests, words and settings are answered.

use super::*;

#[test]
fn a_visitor_without_a_cookie_is_anonymous(rt: HostRuntime) -> Result<(), Fail> {
    let alloc = rt.alloc();
    let words = words_of(alloc, &["site.json", "mem", "pipe"])?;
    let page = anonymous(alloc)?;
    let due = Due {
        status: Status::Done,
        output: page.as_bytes(),
        entries: &[boot(), load(1, None)],
    };
    ends_with(
        &rt,
        alloc,
        &words,
        &site(SETTINGS, REQUEST),
        &due,
        "one request",
    )?;
    let due = Due {
        status: Status::Done,
        output: b"",
        entries: &[boot()],
    };
    ends_with(&rt, alloc, &words, &site(SETTINGS, ""), &due, "no request")
}

/// What one request is answered with.
#[derive(Clone, Copy)]
struct Answer {
    input: &'static str,
    status: &'static str,
    length: usize,
    lines: &'static str,
    connection: &'static str,
    body: &'static str,
}

fn answers_by_route() -> [Answer; 9] {
    [
        Answer {
            input: "HEAD /whoami/ HTTP/1.1\r\nHost: example.com\r\n\r\n",
            status: "200 OK",
            length: 10,
            lines: "Vary: Cookie\r\n",
            connection: "keep-alive",
            body: "",
        },
        Answer {
            input: "GET /whoami/ HTTP/1.1\r\nHost: example.com\r\nCookie: sessionid=a; sessionid=b\r\nConnection: Close\r\n\r\n",
            status: "200 OK",
            length: 10,
            lines: FORGOTTEN,
            connection: "close",
            body: "anonymous\n",
        },
        Answer {
            input: "GET /whoami?a=1 HTTP/1.1\r\nHost: example.com\r\n\r\n",
            status: "301 Moved Permanently",
            length: 0,
            lines: "Location: /whoami/?a=1\r\n",
            connection: "keep-alive",
            body: "",
        },
        Answer {
            input: "GET /whoami? HTTP/1.0\r\nHost: example.com\r\n\r\n",
            status: "301 Moved Permanently",
            length: 0,
            lines: "Location: /whoami/?\r\n",
            connection: "close",
            body: "",
        },
        Answer {
            input: "GET /whoami/ HTTP/1.1\r\nHost: evil.com\r\n\r\n",
            status: "400 Bad Request",
            length: 15,
            lines: "",
            connection: "keep-alive",
            body: "error=bad-host\n",
        },
        Answer {
            input: "POST /login/ HTTP/1.1\r\nHost: Example.com.:80\r\nContent-Length: 0\r\n\r\n",
            status: "403 Forbidden",
            length: 21,
            lines: "",
            connection: "keep-alive",
            body: "error=csrf-no-cookie\n",
        },
        Answer {
            input: "GET /none HTTP/1.1\r\n\r\n",
            status: "400 Bad Request",
            length: 15,
            lines: "",
            connection: "keep-alive",
            body: "error=bad-host\n",
        },
        Answer {
            input: "GET /whoami/x HTTP/1.1\r\nHost: example.com\r\n\r\n",
            status: "404 Not Found",
            length: 15,
            lines: "",
            connection: "keep-alive",
            body: "error=no-route\n",
        },
        Answer {
            input: "get /whoami/ HTTP/1.1\r\nHost: example.com\r\n\r\n",
            status: "405 Method Not Allowed",
            length: 13,
            lines: "Allow: GET, HEAD\r\n",
            connection: "keep-alive",
            body: "error=method\n",
        },
    ]
}

fn answers_to_faults() -> [Answer; 7] {
    [
        Answer {
            input: "GET /whoami/ HTTP/1.1\r\nHost: example.com\r\n",
            status: "400 Bad Request",
            length: 16,
            lines: "",
            connection: "close",
            body: "error=cut-short\n",
        },
        Answer {
            input: "\0",
            status: "400 Bad Request",
            length: 15,
            lines: "",
            connection: "close",
            body: "error=bad-head\n",
        },
        Answer {
            input: "GET /whoami/ HTTP/1.1\r\nHost: example.com\r\nHost: example.com\r\n\r\n",
            status: "400 Bad Request",
            length: 15,
            lines: "",
            connection: "close",
            body: "error=bad-head\n",
        },
        Answer {
            input: "POST /whoami/ HTTP/1.1\r\nTransfer-Encoding: chunked\r\nContent-Length: 3000000\r\n\r\n",
            status: "501 Not Implemented",
            length: 22,
            lines: "",
            connection: "close",
            body: "error=transfer-coding\n",
        },
        Answer {
            input: "POST /whoami/ HTTP/1.1\r\nContent-Encoding: gzip\r\n\r\n",
            status: "415 Unsupported Media Type",
            length: 21,
            lines: "",
            connection: "close",
            body: "error=content-coding\n",
        },
        Answer {
            input: "POST /whoami/ HTTP/1.1\r\n\r\n",
            status: "411 Length Required",
            length: 16,
            lines: "",
            connection: "close",
            body: "error=no-length\n",
        },
        Answer {
            input: "POST /whoami/ HTTP/1.1\r\nContent-Length: 2621441\r\n\r\n",
            status: "400 Bad Request",
            length: 20,
            lines: "",
            connection: "close",
            body: "error=body-too-long\n",
        },
    ]
}

fn answers(rt: &impl Abort, alloc: Global, words: &TextList, answer: &Answer) -> Result<(), Fail> {
    let due = page(
        alloc,
        answer.status,
        answer.length,
        answer.lines,
        answer.connection,
        answer.body,
    )?;
    let (status, output, _) = run(alloc, words, &site(SETTINGS, answer.input))?;
    assert_eq!(rt; status, Status::Done, "{}", answer.input);
    assert_eq!(rt; output.items(), due.as_bytes(), "{}", answer.input);
    Ok(())
}

#[test]
fn each_answer_has_its_text(rt: HostRuntime) -> Result<(), Fail> {
    let alloc = rt.alloc();
    let words = words_of(alloc, &["site.json", "mem", "pipe"])?;
    for answer in answers_by_route() {
        answers(&rt, alloc, &words, &answer)?;
    }
    for answer in answers_to_faults() {
        answers(&rt, alloc, &words, &answer)?;
    }
    Ok(())
}

#[test]
fn words_and_settings_are_refused_by_their_lines(rt: HostRuntime) -> Result<(), Fail> {
    let alloc = rt.alloc();
    let few = words_of(alloc, &["site.json", "pipe"])?;
    let usage = Due {
        status: Status::Usage,
        output: b"usage\n",
        entries: &[],
    };
    ends_with(
        &rt,
        alloc,
        &few,
        &site(SETTINGS, REQUEST),
        &usage,
        "few words",
    )?;
    let words = words_of(alloc, &["site.json", "mem", "pipe"])?;
    for (settings, line) in [
        ("[]", "settings=0\n"),
        ("{", "settings=0\n"),
        ("{}", "settings=1\n"),
        (r#"{"keys":["a","a"]}"#, "settings=1\n"),
        (r#"{"keys":["k0"],"opening":{"users":1}}"#, "settings=12\n"),
    ] {
        let due = Due {
            status: Status::BadSettings,
            output: line.as_bytes(),
            entries: &[],
        };
        ends_with(&rt, alloc, &words, &site(settings, REQUEST), &due, settings)?;
    }
    Ok(())
}
