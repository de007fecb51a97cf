//! A connection of several requests, in pieces of any length, up to its limits.

use super::*;

#[test]
fn a_refused_load_is_answered_and_the_connection_goes_on(rt: HostRuntime) -> Result<(), Fail> {
    let alloc = rt.alloc();
    let words = words_of(alloc, &["site.json", "mem", "pipe"])?;
    let input = twice(alloc, REQUEST)?;
    let failing = Given {
        store_fails: &[4],
        ..site(SETTINGS, input.as_str())
    };
    let pages = refusal_and_page(alloc)?;
    let due = Due {
        status: Status::Done,
        output: pages.as_bytes(),
        entries: &[boot(), load(2, None)],
    };
    ends_with(
        &rt,
        alloc,
        &words,
        &failing,
        &due,
        "a store that fails once",
    )
}

/// The responses to a request whose load the store refuses, and to one whose load it does.
fn refusal_and_page(alloc: Global) -> Result<String, AllocError> {
    let mut pages = page(
        alloc,
        "503 Service Unavailable",
        12,
        "Vary: Cookie\r\n",
        "keep-alive",
        "error=store\n",
    )?;
    let page = anonymous(alloc)?;
    pages.push_str(page.as_str())?;
    Ok(pages)
}

/// The responses to a `GET`, a `HEAD` and bytes that are no request.
fn three_pages(alloc: Global) -> Result<String, AllocError> {
    let mut pages = anonymous(alloc)?;
    let head = page(alloc, "200 OK", 10, "Vary: Cookie\r\n", "keep-alive", "")?;
    let fault = page(
        alloc,
        "400 Bad Request",
        15,
        "",
        "close",
        "error=bad-head\n",
    )?;
    pages.push_str(head.as_str())?;
    pages.push_str(fault.as_str())?;
    Ok(pages)
}

#[test]
fn pieces_of_any_length_give_the_same_responses(rt: HostRuntime) -> Result<(), Fail> {
    let alloc = rt.alloc();
    let words = words_of(alloc, &["site.json", "mem", "pipe"])?;
    let input =
        "GET /whoami/ HTTP/1.1\r\nHost: example.com\r\n\r\nHEAD /whoami/ HTTP/1.1\r\nHost: example.com\r\nContent-Length: 3\r\n\r\nabc\0";
    let pages = three_pages(alloc)?;
    let due = Due {
        status: Status::Done,
        output: pages.as_bytes(),
        entries: &[boot(), load(1, None), load(2, None)],
    };
    for (piece, case) in [(1, "1 byte"), (7, "7 bytes"), (4096, "4,096 bytes")] {
        let cut = Given {
            piece,
            ..site(SETTINGS, input)
        };
        ends_with(&rt, alloc, &words, &cut, &due, case)?;
    }
    Ok(())
}

/// An input of a front and a piece that is repeated, and what its response begins with.
#[derive(Clone, Copy)]
struct Long {
    front: &'static str,
    piece: &'static str,
    count: usize,
    line: &'static str,
}

fn long_inputs() -> [Long; 4] {
    [
        Long {
            front: "GET /",
            piece: "a",
            count: 16_379,
            line: "HTTP/1.1 431 ",
        },
        Long {
            front: "POST /whoami/ HTTP/1.1\r\nHost: example.com\r\nContent-Length: 2621440\r\n\r\n",
            piece: "a",
            count: 2_621_440,
            line: "HTTP/1.1 405 ",
        },
        Long {
            front: "GET /whoami/ HTTP/1.1\r\nHost: example.com\r\nContent-Type: application/x-www-form-urlencoded\r\nContent-Length: 3000\r\n\r\n",
            piece: "a=&",
            count: 1000,
            line: "HTTP/1.1 200 ",
        },
        Long {
            front: "GET /whoami/ HTTP/1.1\r\nHost: example.com\r\nContent-Type: application/x-www-form-urlencoded\r\nContent-Length: 3003\r\n\r\n",
            piece: "a=&",
            count: 1001,
            line: "HTTP/1.1 400 ",
        },
    ]
}

fn begins(rt: &impl Abort, alloc: Global, words: &TextList, long: &Long) -> Result<(), Fail> {
    let input = repeated(alloc, long.front, long.piece, long.count)?;
    let given = Given {
        input: input.as_slice(),
        piece: 65_536,
        ..site(SETTINGS, "")
    };
    let (status, output, _) = run(alloc, words, &given)?;
    assert_eq!(rt; status, Status::Done, "{}", long.line);
    assert!(rt;
        output.items().starts_with(long.line.as_bytes()),
        "{}",
        long.line
    );
    Ok(())
}

#[test]
fn long_inputs_have_their_limits(rt: HostRuntime) -> Result<(), Fail> {
    let alloc = rt.alloc();
    let words = words_of(alloc, &["site.json", "mem", "pipe"])?;
    for long in long_inputs() {
        begins(&rt, alloc, &words, &long)?;
    }
    Ok(())
}

fn last_page(alloc: Global) -> Result<String, AllocError> {
    page(
        alloc,
        "200 OK",
        10,
        "Vary: Cookie\r\n",
        "close",
        "anonymous\n",
    )
}

/// The responses to 1,000 requests without a cookie.
fn thousand_pages(alloc: Global) -> Result<Vec<u8>, AllocError> {
    let page = anonymous(alloc)?;
    let mut pages = repeated(alloc, "", page.as_str(), 999)?;
    let last = last_page(alloc)?;
    pages.extend_from_slice(last.as_bytes())?;
    Ok(pages)
}

#[test]
fn a_connection_has_a_thousand_requests(rt: HostRuntime) -> Result<(), Fail> {
    let alloc = rt.alloc();
    let words = words_of(alloc, &["site.json", "mem", "pipe"])?;
    let input = repeated(alloc, "", REQUEST, 1001)?;
    let long = Given {
        input: input.as_slice(),
        piece: 4096,
        ..site(SETTINGS, "")
    };
    let due = thousand_pages(alloc)?;
    let (status, output, entries) = run(alloc, &words, &long)?;
    assert_eq!(rt; status, Status::Done);
    assert_eq!(rt; output.items(), due.as_slice());
    assert_eq!(rt; entries.len(), 1001);
    Ok(())
}
