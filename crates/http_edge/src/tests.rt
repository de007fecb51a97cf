use super::*;
use crypto_text::{Text, TextList};
use std::test::Fail;

const WHOAMI: &str =
    "HTTP/1.1 200 OK\r\nContent-Type: text/plain; charset=utf-8\r\nContent-Length: 10\r\nVary: Cookie\r\nX-Content-Type-Options: nosniff\r\nReferrer-Policy: same-origin\r\nCross-Origin-Opener-Policy: same-origin\r\nX-Frame-Options: DENY\r\nConnection: keep-alive\r\n\r\nanonymous\n";

const REDIRECT: &str =
    "HTTP/1.1 302 Found\r\nContent-Type: text/plain; charset=utf-8\r\nContent-Length: 3\r\nLocation: /whoami/\r\nAllow: POST\r\nSet-Cookie: a=1\r\nSet-Cookie: b=2\r\nX-Content-Type-Options: nosniff\r\nReferrer-Policy: same-origin\r\nCross-Origin-Opener-Policy: same-origin\r\nX-Frame-Options: DENY\r\nConnection: close\r\n\r\n";

#[test]
fn a_page_has_its_fields_in_order(rt: HostRuntime) -> Result<(), Fail> {
    let alloc = rt.alloc();
    let page = Response {
        status: 200,
        body: Text::of(alloc, "anonymous\n")?,
        location: None,
        allow: None,
        vary: true,
        cookies: TextList::from_vec(Vec::new(alloc)),
        keep: true,
        head_only: false,
    };
    assert!(rt; is_status(page.status));
    assert_eq!(rt; response_text(alloc, &page)?.items(), WHOAMI.as_bytes());
    Ok(())
}

#[test]
fn what_is_not_there_is_left_out_and_the_length_stays(rt: HostRuntime) -> Result<(), Fail> {
    let alloc = rt.alloc();
    let cookies = [Text::of(alloc, "a=1")?, Text::of(alloc, "b=2")?];
    let redirect = Response {
        status: 302,
        body: Text::of(alloc, "abc")?,
        location: Some(Text::of(alloc, "/whoami/")?),
        allow: Some(Text::of(alloc, "POST")?),
        vary: false,
        cookies: TextList::of(alloc, &cookies)?,
        keep: false,
        head_only: true,
    };
    assert!(rt; is_status(redirect.status));
    assert_eq!(rt;
        response_text(alloc, &redirect)?.items(),
        REDIRECT.as_bytes()
    );
    assert!(rt; !is_status(418));
    Ok(())
}
