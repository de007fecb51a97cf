mod forms;
mod refusals;

use super::*;
use crypto_text::{Bytes, Text, TextList};
use csrf_tokens::Trusted;
use http_edge::{EdgeFault, Method, Request, Response};
use ledger_rows::{Cfg, Engine, RowList};
use pass_hashers::Hasher;
use std::alloc::{AllocError, Global};
use std::test::Fail;

// Without a clause, so that no proof spells out what a text of the tests says.
fn text_of(alloc: Global, text: &str) -> Result<Text, AllocError> {
    Text::of(alloc, text)
}

fn optional_text(alloc: Global, text: Option<&str>) -> Result<Option<Text>, AllocError> {
    match text {
        Some(text) => Ok(Some(text_of(alloc, text)?)),
        None => Ok(None),
    }
}

/// Of a site whose one host is `example.com`, with a trusted origin and a proxy before it.
fn settings_of(alloc: Global) -> Result<Settings, AllocError> {
    let hosts = [text_of(alloc, "example.com")?];
    let mut trusted = Vec::new(alloc);
    trusted.push(Trusted {
        scheme: text_of(alloc, "https")?,
        netloc: text_of(alloc, ".example.org")?,
        wild: true,
    })?;
    Ok(Settings {
        cfg: Cfg {
            engine: Engine::Db,
            backends: RowList::from_vec(Vec::new(alloc)),
            installed: RowList::from_vec(Vec::new(alloc)),
            preferred: Hasher::Md5,
        },
        allowed: TextList::of(alloc, &hosts)?,
        trusted: RowList::from_vec(trusted),
        proxy_secure: true,
        cookie_secure: false,
        common: TextList::from_vec(Vec::new(alloc)),
    })
}

/// A request, by what the checks look at.
#[derive(Clone, Copy)]
struct Asked<'a> {
    method: Method,
    host: Option<&'a str>,
    path: &'a str,
    query: Option<&'a str>,
    cookie: Option<&'a str>,
    proto: Option<&'a str>,
    referer: Option<&'a str>,
    form: Option<&'a str>,
}

const WHOAMI: Asked<'static> = Asked {
    method: Method::Get,
    host: Some("example.com"),
    path: "/whoami/",
    query: None,
    cookie: None,
    proto: None,
    referer: None,
    form: None,
};

fn request_of(alloc: Global, asked: &Asked<'_>) -> Result<Request, AllocError> {
    Ok(Request {
        method: asked.method,
        path: text_of(alloc, asked.path)?,
        query: text_of(alloc, asked.query.unwrap_or(""))?,
        has_query: asked.query.is_some(),
        host: optional_text(alloc, asked.host)?,
        cookie: optional_text(alloc, asked.cookie)?,
        origin: None,
        referer: optional_text(alloc, asked.referer)?,
        csrf: None,
        proto: optional_text(alloc, asked.proto)?,
        form: asked.form.is_some(),
        body: Bytes::of(alloc, asked.form.unwrap_or("").as_bytes())?,
        keep: true,
    })
}

fn page_of(alloc: Global, status: u16, body: &str) -> Result<Response, AllocError> {
    Ok(Response {
        status,
        body: text_of(alloc, body)?,
        location: None,
        allow: None,
        vary: false,
        cookies: TextList::from_vec(Vec::new(alloc)),
        keep: true,
        head_only: false,
    })
}

// None where the request goes on.
fn answer_to(alloc: Global, asked: &Asked<'_>) -> Result<Option<Response>, AllocError> {
    let settings = settings_of(alloc)?;
    let request = request_of(alloc, asked)?;
    match begin(alloc, &settings, &request)? {
        Begun::Answer(response) => Ok(Some(response)),
        Begun::Go(_) => Ok(None),
    }
}

#[test]
fn a_request_goes_on_with_its_last_session_cookie(rt: HostRuntime) -> Result<(), Fail> {
    let alloc = rt.alloc();
    let settings = settings_of(alloc)?;
    for (header, due) in [
        (None, None),
        (Some("csrftoken=c"), None),
        (Some("sessionid=a; csrftoken=c; sessionid=b"), Some("b")),
    ] {
        let asked = Asked {
            method: Method::Head,
            cookie: header,
            ..WHOAMI
        };
        match begin(alloc, &settings, &request_of(alloc, &asked)?)? {
            Begun::Go(context) => {
                assert!(rt;
                    context.session == optional_text(alloc, due)?,
                    "{:?}",
                    header
                );
            }
            Begun::Answer(_) => panic!(rt; "the request is refused"),
        }
    }
    Ok(())
}

#[test]
fn a_connection_ends_with_the_page_of_a_fault(rt: HostRuntime) -> Result<(), Fail> {
    let alloc = rt.alloc();
    for (fault, status, body) in [
        (EdgeFault::BadHead, 400, "error=bad-head\n"),
        (EdgeFault::HeadTooLong, 431, "error=head-too-long\n"),
        (EdgeFault::TransferCoding, 501, "error=transfer-coding\n"),
        (EdgeFault::ContentCoding, 415, "error=content-coding\n"),
        (EdgeFault::NoLength, 411, "error=no-length\n"),
        (EdgeFault::BodyTooLong, 400, "error=body-too-long\n"),
        (EdgeFault::CutShort, 400, "error=cut-short\n"),
    ] {
        let page = Response {
            keep: false,
            ..page_of(alloc, status, body)?
        };
        assert_eq!(rt; fault_page(alloc, fault)?, Some(page), "{fault:?}");
    }
    Ok(())
}

#[test]
fn a_step_that_is_not_done_is_unavailable(rt: HostRuntime) -> Result<(), Fail> {
    let alloc = rt.alloc();
    let asked = Asked {
        method: Method::Head,
        ..WHOAMI
    };
    let request = request_of(alloc, &asked)?;
    for (page, body) in [
        (store_page(alloc, &request)?, "error=store\n"),
        (full_page(alloc, &request)?, "error=full\n"),
    ] {
        let due = Response {
            vary: true,
            head_only: true,
            ..page_of(alloc, 503, body)?
        };
        assert_eq!(rt; page, due, "{body}");
    }
    Ok(())
}
