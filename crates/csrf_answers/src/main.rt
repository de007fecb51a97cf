//! Says what `csrf_tokens` answers, for `scripts/compare-django-csrf`. Each line of input is a request to
//! `example.com` that changes something, as six texts with tabs between: `https` or `http`, then its
//! Origin, its Referer, its CSRF cookie, its form field and its X-CSRFToken field. A text that is given
//! has `=` before it. The site trusts `https://*.example.org` and `https://trusted.example.net`. The
//! answer is `passes` or the name of the reason.
#![tactic(auto)]

use crypto_text::Text;
use csrf_tokens::{CsrfReason, CsrfView, Trusted, check};
use std::alloc::{AllocError, Global};
use std::io;

fn main(rt: HostRuntime) -> io::Result<()> {
    let trusted = trusted(rt.alloc())?;
    for line in rt.lines(rt.alloc()) {
        let line = line?;
        match answer(line.as_str(), trusted.as_slice()) {
            Some(Ok(())) => println!(rt; "passes")?,
            Some(Err(reason)) => println!(rt; "{reason:?}")?,
            None => println!(rt; "the line has not six texts")?,
        }
    }
    Ok(())
}

fn trusted(alloc: Global) -> Result<[Trusted; 2], AllocError> {
    Ok([
        Trusted {
            scheme: Text::of(alloc, "https")?,
            netloc: Text::of(alloc, ".example.org")?,
            wild: true,
        },
        Trusted {
            scheme: Text::of(alloc, "https")?,
            netloc: Text::of(alloc, "trusted.example.net")?,
            wild: false,
        },
    ])
}

fn answer<'a>(line: &'a str, trusted: &'a [Trusted]) -> Option<Result<(), CsrfReason>> {
    let (scheme, rest) = line.split_once('\t')?;
    let (origin, rest) = rest.split_once('\t')?;
    let (referer, rest) = rest.split_once('\t')?;
    let (cookie, rest) = rest.split_once('\t')?;
    let (field, header) = rest.split_once('\t')?;
    Some(check(&CsrfView {
        safe: false,
        secure: scheme == "https",
        host: "example.com",
        origin: given(origin),
        referer: given(referer),
        cookie: given(cookie),
        field: given(field).unwrap_or(""),
        header: given(header),
        trusted,
    }))
}

fn given(text: &str) -> Option<&str> {
    text.strip_prefix('=')
}
