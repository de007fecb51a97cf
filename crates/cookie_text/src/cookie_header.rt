//! The cookies that a client sends.

ghost use Rattle.std.specs.Prelude.{◌≡◌, ◌==◌, ◌&&◌, IfOk, length};
ghost use Rattle.std.specs.Option.{option_copied};
ghost use Rattle.crypto_text.specs.WhiteSpace.{trimmed};
ghost use Rattle.cookie_text.specs.CookieHeader.{name_part, named_value, pairs_of, value_of, value_part};

use crypto_text::{Text, trimmed};
use std::alloc::{AllocError, Global};

/// A cookie that a client sent. The name is empty where the client sent none.
#[derive(Debug, Drop, PartialEq, Eq)]
pub struct Cookie {
    pub name: Text,
    pub value: Text,
}

/// The cookies of a `Cookie` header, in its order, as Django's `parse_cookie` cuts it: at each
/// semicolon, then at the first equals sign, without the white space around. Pieces with nothing
/// in them are dropped. Quotes and escapes stay.
pub fn parse_cookies(alloc: Global, header: &str) -> Result<Vec<Cookie>, AllocError>
    ensures { IfOk result (λ cookies. cookies.items ≡ pairs_of header.now) }
{
    let mut cookies = Vec::new(alloc);
    for piece in header.split(';') {
        let (name, value) = parts_of(piece);
        if !is_blank(name, value) {
            cookies.push(Cookie {
                name: Text::of(alloc, name)?,
                value: Text::of(alloc, value)?,
            })?;
        }
    }
    Ok(cookies)
}

/// The value of a name. Where a client sent the name more than once, the last counts.
pub fn find<'a>(cookies: &'a [Cookie], name: &str) -> Option<&'a str>
    ensures { option_copied result ≡ value_of cookies.now name.now }
{
    cookies
        .iter()
        .rev()
        .find(|cookie| cookie.name.as_str() == name)
        .map(|cookie| cookie.value.as_str())
}

/// The value of a name in a `Cookie` header, as `find` gives it of what `parse_cookies` makes of
/// the header. Takes no memory.
pub fn cookie_value<'a>(header: &'a str, name: &str) -> Option<&'a str>
    ensures { option_copied result ≡ value_of (pairs_of header.now) name.now }
{
    let mut found = None;
    for piece in header.split(';') {
        if let Some(value) = value_in(piece, name) {
            found = Some(value);
        }
    }
    found
}

fn value_in<'a>(piece: &'a str, wanted: &str) -> Option<&'a str>
    ensures { option_copied result ≡ named_value piece.now wanted.now }
{
    let (name, value) = parts_of(piece);
    if is_blank(name, value) {
        return None;
    }
    if name == wanted {
        return Some(value);
    }
    None
}

fn parts_of(piece: &str) -> (&str, &str)
    ensures name { result.0.now ≡ trimmed (name_part piece.now) }
    ensures value { result.1.now ≡ trimmed (value_part piece.now) }
{
    match piece.split_once('=') {
        Some((name, value)) => (trimmed(name), trimmed(value)),
        None => ("", trimmed(piece)),
    }
}

fn is_blank(name: &str, value: &str) -> bool
    ensures { result ≡ ((length name.now == 0) && (length value.now == 0)) }
{
    name.is_empty() && value.is_empty()
}
