//! URLs, as far as origins and referers need them.

ghost use Rattle.std.specs.Prelude.{◌≡◌};
ghost use Rattle.std.specs.List.{list_all};
ghost use Rattle.std.specs.Option.{option_copied, option_map};
ghost use Rattle.csrf_tokens.specs.Urls.{after_slashes, is_scheme, is_scheme_byte, netloc_of, url_of, url_parts, url_with};

use crate::marks::{after_mark, up_to};
use crypto_text::cut_at_first;

/// A URL in parts.
#[derive(Clone, Copy, Debug, PartialEq, Eq)]
pub struct UrlParts<'a> {
    pub scheme: &'a str,
    /// Host and port, and what may come before them (RFC 3986 calls it authority).
    pub netloc: &'a str,
}

/// The scheme and the network location of a URL: what comes before the first `://`, and what follows it
/// up to a `/`, a `?`, a `#` or the end. A text without both has none. Case stays as it is.
#[tactic(auto, unfolding(crate::specs::Urls::url_parts))]
pub fn url_parts(text: &str) -> Option<UrlParts<'_>>
    ensures { option_map url_of result ≡ url_parts text.now }
{
    match cut_at_first(text, ':') {
        Some((scheme, after_colon)) => match after_slashes(after_colon) {
            Some(rest) => url_with(scheme, netloc_of(rest)),
            None => None,
        },
        None => None,
    }
}

fn url_with<'a>(scheme: &'a str, netloc: &'a str) -> Option<UrlParts<'a>>
    ensures { option_map url_of result ≡ url_with scheme.now netloc.now }
{
    if is_scheme(scheme.as_bytes()) && !netloc.is_empty() {
        Some(UrlParts { scheme, netloc })
    } else {
        None
    }
}

fn after_slashes(text: &str) -> Option<&str>
    ensures { option_copied result ≡ after_slashes text.now }
{
    after_mark(after_mark(text, '/')?, '/')
}

fn netloc_of(rest: &str) -> &str
    ensures { result.now ≡ netloc_of rest.now }
{
    up_to(up_to(up_to(rest, '/'), '?'), '#')
}

fn is_scheme(scheme: &[u8]) -> bool
    ensures { result ≡ is_scheme scheme.now }
{
    match scheme {
        [first, rest @ ..] => first.is_ascii_alphabetic() && are_scheme_bytes(rest),
        [] => false,
    }
}

fn are_scheme_bytes(bytes: &[u8]) -> bool
    ensures { result ≡ list_all is_scheme_byte bytes.now }
{
    bytes.iter().all(|&byte| is_scheme_byte(byte))
}

fn is_scheme_byte(byte: u8) -> bool
    ensures { result ≡ is_scheme_byte byte }
{
    byte.is_ascii_alphanumeric() || byte == b'+' || byte == b'-' || byte == b'.'
}
