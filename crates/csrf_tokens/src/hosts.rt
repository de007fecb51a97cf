//! Hosts: their domain and port, and which of them a site answers to.

ghost use Rattle.std.specs.Prelude.{◌≡◌, bytes_eq, nat_eq};
ghost use Rattle.std.specs.Char.{is_ascii_digit, is_ascii_hexdigit};
ghost use Rattle.std.specs.List.{ends_with, list_all, list_any};
ghost use Rattle.std.specs.Option.{option_copied, option_map};
ghost use Rattle.csrf_tokens.specs.Hosts.{domain_of, host_allowed, host_of, is_address, is_address_byte, is_address_rest, is_allowed_domain, is_host_name, is_literal, is_name_byte, is_plain_name, is_port, is_same_domain, lowered, matches_pattern, name_part, port_of, rest_part, split_host};

use crate::marks::{after_mark, before_mark, cut_after, cut_before};
use crypto_text::{TextList, cut_at_first};

/// A host in parts.
#[derive(Clone, Copy, Debug, PartialEq, Eq)]
pub struct HostParts<'a> {
    /// Without one dot at its end. It is empty where the host is a dot.
    pub domain: &'a str,
    /// Its digits; empty where none is given.
    pub port: &'a str,
}

/// The domain and the port of a `Host` field, as Django's `split_domain_port`: a name of ASCII letters,
/// digits, dots and hyphens or an IPv6 address in brackets, then nothing or a colon and digits. Anything
/// else has none.
#[tactic(auto, unfolding(crate::specs::Hosts::split_host))]
pub fn split_host(host: &str) -> Option<HostParts<'_>>
    ensures { option_map host_of result ≡ split_host host.now }
{
    let (name, rest) = name_and_rest(host);
    if !is_host_name(name) {
        return None;
    }
    match port_of(rest) {
        Some(port) => Some(HostParts {
            domain: domain_of(name),
            port,
        }),
        None => None,
    }
}

/// Whether a host matches a pattern, as Django's `is_same_domain`: it is the pattern, or the pattern
/// begins with a dot and the host is what follows the dot or ends with the pattern. ASCII letters are
/// compared without case, which for the host is this project's own.
#[tactic(auto, unfolding(crate::specs::Hosts::is_same_domain))]
pub fn is_same_domain(host: &str, pattern: &str) -> bool
    ensures { result ≡ is_same_domain host.now pattern.now }
{
    match after_mark(pattern, '.') {
        Some(rest) => ends_with(host.as_bytes(), pattern.as_bytes()) || is_same(host, rest),
        None => !pattern.is_empty() && is_same(host, pattern),
    }
}

/// Whether a site answers to a host, as Django's `get_host` with `ALLOWED_HOSTS`: one of the patterns
/// is `*` or matches the host's domain. The port isn't compared.
#[tactic(auto, unfolding(crate::specs::Hosts::host_allowed))]
pub fn host_allowed(host: &str, allowed: &TextList) -> bool
    ensures { result ≡ host_allowed host.now allowed.now }
{
    match split_host(host) {
        Some(parts) => is_allowed_domain(parts.domain, allowed),
        None => false,
    }
}

fn is_allowed_domain(domain: &str, allowed: &TextList) -> bool
    ensures { result ≡ is_allowed_domain allowed.now domain.now }
{
    !domain.is_empty() && is_listed(domain, allowed)
}

fn is_listed(domain: &str, allowed: &TextList) -> bool
    ensures { result ≡ list_any (matches_pattern domain.now) allowed.now }
{
    allowed
        .items()
        .iter()
        .any(|pattern| matches_pattern(domain, pattern.as_str()))
}

fn matches_pattern(domain: &str, pattern: &str) -> bool
    ensures { result ≡ matches_pattern domain.now pattern.now }
{
    pattern == "*" || is_same_domain(domain, pattern)
}

fn is_same(a: &str, b: &str) -> bool
    ensures { result ≡ bytes_eq (lowered a.now) (lowered b.now) }
{
    a.eq_ignore_ascii_case(b)
}

fn ends_with(host: &[u8], end: &[u8]) -> bool
    ensures { result ≡ ends_with nat_eq (lowered host.now) (lowered end.now) }
{
    host.len() >= end.len() && end.eq_ignore_ascii_case(&host[host.len() - end.len()..])
}

// The name ends with the first `]` where it begins with `[`, else before the first colon.
#[tactic(auto, unfolding(crate::specs::Hosts::name_part, crate::specs::Hosts::rest_part))]
fn name_and_rest(host: &str) -> (&str, &str)
    ensures name { result.0.now ≡ name_part host.now }
    ensures rest { result.1.now ≡ rest_part host.now }
{
    match after_mark(host, '[') {
        Some(_) => cut_after(host, ']'),
        None => cut_before(host, ':'),
    }
}

fn is_host_name(name: &str) -> bool
    ensures { result ≡ is_host_name name.now }
{
    is_plain_name(name.as_bytes()) || is_literal(name)
}

fn is_plain_name(name: &[u8]) -> bool
    ensures { result ≡ is_plain_name name.now }
{
    !name.is_empty() && are_name_bytes(name)
}

fn are_name_bytes(bytes: &[u8]) -> bool
    ensures { result ≡ list_all is_name_byte bytes.now }
{
    bytes.iter().all(|&byte| is_name_byte(byte))
}

fn is_name_byte(byte: u8) -> bool
    ensures { result ≡ is_name_byte byte }
{
    byte.is_ascii_alphanumeric() || byte == b'.' || byte == b'-'
}

#[tactic(auto, unfolding(crate::specs::Hosts::is_literal))]
fn is_literal(name: &str) -> bool
    ensures { result ≡ is_literal name.now }
{
    match after_mark(name, '[') {
        Some(rest) => match before_mark(rest, ']') {
            Some(address) => is_address(address),
            None => false,
        },
        None => false,
    }
}

#[tactic(auto, unfolding(crate::specs::Hosts::is_address))]
fn is_address(text: &str) -> bool
    ensures { result ≡ is_address text.now }
{
    match cut_at_first(text, ':') {
        Some((group, rest)) => are_hex_digits(group.as_bytes()) && is_address_rest(rest.as_bytes()),
        None => false,
    }
}

fn is_address_rest(rest: &[u8]) -> bool
    ensures { result ≡ is_address_rest rest.now }
{
    !rest.is_empty() && are_address_bytes(rest)
}

fn are_hex_digits(bytes: &[u8]) -> bool
    ensures { result ≡ list_all is_ascii_hexdigit bytes.now }
{
    bytes.iter().all(|byte| byte.is_ascii_hexdigit())
}

fn are_address_bytes(bytes: &[u8]) -> bool
    ensures { result ≡ list_all is_address_byte bytes.now }
{
    bytes.iter().all(|&byte| is_address_byte(byte))
}

fn is_address_byte(byte: u8) -> bool
    ensures { result ≡ is_address_byte byte }
{
    byte.is_ascii_hexdigit() || byte == b'.' || byte == b':'
}

fn port_of(rest: &str) -> Option<&str>
    ensures { option_copied result ≡ port_of rest.now }
{
    if rest.is_empty() {
        return Some("");
    }
    match after_mark(rest, ':') {
        Some(digits) if is_port(digits.as_bytes()) => Some(digits),
        _ => None,
    }
}

fn is_port(digits: &[u8]) -> bool
    ensures { result ≡ is_port digits.now }
{
    !digits.is_empty() && are_digits(digits)
}

fn are_digits(bytes: &[u8]) -> bool
    ensures { result ≡ list_all is_ascii_digit bytes.now }
{
    bytes.iter().all(|byte| byte.is_ascii_digit())
}

fn domain_of(name: &str) -> &str
    ensures { result.now ≡ domain_of name.now }
{
    match before_mark(name, '.') {
        Some(domain) => domain,
        None => name,
    }
}
