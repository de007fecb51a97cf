//! The verdict on a request's protection against forgery.

ghost use Rattle.std.specs.Prelude.{◌≡◌, bytes_eq};
ghost use Rattle.std.specs.Option.{option_copied};
ghost use Rattle.csrf_tokens.specs.Verdict.{csrf_verdict, first_reason, fits_origin, is_good_netloc, is_good_origin, is_trusted_netloc, is_trusted_origin, origin_text, referer_lines, scheme_of, sent_token, source_lines, token_lines, view_of};

use crate::form::{TokenFault, format_of, matches, secret_of};
use crate::hosts::is_same_domain;
use crate::urls::url_parts;
use crypto_text::Text;
use thiserror::Error;

/// An origin that a site trusts, as one of Django's `CSRF_TRUSTED_ORIGINS`.
#[derive(Debug, Drop, PartialEq, Eq)]
pub struct Trusted {
    pub scheme: Text,
    /// Host and port. Of a wild entry, as `https://*.example.org`, what follows the star, from the dot on.
    pub netloc: Text,
    /// Whether each host that ends with `netloc` is trusted, and the one after its dot.
    pub wild: bool,
}

/// What a request shows to `check`. It has no `Debug`, so that no token is printed.
#[derive(Clone, Copy)]
pub struct CsrfView<'a> {
    /// Whether the method is GET, HEAD, OPTIONS or TRACE (RFC 9110, section 9.2.1).
    pub safe: bool,
    /// Whether the request came by HTTPS.
    pub secure: bool,
    /// The `Host` field.
    pub host: &'a str,
    /// The `Origin` field.
    pub origin: Option<&'a str>,
    /// The `Referer` field.
    pub referer: Option<&'a str>,
    /// The CSRF cookie.
    pub cookie: Option<&'a str>,
    /// The field `csrfmiddlewaretoken` of the body; empty where there is none.
    pub field: &'a str,
    /// The `X-CSRFToken` field.
    pub header: Option<&'a str>,
    /// The origins that the site trusts beside its own.
    pub trusted: &'a [Trusted],
}

/// Why a request is refused. `check` reports the first that holds, in this order.
#[derive(Clone, Copy, Debug, PartialEq, Eq, Error)]
pub enum CsrfReason {
    #[error("the origin is neither the site's own nor a trusted one")]
    BadOrigin,
    #[error("a secure request has neither an origin nor a referer")]
    NoReferer,
    #[error("the referer is no URL with a host")]
    MalformedReferer,
    #[error("the referer of a secure request is insecure")]
    InsecureReferer,
    #[error("the referer is neither the site's own nor a trusted one")]
    BadReferer,
    #[error("the CSRF cookie has neither 32 nor 64 bytes")]
    CookieLength,
    #[error("the CSRF cookie has other characters than letters and digits")]
    CookieCharacters,
    #[error("there is no CSRF cookie")]
    NoCookie,
    #[error("there is no CSRF token")]
    TokenMissing,
    #[error("the CSRF token has neither 32 nor 64 bytes")]
    TokenLength,
    #[error("the CSRF token has other characters than letters and digits")]
    TokenCharacters,
    #[error("the CSRF token isn't the cookie's")]
    TokenIncorrect,
}

/// Whether a request may change something, as Django's `CsrfViewMiddleware`: where it comes from is asked
/// first, then whether its token carries the secret of its cookie. The first reason is reported, and
/// nothing after it is looked at.
#[tactic(auto, unfolding(crate::specs::Verdict::csrf_verdict))]
pub fn check(view: &CsrfView<'_>) -> Result<(), CsrfReason>
    ensures { result ≡ csrf_verdict (view_of view.now) }
{
    if view.safe {
        return Ok(());
    }
    match check_source(view) {
        Ok(()) => check_token(view),
        Err(reason) => Err(reason),
    }
}

fn check_source(view: &CsrfView<'_>) -> Result<(), CsrfReason>
    ensures { result ≡ first_reason (source_lines (view_of view.now)) }
{
    match view.origin {
        Some(origin) if is_good_origin(view, origin) => Ok(()),
        Some(_) => Err(CsrfReason::BadOrigin),
        None if view.secure => check_referer(view),
        None => Ok(()),
    }
}

fn check_referer(view: &CsrfView<'_>) -> Result<(), CsrfReason>
    ensures { result ≡ first_reason (referer_lines (view_of view.now)) }
{
    let Some(referer) = view.referer else {
        return Err(CsrfReason::NoReferer);
    };
    let Some(url) = url_parts(referer) else {
        return Err(CsrfReason::MalformedReferer);
    };
    if url.scheme != "https" {
        return Err(CsrfReason::InsecureReferer);
    }
    if is_good_netloc(view, url.netloc) {
        Ok(())
    } else {
        Err(CsrfReason::BadReferer)
    }
}

fn check_token(view: &CsrfView<'_>) -> Result<(), CsrfReason>
    ensures { result ≡ first_reason (token_lines (view_of view.now)) }
{
    let Some(cookie) = view.cookie else {
        return Err(CsrfReason::NoCookie);
    };
    let kept = match format_of(cookie) {
        Ok(form) => form,
        Err(TokenFault::Length) => return Err(CsrfReason::CookieLength),
        Err(TokenFault::Characters) => return Err(CsrfReason::CookieCharacters),
    };
    let Some(token) = sent_token(view) else {
        return Err(CsrfReason::TokenMissing);
    };
    let sent = match format_of(token) {
        Ok(form) => form,
        Err(TokenFault::Length) => return Err(CsrfReason::TokenLength),
        Err(TokenFault::Characters) => return Err(CsrfReason::TokenCharacters),
    };
    if matches(&sent, &secret_of(&kept)) {
        Ok(())
    } else {
        Err(CsrfReason::TokenIncorrect)
    }
}

// Ajax requests send the token in a header.
fn sent_token<'a>(view: &CsrfView<'a>) -> Option<&'a str>
    ensures { option_copied result ≡ sent_token (view_of view.now) }
{
    if view.field.is_empty() {
        view.header
    } else {
        Some(view.field)
    }
}

#[tactic(auto, unfolding(crate::specs::Verdict::is_good_origin))]
fn is_good_origin(view: &CsrfView<'_>, origin: &str) -> bool
    ensures { result ≡ is_good_origin (view_of view.now) origin.now }
{
    is_origin(origin, scheme_of(view.secure), view.host) || is_trusted_origin(view.trusted, origin)
}

fn is_trusted_origin(trusted: &[Trusted], origin: &str) -> bool
    ensures { result ≡ is_trusted_origin trusted.now origin.now }
{
    trusted.iter().any(|entry| fits_origin(entry, origin))
}

fn scheme_of(secure: bool) -> &'static str
    ensures { result.now ≡ scheme_of secure }
{
    if secure { "https" } else { "http" }
}

/// Whether a text is the origin (RFC 6454, section 6.1) of this scheme and network location, byte for byte.
pub fn is_origin(origin: &str, scheme: &str, netloc: &str) -> bool
    ensures { result ≡ bytes_eq origin.now (origin_text scheme.now netloc.now) }
{
    match origin.as_bytes().strip_prefix(scheme.as_bytes()) {
        Some(rest) => match rest.strip_prefix(b"://") {
            Some(rest) => rest == netloc.as_bytes(),
            None => false,
        },
        None => false,
    }
}

fn fits_origin(entry: &Trusted, origin: &str) -> bool
    ensures { result ≡ fits_origin entry.now origin.now }
{
    if !entry.wild {
        return is_origin(origin, entry.scheme.as_str(), entry.netloc.as_str());
    }
    match url_parts(origin) {
        Some(url) => url.scheme == entry.scheme.as_str()
            && is_same_domain(url.netloc, entry.netloc.as_str()),
        None => false,
    }
}

#[tactic(auto, unfolding(crate::specs::Verdict::is_good_netloc))]
fn is_good_netloc(view: &CsrfView<'_>, netloc: &str) -> bool
    ensures { result ≡ is_good_netloc (view_of view.now) netloc.now }
{
    is_same_domain(netloc, view.host) || is_trusted_netloc(view.trusted, netloc)
}

fn is_trusted_netloc(trusted: &[Trusted], netloc: &str) -> bool
    ensures { result ≡ is_trusted_netloc trusted.now netloc.now }
{
    trusted
        .iter()
        .any(|entry| is_same_domain(netloc, entry.netloc.as_str()))
}
