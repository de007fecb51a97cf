//! What a request shows to the check against forgery.

ghost use Rattle.std.specs.Prelude.{◌≡◌, [], option_copied, unwrap_or};
ghost use Rattle.csrf_tokens.specs.Verdict.{view_of};
ghost use Rattle.middleware_chain.specs.CsrfView.{csrf_view, is_https, is_secure};

use crate::fields::last_value;
use crate::request_cookie::csrf_cookie;
use crate::route::reads;
use crate::settings::Settings;
use crypto_text::Text;
use csrf_tokens::CsrfView;
use http_edge::{Field, Request};

/// What a request with these fields in its form shows.
#[tactic(auto, unfolding(crate::specs::CsrfView::csrf_view))]
pub fn csrf_view<'r>(
    settings: &'r Settings,
    request: &'r Request,
    fields: &'r [Field],
) -> CsrfView<'r>
    ensures { view_of result ≡ csrf_view settings.now request.now fields.now }
{
    CsrfView {
        safe: reads(request.method),
        secure: is_secure(settings, request),
        host: text_or_empty(request.host.as_ref()),
        origin: text_in(request.origin.as_ref()),
        referer: text_in(request.referer.as_ref()),
        cookie: csrf_cookie(request),
        field: last_value(fields, "csrfmiddlewaretoken"),
        header: text_in(request.csrf.as_ref()),
        trusted: settings.trusted.items(),
    }
}

fn is_secure(settings: &Settings, request: &Request) -> bool
    ensures { result ≡ is_secure settings.now request.now }
{
    settings.proxy_secure && is_https(request.proto.as_ref())
}

fn is_https(proto: Option<&Text>) -> bool
    ensures { result ≡ is_https (option_copied proto.entry) }
{
    match proto {
        Some(proto) => proto.as_str() == "https",
        None => false,
    }
}

fn text_in(text: Option<&Text>) -> Option<&str>
    ensures { option_copied result ≡ option_copied text.entry }
{
    match text {
        Some(text) => Some(text.as_str()),
        None => None,
    }
}

fn text_or_empty(text: Option<&Text>) -> &str
    ensures { result.now ≡ unwrap_or (option_copied text.entry) [] }
{
    match text {
        Some(text) => text.as_str(),
        None => "",
    }
}
