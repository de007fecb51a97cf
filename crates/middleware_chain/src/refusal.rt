//! Why a request is refused before any step, and the page that it gets.

ghost use Rattle.std.specs.Prelude.{◌≡◌, IfOk};
ghost use Rattle.http_edge.specs.ResponseText.{IsStatus};
ghost use Rattle.middleware_chain.specs.Refusal.{csrf_body, refusal_page};

use crate::page::{delivery_of, plain_page};
use crate::route::{Methods, allow_text};
use crate::slash_target::slash_target;
use crypto_text::Text;
use csrf_tokens::CsrfReason;
use http_edge::{Request, Response};
use std::alloc::{AllocError, Global};

/// Why a request is refused before any step, in the order in which the causes are looked for.
#[derive(Clone, Copy, Debug, PartialEq, Eq)]
pub enum Refusal {
    /// The host isn't one of the site's, or there is none.
    BadHost,
    /// The path is that of a route without its last slash.
    NoSlash,
    NoRoute,
    /// The route takes these methods and not the request's.
    OtherMethod { methods: Methods },
    /// The query or the form has more than 1,000 fields.
    TooManyFields,
    /// The request may be forged.
    Csrf { reason: CsrfReason },
}

/// The page of a request that is refused.
#[tactic(auto, unfolding(http_edge::specs::ResponseText::reason_phrase))]
pub fn refusal_page(
    alloc: Global,
    refusal: Refusal,
    request: &Request,
) -> Result<Response, AllocError>
    ensures value { IfOk result (λ page. page ≡ refusal_page refusal request.now) }
    ensures status { IfOk result (λ page. IsStatus page.status) }
{
    let delivery = delivery_of(request);
    match refusal {
        Refusal::BadHost => plain_page(alloc, 400, "error=bad-host\n", delivery),
        Refusal::NoSlash => Ok(Response {
            location: Some(slash_target(alloc, request)?),
            ..plain_page(alloc, 301, "", delivery)?
        }),
        Refusal::NoRoute => plain_page(alloc, 404, "error=no-route\n", delivery),
        Refusal::OtherMethod { methods } => Ok(Response {
            allow: Some(Text::of(alloc, allow_text(methods))?),
            ..plain_page(alloc, 405, "error=method\n", delivery)?
        }),
        Refusal::TooManyFields => plain_page(alloc, 400, "error=too-many-fields\n", delivery),
        Refusal::Csrf { reason } => plain_page(alloc, 403, csrf_body(reason), delivery),
    }
}

#[tactic(auto, unfolding(crate::specs::Refusal::csrf_body))]
fn csrf_body(reason: CsrfReason) -> &'static str
    ensures { result.now ≡ csrf_body reason }
{
    match reason {
        CsrfReason::BadOrigin => "error=csrf-bad-origin\n",
        CsrfReason::NoReferer => "error=csrf-no-referer\n",
        CsrfReason::MalformedReferer => "error=csrf-malformed-referer\n",
        CsrfReason::InsecureReferer => "error=csrf-insecure-referer\n",
        CsrfReason::BadReferer => "error=csrf-bad-referer\n",
        CsrfReason::NoCookie => "error=csrf-no-cookie\n",
        CsrfReason::CookieLength => "error=csrf-cookie-length\n",
        CsrfReason::CookieCharacters => "error=csrf-cookie-characters\n",
        CsrfReason::TokenMissing => "error=csrf-token-missing\n",
        CsrfReason::TokenLength => "error=csrf-token-length\n",
        CsrfReason::TokenCharacters => "error=csrf-token-characters\n",
        CsrfReason::TokenIncorrect => "error=csrf-token-incorrect\n",
    }
}
