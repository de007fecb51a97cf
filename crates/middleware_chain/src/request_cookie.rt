//! The cookies of a request that a site reads.

ghost use Rattle.std.specs.Prelude.{◌≡◌, IfOk, option_copied};
ghost use Rattle.middleware_chain.specs.RequestCookie.{csrf_cookie, request_cookie, secret_in, session_cookie};

use crate::secret::Secret;
use cookie_text::cookie_value;
use crypto_text::Text;
use csrf_tokens::{format_of, secret_of};
use http_edge::Request;
use std::alloc::{AllocError, Global};

/// The session cookie: `sessionid`, as Django's `SESSION_COOKIE_NAME`.
pub fn session_cookie(alloc: Global, request: &Request) -> Result<Option<Text>, AllocError>
    ensures { IfOk result (λ cookie. cookie ≡ session_cookie request.now.cookie) }
{
    match request_cookie(request, "sessionid") {
        Some(value) => Ok(Some(Text::of(alloc, value)?)),
        None => Ok(None),
    }
}

/// The CSRF cookie: `csrftoken`, as Django's `CSRF_COOKIE_NAME`.
pub fn csrf_cookie(request: &Request) -> Option<&str>
    ensures { option_copied result ≡ csrf_cookie request.now.cookie }
{
    request_cookie(request, "csrftoken")
}

/// The secret of the CSRF cookie, where that is in form.
pub fn csrf_secret(request: &Request) -> Option<Secret>
    ensures { result ≡ secret_in (csrf_cookie request.now.cookie) }
{
    match format_of(csrf_cookie(request)?) {
        Ok(form) => Some(Secret::of_letters(secret_of(&form))),
        Err(_) => None,
    }
}

#[tactic(auto, unfolding(crate::specs::RequestCookie::request_cookie))]
fn request_cookie<'r>(request: &'r Request, name: &str) -> Option<&'r str>
    ensures { option_copied result ≡ request_cookie name.now request.now.cookie }
{
    match &request.cookie {
        Some(header) => cookie_value(header.as_str(), name),
        None => None,
    }
}
