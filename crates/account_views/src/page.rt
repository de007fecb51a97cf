//! The page of a view, and the response that it becomes.

ghost use Rattle.std.specs.Prelude.{◌≡◌, ◌≤◌, ◌++◌, IfOk, option_to_list, string_bytes};
ghost use Rattle.outside.specs.RandomWords.{words_from};
ghost use Rattle.account_views.specs.Page.{cookie_age, csrf_cookies, csrf_text, form_page, page_response, redirect_page, session_text, text_page, token_line, unwritten_response};

use crate::facts::Facts;
use crate::random_texts::{new_secret, token_mask};
use auth_backends::SessionBox;
use cookie_text::{CookieOut, set_cookie_text};
use crypto_text::{Text, TextList};
use http_edge::Response;
use middleware_chain::{Secret, Settings, plain_page};
use outside::Words;
use session_codec::Expiry;
use std::alloc::{AllocError, Global};

const CSRF_AGE: u64 = 31_449_600;

/// What a view shows. It has no `Debug`, so that no secret is printed.
#[derive(Drop)]
pub struct Page {
    pub status: u16,
    pub body: Text,
    pub location: Option<Text>,
    /// The CSRF secret of which the page has a token, and which its cookie is set to.
    pub secret: Option<Secret>,
}

/// What a view leaves: its page, and the session as it is to be written.
#[derive(Drop)]
pub struct Viewed {
    pub page: Page,
    pub session: SessionBox,
}

/// A page without a form.
pub fn text_page(alloc: Global, status: u16, body: &str) -> Result<Page, AllocError>
    ensures { IfOk result (λ page. page ≡ text_page status body.now) }
{
    Ok(Page {
        status,
        body: Text::of(alloc, body)?,
        location: None,
        secret: None,
    })
}

/// A page with a form and these lines. `secret` is that of the CSRF cookie; without one the page gets a new one.
pub fn form_page<W: Words>(
    alloc: Global,
    words: &W,
    secret: Option<Secret>,
    lines: &str,
) -> Result<Page, AllocError>
    ensures { IfOk result (λ page. page ≡ form_page (words_from (W.seen words.now) 1024) secret lines.now) }
{
    let secret = match secret {
        Some(secret) => secret,
        None => new_secret(alloc, words)?,
    };
    let mut body = token_line(alloc, words, &secret)?;
    body.push_str(lines)?;
    Ok(Page {
        status: 200,
        body: Text::from_string(body),
        location: None,
        secret: Some(secret),
    })
}

fn token_line<W: Words>(alloc: Global, words: &W, secret: &Secret) -> Result<String, AllocError>
    ensures { IfOk result (λ text. string_bytes text ≡ token_line (words_from (W.seen words.now) 1024) secret.now) }
{
    let token = secret.token(alloc, &token_mask(alloc, words)?)?;
    let mut text = String::from_str(alloc, "csrf=")?;
    text.push_str(token.as_str())?;
    text.push_str("\n")?;
    Ok(text)
}

/// A redirect without a body. Takes no memory.
pub fn redirect_page(alloc: Global, location: Text, secret: Option<Secret>) -> Page
    ensures { result ≡ redirect_page location secret }
{
    Page {
        status: 302,
        body: Text::from_string(String::new(alloc)),
        location: Some(location),
        secret,
    }
}

/// The response with a page. The cookie of its secret comes before this one.
pub fn page_response(
    alloc: Global,
    settings: &Settings,
    facts: &Facts,
    page: Page,
    cookie: Option<Text>,
) -> Result<Response, AllocError>
    ensures { IfOk result (λ response. response ≡ page_response settings.now facts.now page (option_to_list cookie)) }
{
    let cookies = cookies_of(alloc, settings, facts, &page.secret, cookie)?;
    Ok(Response {
        status: page.status,
        body: page.body,
        location: page.location,
        allow: None,
        vary: true,
        cookies,
        keep: facts.delivery.keep,
        head_only: facts.delivery.head_only,
    })
}

fn cookies_of(
    alloc: Global,
    settings: &Settings,
    facts: &Facts,
    secret: &Option<Secret>,
    cookie: Option<Text>,
) -> Result<TextList, AllocError>
    ensures { IfOk result (λ cookies. cookies ≡ csrf_cookies settings.now facts.now secret.now ++ option_to_list cookie) }
{
    let mut cookies = Vec::new(alloc);
    if let Some(secret) = secret {
        cookies.push(csrf_text(alloc, settings, facts, secret)?)?;
    }
    if let Some(cookie) = cookie {
        cookies.push(cookie)?;
    }
    Ok(TextList::from_vec(cookies))
}

fn csrf_text(
    alloc: Global,
    settings: &Settings,
    facts: &Facts,
    secret: &Secret,
) -> Result<Text, AllocError>
    ensures { IfOk result (λ text. text ≡ csrf_text settings.now facts.now secret.now) }
{
    let cookie = CookieOut {
        name: "csrftoken",
        value: secret.as_str(),
        age: Some(CSRF_AGE),
        now: facts.moment.seconds(),
        http_only: false,
        secure: settings.cookie_secure,
    };
    set_cookie_text(alloc, &cookie)
}

/// The text of a session's cookie. The session lasts so long.
pub fn session_text(
    alloc: Global,
    settings: &Settings,
    facts: &Facts,
    expiry: Expiry,
    value: &str,
) -> Result<Text, AllocError>
    requires { expiry.seconds ≤ 3_153_600_000 }
    ensures { IfOk result (λ text. text ≡ session_text settings.now facts.now expiry value.now) }
{
    let cookie = CookieOut {
        name: "sessionid",
        value,
        age: cookie_age(expiry),
        now: facts.moment.seconds(),
        http_only: true,
        secure: settings.cookie_secure,
    };
    set_cookie_text(alloc, &cookie)
}

fn cookie_age(expiry: Expiry) -> Option<u64>
    ensures { result ≡ cookie_age expiry }
{
    if expiry.at_close {
        None
    } else {
        Some(expiry.seconds)
    }
}

/// The response to a request whose session couldn't be written: no cookie is set.
pub fn unwritten_response(
    alloc: Global,
    facts: &Facts,
    status: u16,
    body: &str,
) -> Result<Response, AllocError>
    ensures { IfOk result (λ response. response ≡ unwritten_response facts.now status body.now) }
{
    Ok(Response {
        vary: true,
        ..plain_page(alloc, status, body, facts.delivery)?
    })
}
