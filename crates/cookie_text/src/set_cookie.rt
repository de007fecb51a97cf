//! The texts of `Set-Cookie` headers.

ghost use Rattle.std.specs.Prelude.{◌≡◌, ◌<◌, ◌≤◌, ◌++◌, IfOk, IfSome, OnOk, string_bytes};
ghost use Rattle.cookie_text.specs.FixedDate.{fixed_date};
ghost use Rattle.cookie_text.specs.SetCookie.{deletion_text, expires, flag, max_age, sent_cookie, text_of};

use crypto_text::{LAST_MOMENT, Text};
use httpdate::{HttpDate, fmt_http_date};
use std::alloc::{AllocError, Global};

/// A cookie to set. Without an age it lives as long as the browser's session.
#[derive(Clone, Copy, Debug)]
pub struct CookieOut<'a> {
    pub name: &'a str,
    pub value: &'a str,
    /// In seconds from `now`.
    pub age: Option<u64>,
    /// In seconds since 1970, from which `expires` is counted.
    pub now: u64,
    pub http_only: bool,
    pub secure: bool,
}

/// The text that sets a cookie, as Django's `set_cookie` with `path=/` and `samesite=Lax`. Name
/// and value stand as they are given.
#[tactic(auto, unfolding(crate::specs::SetCookie::text_of))]
pub fn set_cookie_text(alloc: Global, cookie: &CookieOut<'_>) -> Result<Text, AllocError>
    requires now { cookie.now.now ≤ LAST_MOMENT }
    requires age { IfSome cookie.now.age (λ age. age ≤ 3_153_600_000) }
    ensures { IfOk result (λ text. text ≡ text_of (sent_cookie cookie.entry.now)) }
{
    let mut text = String::new(alloc);
    text.push_str(cookie.name)?;
    text.push_str("=")?;
    text.push_str(cookie.value)?;
    push_expires(alloc, &mut text, cookie.age, cookie.now)?;
    push_flag(&mut text, cookie.http_only, "; HttpOnly")?;
    push_max_age(alloc, &mut text, cookie.age)?;
    text.push_str("; Path=/; SameSite=Lax")?;
    push_flag(&mut text, cookie.secure, "; Secure")?;
    Ok(Text::from_string(text))
}

/// The text that makes a client forget a cookie, as Django's `delete_cookie`.
#[tactic(auto, unfolding(crate::specs::SetCookie::deletion_text))]
pub fn delete_cookie_text(alloc: Global, name: &str) -> Result<Text, AllocError>
    ensures { IfOk result (λ text. text ≡ deletion_text name.now) }
{
    let mut text = String::new(alloc);
    text.push_str(name)?;
    text.push_str("=\"\"; expires=Thu, 01 Jan 1970 00:00:00 GMT; Max-Age=0; Path=/; SameSite=Lax")?;
    Ok(Text::from_string(text))
}

fn push_expires(
    alloc: Global,
    text: &mut String,
    age: Option<u64>,
    now: u64,
) -> Result<(), AllocError>
    requires now { now ≤ LAST_MOMENT }
    requires age { IfSome age (λ age. age ≤ 3_153_600_000) }
    ensures { OnOk result (string_bytes text.new ≡ string_bytes text.old ++ expires age now) }
{
    let Some(age) = age else {
        return Ok(());
    };
    let date = date_of(alloc, now + age)?;
    text.push_str("; expires=")?;
    text.push_str(date.as_str())
}

fn date_of(alloc: Global, seconds: u64) -> Result<String, AllocError>
    requires { seconds ≤ 253_153_600_000 }
    ensures { IfOk result (λ date. string_bytes date ≡ fixed_date seconds) }
{
    match HttpDate::from_unix_secs(seconds) {
        Ok(date) => fmt_http_date(alloc, date),
        Err(_) => unreachable!(),
    }
}

fn push_max_age(alloc: Global, text: &mut String, age: Option<u64>) -> Result<(), AllocError>
    ensures { OnOk result (string_bytes text.new ≡ string_bytes text.old ++ max_age age) }
{
    let Some(age) = age else {
        return Ok(());
    };
    let seconds = format!(in alloc; "{age}")?;
    text.push_str("; Max-Age=")?;
    text.push_str(seconds.as_str())
}

fn push_flag(text: &mut String, applies: bool, attribute: &str) -> Result<(), AllocError>
    ensures { OnOk result (string_bytes text.new ≡ string_bytes text.old ++ flag applies attribute.now) }
{
    if applies {
        text.push_str(attribute)
    } else {
        Ok(())
    }
}
