//! Signed cookie values: Django's `set_signed_cookie` and `get_signed_cookie`.

ghost use Rattle.std.specs.Prelude.{◌≡◌, ◌↔◌, ℕ, List, IfOk, IsErrOf, IsOkAnd};
ghost use Rattle.signing_core.specs.Keys.{key_at};
ghost use Rattle.signing_core.specs.SignedCookie.{cookie_prefix, cookie_text, salt_with_name};
ghost use Rattle.signing_core.specs.TimedText.{HasTimedFault, IsCurrent};

use crate::keys::Keys;
use crate::signer::{Signer, TimedFault};
use crate::timed_text::current_value;
use crypto_text::Text;
use std::alloc::{AllocError, Global};
use thiserror::Error;

const PREFIX: &str = "django.http.cookies";

/// Why a cookie is not read as a signed one.
#[derive(Clone, Copy, Debug, Drop, PartialEq, Eq, Error)]
pub enum CookieFault {
    #[error("{0}")]
    Timed(TimedFault),
    #[error("out of memory")]
    Memory,
}

impl From<TimedFault> for CookieFault {
    ghost use Rattle.signing_core.specs.declared.signed_cookie.CookieFault.TheVariants.{Timed};

    ghost from_gives = { λ timed fault. fault ≡ Timed timed };

    fn from(fault: TimedFault) -> CookieFault {
        CookieFault::Timed(fault)
    }
}

impl From<AllocError> for CookieFault {
    ghost use Rattle.signing_core.specs.declared.signed_cookie.CookieFault.TheVariants.{Memory};

    ghost from_gives = { λ _ fault. fault ≡ Memory };

    fn from(_fault: AllocError) -> CookieFault {
        CookieFault::Memory
    }
}

/// Signs a cookie's value for its name, and the time in seconds, under the first key. Django's
/// default salt is empty.
#[tactic(auto, unfolding(crate::specs::SignedCookie::cookie_prefix))]
pub fn sign_cookie(
    alloc: Global,
    name: &str,
    value: &str,
    salt: &str,
    keys: &Keys,
    now: u64,
) -> Result<Text, AllocError>
    ensures { IfOk result (λ text. text ≡ cookie_text name.now value.now salt.now (key_at keys.now 0) now) }
{
    let salt = salt_with_name(alloc, name, salt)?;
    Signer::new(keys, PREFIX, salt.as_str()).sign_timed(alloc, value, now)
}

/// The value of a signed cookie of this name. Its age at `now` must not be above `max_age`, where
/// there is one; all are in seconds.
#[tactic(auto, unfolding(crate::specs::SignedCookie::cookie_prefix))]
pub fn unsign_cookie<'t>(
    alloc: Global,
    name: &str,
    text: &'t str,
    salt: &str,
    keys: &Keys,
    now: u64,
    max_age: Option<u64>,
) -> Result<&'t str, CookieFault>
    ensures value { (¬ IsErrOf result CookieFault.Memory) → (value : List ℕ) → IsOkAnd result (λ answer. answer.now ≡ value)
        ↔ IsCurrent text.now value cookie_prefix (salt_with_name name.now salt.now) keys.now now max_age }
    ensures timed { (¬ IsErrOf result CookieFault.Memory) → (fault : TimedFault) → IsErrOf result (CookieFault.Timed fault)
        ↔ HasTimedFault text.now cookie_prefix (salt_with_name name.now salt.now) keys.now now max_age fault }
{
    let salt = salt_with_name(alloc, name, salt)?;
    let value = current_value(keys, PREFIX, salt.as_str(), text, now, max_age)?;
    Ok(value)
}

fn salt_with_name(alloc: Global, name: &str, salt: &str) -> Result<Text, AllocError>
    ensures { IfOk result (λ text. text ≡ salt_with_name name.now salt.now) }
{
    let mut whole = String::with_capacity(alloc, name.len().saturating_add(salt.len()))?;
    whole.push_str(name)?;
    whole.push_str(salt)?;
    Ok(Text::from_string(whole))
}
