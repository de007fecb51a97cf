//! Signing a text, with or without the time.

ghost use Rattle.std.specs.Prelude.{◌≡◌, ◌<◌, ◌↔◌, ℕ, List, Contains, IfOk, IsErrOf, IsOkAnd, IsSomeAnd, MatchBool};
ghost use Rattle.signing_core.specs.Keys.{key_at};
ghost use Rattle.signing_core.specs.Signature.{HasBadSignature, HasBadTime, IsAllowed, IsExpired, IsSigned, IsTimestamped, age_at, separator, signed_text, timed_value};

use crate::colon::{joined, timed_parts};
use crate::keys::Keys;
use crate::signature::{is_signature, signature};
use crypto_text::{Text, b62_encode, cut_at_last};
use std::alloc::{AllocError, Global};
use std::marker::Model;
use thiserror::Error;

/// Why a text is not read as a signed one.
#[derive(Clone, Copy, Debug, Drop, PartialEq, Eq, Error)]
pub enum SignFault {
    #[error("no colon")]
    NoSeparator,
    /// The part after its last colon is no signature of the part before it under a listed key.
    #[error("no signature under a listed key")]
    BadSignature,
}

/// Why a text is not read as one that was signed with the time.
#[derive(Clone, Copy, Debug, Drop, PartialEq, Eq, Error)]
pub enum TimedFault {
    #[error("no colon")]
    NoSeparator,
    /// The part after its last colon is no signature of the part before it under a listed key.
    #[error("no signature under a listed key")]
    BadSignature,
    /// What was signed has no colon, or no base 62 number below 2^64 after its last one.
    #[error("no time")]
    BadTime,
    #[error("too old: {age} seconds")]
    Expired { age: u64 },
}

impl From<SignFault> for TimedFault {
    ghost use Rattle.signing_core.specs.TimedText.{IsTimedFaultOf};

    ghost from_gives = { IsTimedFaultOf };

    fn from(fault: SignFault) -> TimedFault {
        match fault {
            SignFault::NoSeparator => TimedFault::NoSeparator,
            SignFault::BadSignature => TimedFault::BadSignature,
        }
    }
}

/// Signs under the first key of a list, and reads what any key of the list signed: Django's `Signer`
/// and `TimestampSigner` with the separator `:` and SHA-256. The salt names the use; the prefix comes
/// before each key, and only signed cookies have one.
#[derive(Drop)]
pub struct Signer<'a> {
    keys: &'a Keys,
    prefix: &'a str,
    salt: &'a str,
}

impl<'a> Model for Signer<'a> {
    ghost use Rattle.signing_core.specs.Signature.{Signing};

    ghost Value = { Signing };

    ghost view = { λ s. record { keys = s.keys.now; prefix = s.prefix.now; salt = s.salt.now } };
}

impl<'a> Signer<'a> {
    /// A signer for one use. An empty salt is the empty salt; Django then takes the class's name.
    pub fn new(keys: &'a Keys, prefix: &'a str, salt: &'a str) -> Signer<'a>
        ensures keys { result.keys ≡ keys.now }
        ensures prefix { result.prefix ≡ prefix.now }
        ensures salt { result.salt ≡ salt.now }
    {
        Signer { keys, prefix, salt }
    }

    /// The value, a colon and its signature under the first key.
    pub fn sign(&self, alloc: Global, value: &str) -> Result<Text, AllocError>
        ensures { IfOk result (λ text. text ≡ signed_text value.now self.now.prefix self.now.salt (key_at self.now.keys 0)) }
    {
        let signature = signature(alloc, self.prefix, self.salt, self.keys.first(), value)?;
        joined(alloc, value, signature.as_str())
    }

    /// The value of a signed text. Takes no memory.
    pub fn unsign<'t>(&self, text: &'t str) -> Result<&'t str, SignFault>
        ensures value { (value : List ℕ) → IsOkAnd result (λ answer. answer.now ≡ value)
            ↔ IsSigned text.now value self.now.prefix self.now.salt self.now.keys }
        ensures no_separator { IsErrOf result SignFault.NoSeparator ↔ (¬ Contains text.now separator) }
        ensures bad_signature { IsErrOf result SignFault.BadSignature
            ↔ HasBadSignature text.now self.now.prefix self.now.salt self.now.keys }
    {
        let Some((value, signature)) = cut_at_last(text, ':') else {
            return Err(SignFault::NoSeparator);
        };
        if is_signature(self.prefix, self.salt, self.keys, value, signature) {
            Ok(value)
        } else {
            Err(SignFault::BadSignature)
        }
    }

    /// The value and the time, signed together under the first key. The time is in seconds.
    pub fn sign_timed(&self, alloc: Global, value: &str, now: u64) -> Result<Text, AllocError>
        ensures { IfOk result (λ text. text ≡ signed_text (timed_value value.now now) self.now.prefix self.now.salt (key_at self.now.keys 0)) }
    {
        let time = b62_encode(alloc, now)?;
        let rest = joined(alloc, value, time.as_str())?;
        self.sign(alloc, rest.as_str())
    }

    /// The value of a text that was signed with the time, and that time. Its age at `now` must not be
    /// above `max_age`, where there is one; all are in seconds. A time that is still to come has the
    /// age 0. Refusals come in the order of the enum. Takes no memory.
    pub fn unsign_timed<'t>(
        &self,
        text: &'t str,
        now: u64,
        max_age: Option<u64>,
    ) -> Result<(&'t str, u64), TimedFault>
        ensures value { (value : List ℕ) (time : ℕ) → IsOkAnd result (λ answer. (answer.0.now ≡ value) × (answer.1 ≡ time))
            ↔ (IsTimestamped text.now value time self.now.prefix self.now.salt self.now.keys × IsAllowed max_age (age_at time now)) }
        ensures no_separator { IsErrOf result TimedFault.NoSeparator ↔ (¬ Contains text.now separator) }
        ensures bad_signature { IsErrOf result TimedFault.BadSignature
            ↔ HasBadSignature text.now self.now.prefix self.now.salt self.now.keys }
        ensures bad_time { IsErrOf result TimedFault.BadTime
            ↔ HasBadTime text.now self.now.prefix self.now.salt self.now.keys }
        ensures expired { (age : ℕ) → IsErrOf result (TimedFault.Expired age)
            ↔ IsExpired text.now self.now.prefix self.now.salt self.now.keys now max_age age }
    {
        let rest = self.unsign(text)?;
        let Some((value, time)) = timed_parts(rest) else {
            return Err(TimedFault::BadTime);
        };
        let age = now.saturating_sub(time);
        if is_beyond(max_age, age) {
            return Err(TimedFault::Expired { age });
        }
        Ok((value, time))
    }
}

fn is_beyond(max_age: Option<u64>, age: u64) -> bool
    ensures { MatchBool result (IsSomeAnd max_age (λ most. most < age)) (IsAllowed max_age age) }
{
    match max_age {
        Some(most) => age > most,
        None => false,
    }
}
