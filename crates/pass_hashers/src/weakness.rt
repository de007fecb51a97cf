//! Rules for new passwords.

ghost use Rattle.std.specs.Prelude.{◌≡◌, ◌↔◌, All, IfErr, IfOk, IsErrOf, IsOk, IsTrue, length, map};
ghost use Rattle.std.specs.Char.{to_ascii_lowercase};
ghost use Rattle.std.specs.Int.{IsInRange};
ghost use Rattle.std.specs.Str.{chars};
ghost use Rattle.pass_hashers.specs.Weakness.{IsAllDigits, IsCommon, IsTooShort, plain_form};
ghost use Rattle.pass_hashers.specs.declared.weakness.Weak.TheVariants.{Memory};

use crypto_text::{Text, TextList, is_among, trimmed};
use std::alloc::{AllocError, Global};
use thiserror::Error;

/// The fewest characters of a password.
const MIN_CHARACTERS: usize = 8;

/// Why a password isn't taken.
#[derive(Clone, Copy, Debug, PartialEq, Eq, Error)]
pub enum Weak {
    #[error("the password has fewer than 8 characters")]
    TooShort,
    #[error("the password has digits alone")]
    AllDigits,
    #[error("the password is on the list of common passwords")]
    Common,
    #[error("out of memory")]
    Memory,
}

impl From<AllocError> for Weak {
    ghost from_gives = { λ _ weak. weak ≡ Memory };

    fn from(_: AllocError) -> Weak {
        Weak::Memory
    }
}

/// Whether a password may be taken. The list of common passwords is in lower case. Shortness is
/// reported before digits, and digits before the list.
pub fn validate(alloc: Global, password: &str, common: &TextList) -> Result<(), Weak>
    ensures ok { IsOk result → (¬ IsTooShort password.now) × (¬ IsAllDigits password.now) × ¬ IsCommon password.now common.now }
    ensures short { IsErrOf result Weak.TooShort ↔ IsTooShort password.now }
    ensures digits { IsErrOf result Weak.AllDigits ↔ ((¬ IsTooShort password.now) × IsAllDigits password.now) }
    ensures common { IsErrOf result Weak.Common → (¬ IsTooShort password.now) × (¬ IsAllDigits password.now) × IsCommon password.now common.now }
{
    if is_too_short(password) {
        return Err(Weak::TooShort);
    }
    if are_digits(password.as_bytes()) {
        return Err(Weak::AllDigits);
    }
    if is_common(alloc, password, common)? {
        return Err(Weak::Common);
    }
    Ok(())
}

fn is_too_short(password: &str) -> bool
    ensures { IsTrue result ↔ IsTooShort password.now }
{
    character_count(password) < MIN_CHARACTERS
}

fn character_count(text: &str) -> usize
    ensures { result ≡ length (chars text.now) }
{
    text.chars().count()
}

fn are_digits(bytes: &[u8]) -> bool
    ensures { IsTrue result ↔ All (IsInRange 48 57) bytes.now }
{
    bytes.iter().all(|byte| byte.is_ascii_digit())
}

fn is_common(alloc: Global, password: &str, common: &TextList) -> Result<bool, AllocError>
    ensures { IfOk result (λ found. IsTrue found ↔ IsCommon password.now common.now) }
{
    let plain = plain_form(alloc, password)?;
    Ok(is_among(common.items(), plain.as_str()))
}

#[tactic(auto, unfolding(crate::specs::Weakness::plain_form))]
fn plain_form(alloc: Global, password: &str) -> Result<Text, AllocError>
    ensures { IfOk result (λ plain. plain ≡ plain_form password.now) }
{
    Ok(Text::from_string(trimmed(password).to_ascii_lowercase(alloc)?))
}
