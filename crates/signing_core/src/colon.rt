//! Texts with a colon between their parts.

ghost use Rattle.std.specs.Prelude.{◌≡◌, ◌++◌, ◌∷◌, ℕ, List, IfOk, MatchOption};
ghost use Rattle.signing_core.specs.Signature.{IsTimed, separator};

use crypto_text::{Text, b62_decode, cut_at_last};
use std::alloc::{AllocError, Global};

/// Both parts with a colon between them.
pub(crate) fn joined(alloc: Global, front: &str, back: &str) -> Result<Text, AllocError>
    ensures { IfOk result (λ text. text ≡ front.now ++ separator ∷ back.now) }
{
    let length = front.len().saturating_add(1).saturating_add(back.len());
    let mut text = String::with_capacity(alloc, length)?;
    text.push_str(front)?;
    text.push(':')?;
    text.push_str(back)?;
    Ok(Text::from_string(text))
}

/// The value and the moment that were signed together.
pub(crate) fn timed_parts(rest: &str) -> Option<(&str, u64)>
    ensures { MatchOption result
        ((value : List ℕ) (time : ℕ) → ¬ IsTimed rest.now value time)
        (λ parts. IsTimed rest.now parts.0.now parts.1) }
{
    let (value, digits) = cut_at_last(rest, ':')?;
    let time = b62_decode(digits)?;
    Some((value, time))
}
