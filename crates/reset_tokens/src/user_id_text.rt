//! User ids as they are in reset links.

ghost use Rattle.std.specs.Prelude.{◌≡◌, ◌↔◌, ℕ, IfOk, Some};
ghost use Rattle.std.specs.Fmt.{decimal};
ghost use Rattle.crypto_text.specs.Rfc4648.{IsBytes};
ghost use Rattle.reset_tokens.specs.UserIdText.{IsUidText, IsUserId, uid_text};

use crypto_text::{Text, b64url_decode_slice, b64url_encode, positive_decode};
use std::alloc::{AllocError, Global};
use std::str;

/// The text of an id, as Django's `urlsafe_base64_encode` of its decimal digits.
#[tactic(auto, unfolding(crate::specs::UserIdText::uid_text))]
pub fn uid_text(alloc: Global, id: u64) -> Result<Text, AllocError>
    ensures { IfOk result (λ text. text ≡ uid_text id) }
{
    let digits = format!(in alloc; "{id}")?;
    b64url_encode(alloc, digits.as_str().as_bytes())
}

/// The id of a text, where it is the text of an id from 1 to 2^64 - 1. Takes no memory.
pub fn uid_read(text: &str) -> Option<u64>
    ensures { (id : ℕ) → (result ≡ Some id) ↔ IsUidText text.now id }
{
    // As many digits as 2^64 - 1 has.
    let mut digits = [0; 20];
    let length = b64url_decode_slice(text, &mut digits)?;
    id_of(&digits[..length])
}

fn id_of(digits: &[u8]) -> Option<u64>
    ensures bytes { IsBytes digits.now }
    ensures id { (id : ℕ) → (result ≡ Some id) ↔ (IsUserId id × (digits.now ≡ decimal id)) }
{
    let Ok(text) = str::from_utf8(digits) else {
        return None;
    };
    positive_decode(text)
}
