//! Numerals in base 62, as timestamps of signed texts are written, in base 36, as those of reset
//! tokens are, and in decimal, as ids and counts are.

ghost use Rattle.std.specs.Prelude.{ℕ, ◌≡◌, ◌+◌, ◌/◌, ◌%◌, ◌^◌, ◌<◌, ◌≤◌, [], ◌∷◌, ◌++◌, ◌↔◌, ◌==◌, ◌⊎◌, IfOk, IsTrue, OnOk, Some, decimal, length, position, slice_index, string_bytes};
ghost use Rattle.std.specs.Int.{IsInRange};
ghost use Rattle.crypto_text.specs.Numeral.{IsNumeral, base36_digits, base62_digits, decimal_of, digits_in, numeral_of, positive_of};

#[cfg(test)]
mod tests;

use crate::text::Text;
use std::alloc::{AllocError, Global};

const BASE36_DIGITS: &[u8; 36] = b"0123456789abcdefghijklmnopqrstuvwxyz";

const BASE62_DIGITS: &[u8; 62] = b"0123456789ABCDEFGHIJKLMNOPQRSTUVWXYZabcdefghijklmnopqrstuvwxyz";

/// Writes a number as Django's `baseconv.base62` does: `0-9`, `A-Z`, `a-z`, no leading zero.
pub fn b62_encode(alloc: Global, n: u64) -> Result<Text, AllocError>
    ensures { IfOk result (λ text. text ≡ numeral_of base62_digits n) }
{
    encode(alloc, Base::Base62, n)
}

/// Reads a base 62 numeral. Leading zeros are read too.
pub fn b62_decode(text: &str) -> Option<u64>
    ensures { (n : ℕ) → (result ≡ Some n) ↔ (IsNumeral base62_digits text.now n × (n < 2 ^ 64)) }
{
    decode(Base::Base62, text)
}

/// Writes a number as Django's `int_to_base36` does: `0-9`, `a-z`, no leading zero.
pub fn b36_encode(alloc: Global, n: u64) -> Result<Text, AllocError>
    ensures { IfOk result (λ text. text ≡ numeral_of base36_digits n) }
{
    encode(alloc, Base::Base36, n)
}

/// Reads a base 36 numeral of at most 13 digits, which Django's `base36_to_int` takes as room
/// for 64 bits. Leading zeros are read too.
pub fn b36_decode(text: &str) -> Option<u64>
    ensures { (n : ℕ) → (result ≡ Some n) ↔ (IsNumeral base36_digits text.now n × (length text.now ≤ 13) × (n < 2 ^ 64)) }
{
    if text.len() > 13 {
        return None;
    }
    decode(Base::Base36, text)
}

/// Reads a number in decimal: digits without a sign or a leading zero, as `u64`'s `Display`
/// writes them. Takes no memory.
pub fn decimal_decode(text: &str) -> Option<u64>
    ensures value { result ≡ decimal_of text.now }
    ensures number { (n : ℕ) → (result ≡ Some n) ↔ ((text.now ≡ decimal n) × (n < 2 ^ 64)) }
{
    if !begins_as_decimal(text.as_bytes()) {
        return None;
    }
    text.parse::<u64>().ok()
}

/// Reads a number from 1 on in decimal, as `decimal_decode` does. Takes no memory.
#[tactic(auto, unfolding(crate::specs::Numeral::positive_of))]
pub fn positive_decode(text: &str) -> Option<u64>
    ensures value { result ≡ positive_of text.now }
    ensures number { (n : ℕ) → (result ≡ Some n) ↔ ((text.now ≡ decimal n) × (1 ≤ n) × (n < 2 ^ 64)) }
{
    match decimal_decode(text) {
        Some(0) | None => None,
        Some(n) => Some(n),
    }
}

#[derive(Clone, Copy)]
enum Base {
    Base36,
    Base62,
}

impl Base {
    fn size(self) -> u64
        ensures value { result ≡ length (digits_in self) }
        ensures more_than_one { 2 ≤ result }
    {
        match self {
            Base::Base36 => 36,
            Base::Base62 => 62,
        }
    }

    fn digit(self, value: u64) -> u8
        requires { value < length (digits_in self) }
        ensures digit { result ≡ slice_index (digits_in self) value }
        ensures ascii { result < 128 }
    {
        match self {
            Base::Base36 => BASE36_DIGITS[value as usize],
            Base::Base62 => BASE62_DIGITS[value as usize],
        }
    }

    fn value_of(self, byte: u8) -> Option<u64>
        ensures { result ≡ position (λ digit. digit == byte) (digits_in self) }
    {
        match self {
            Base::Base36 => base36_value(byte),
            Base::Base62 => base62_value(byte),
        }
    }
}

fn base36_value(byte: u8) -> Option<u64>
    ensures { result ≡ position (λ digit. digit == byte) base36_digits }
{
    match byte {
        b'0'..=b'9' => Some(u64::from(byte - b'0')),
        b'a'..=b'z' => Some(u64::from(byte - b'a') + 10),
        _ => None,
    }
}

fn base62_value(byte: u8) -> Option<u64>
    ensures { result ≡ position (λ digit. digit == byte) base62_digits }
{
    match byte {
        b'0'..=b'9' => Some(u64::from(byte - b'0')),
        b'A'..=b'Z' => Some(u64::from(byte - b'A') + 10),
        b'a'..=b'z' => Some(u64::from(byte - b'a') + 36),
        _ => None,
    }
}

// With a digit, which is a zero only where it is alone.
fn begins_as_decimal(bytes: &[u8]) -> bool
    ensures { IsTrue result ↔ (IsInRange 49 57 (slice_index bytes.now 0) ⊎ (bytes.now ≡ 48 ∷ [])) }
{
    match bytes {
        [b'0'] | [b'1'..=b'9', ..] => true,
        _ => false,
    }
}

fn decode(base: Base, text: &str) -> Option<u64>
    ensures { (n : ℕ) → (result ≡ Some n) ↔ (IsNumeral (digits_in base) text.now n × (n < 2 ^ 64)) }
{
    if text.is_empty() {
        return None;
    }
    let mut value: u64 = 0;
    for &byte in text.as_bytes() {
        let digit = base.value_of(byte)?;
        value = value.checked_mul(base.size())?.checked_add(digit)?;
    }
    Some(value)
}

fn encode(alloc: Global, base: Base, n: u64) -> Result<Text, AllocError>
    ensures { IfOk result (λ text. text ≡ numeral_of (digits_in base) n) }
{
    let mut text = String::new(alloc);
    push_numeral(&mut text, base, n)?;
    Ok(Text::from_string(text))
}

fn push_numeral(text: &mut String, base: Base, n: u64) -> Result<(), AllocError>
    ensures { OnOk result (string_bytes text.new ≡ string_bytes text.old ++ numeral_of (digits_in base) n) }
{
    let size = base.size();
    if n < size {
        return push_digit(text, base, n);
    }
    push_numeral(text, base, n / size)?;
    push_digit(text, base, n % size)
}

fn push_digit(text: &mut String, base: Base, value: u64) -> Result<(), AllocError>
    requires { value < length (digits_in base) }
    ensures { OnOk result (string_bytes text.new ≡ string_bytes text.old ++ slice_index (digits_in base) value ∷ []) }
{
    text.push(char::from(base.digit(value)))
}
