//! Making, judging and checking reset tokens.

ghost use Rattle.std.specs.Prelude.{◌≡◌, ◌↔◌, ℕ, ◌∷◌, ◌++◌, Any, IfOk, IfSome, IsAscii, IsErr, IsErrOf, IsOk, IsTrue, MatchOption, OnOk, string_bytes};
ghost use Rattle.crypto_text.specs.Moment.{IsMoment};
ghost use Rattle.crypto_text.specs.Numeral.{base36_digits, numeral_of};
ghost use Rattle.signing_core.specs.Keys.{key_at};
ghost use Rattle.reset_tokens.specs.ResetToken.{HasNumber, HasShape, IsExpired, IsMade, IsMismatch, IsValid, dash, every_second, mac_of_text, number_at, row_of, token_text};
ghost use Rattle.reset_tokens.specs.TokenVerdict.{token_verdict, verdict_by_age};

use crate::reset_text::{ResetUser, reset_text};
use crypto_text::{Text, b36_decode, b36_encode, cut_at_first, hex_of, salted_hmac, same};
use signing_core::Keys;
use std::alloc::{AllocError, Global};
use std::str;
use thiserror::Error;

const SECONDS_TO_2001: u64 = 978_307_200;

const MOST_AGE: u64 = 259_200;

/// What a token is at a moment: the first that holds of `Shape`, `Mismatch`, `Expired` and `Valid`.
#[derive(Clone, Copy, Debug, Drop, PartialEq, Eq)]
pub enum ResetVerdict {
    /// It was made for the user at most 259,200 seconds ago, or its moment is still to come.
    Valid,
    /// It isn't a base 36 number of at most 13 digits, below 2^64, and one other part, with a `-`
    /// between and no other one.
    Shape,
    /// No listed key makes it for the user.
    Mismatch,
    /// It was made for the user more than 259,200 seconds ago.
    Expired { age: u64 },
}

/// Why a token is not taken: the verdict of the same name, or out of memory.
#[derive(Clone, Copy, Debug, Drop, PartialEq, Eq, Error)]
pub enum ResetFault {
    #[error("not in the form of a token")]
    Shape,
    #[error("no listed key makes this token for the user")]
    Mismatch,
    #[error("too old: {age} seconds")]
    Expired { age: u64 },
    #[error("out of memory")]
    Memory,
}

impl From<AllocError> for ResetFault {
    ghost use Rattle.reset_tokens.specs.declared.reset_token.ResetFault.TheVariants.{Memory};

    ghost from_gives = { λ _ fault. fault ≡ Memory };

    fn from(_fault: AllocError) -> ResetFault {
        ResetFault::Memory
    }
}

/// A token for a user at a moment, under the first key.
pub fn make_token(
    alloc: Global,
    user: &ResetUser<'_>,
    keys: &Keys,
    now: u64,
) -> Result<Text, AllocError>
    requires now { IsMoment now }
    requires last_login { IfSome user.now.last_login IsMoment }
    ensures { IfOk result (λ token. token ≡ token_text (row_of user.now) (number_at now) (key_at keys.now 0)) }
{
    let number = now - SECONDS_TO_2001;
    let text = reset_text(alloc, user, number)?;
    token_of(alloc, number, text.as_str(), keys.first())
}

/// What a token is for a user at a moment. Memory is asked for after `Shape`. A number whose moment
/// is still to come has the age 0.
pub fn judge_token(
    alloc: Global,
    user: &ResetUser<'_>,
    keys: &Keys,
    token: &str,
    now: u64,
) -> Result<ResetVerdict, AllocError>
    requires now { IsMoment now }
    requires last_login { IfSome user.now.last_login IsMoment }
    ensures value { IfOk result (λ verdict. verdict ≡ token_verdict (row_of user.now) keys.now token.now now) }
    ensures err { IsErr result → HasShape token.now }
{
    let Some(number) = number_of(token) else {
        return Ok(ResetVerdict::Shape);
    };
    let made = is_made(alloc, user, keys, token, number)?;
    if !made {
        return Ok(ResetVerdict::Mismatch);
    }
    Ok(verdict_by_age(number, now))
}

/// Whether a token is valid for a user at a moment, as Django's `check_token`. Refusals come in the
/// order of the enum, and memory is asked for after `Shape`. A number whose moment is still to come
/// has the age 0.
pub fn check_token(
    alloc: Global,
    user: &ResetUser<'_>,
    keys: &Keys,
    token: &str,
    now: u64,
) -> Result<(), ResetFault>
    requires now { IsMoment now }
    requires last_login { IfSome user.now.last_login IsMoment }
    ensures ok { (¬ IsErrOf result ResetFault.Memory) → (IsOk result ↔ IsValid token.now (row_of user.now) keys.now now) }
    ensures shape { IsErrOf result ResetFault.Shape ↔ (¬ HasShape token.now) }
    ensures mismatch { (¬ IsErrOf result ResetFault.Memory) → (IsErrOf result ResetFault.Mismatch ↔ IsMismatch token.now (row_of user.now) keys.now) }
    ensures expired { (¬ IsErrOf result ResetFault.Memory) → (age : ℕ)
        → (IsErrOf result (ResetFault.Expired age) ↔ IsExpired token.now (row_of user.now) keys.now now age) }
{
    let verdict = judge_token(alloc, user, keys, token, now)?;
    accepted(verdict)
}

fn accepted(verdict: ResetVerdict) -> Result<(), ResetFault>
    ensures ok { IsOk result ↔ (verdict ≡ ResetVerdict.Valid) }
    ensures shape { IsErrOf result ResetFault.Shape ↔ (verdict ≡ ResetVerdict.Shape) }
    ensures mismatch { IsErrOf result ResetFault.Mismatch ↔ (verdict ≡ ResetVerdict.Mismatch) }
    ensures expired { (age : ℕ) → (IsErrOf result (ResetFault.Expired age) ↔ (verdict ≡ ResetVerdict.Expired age)) }
{
    match verdict {
        ResetVerdict::Valid => Ok(()),
        ResetVerdict::Shape => Err(ResetFault::Shape),
        ResetVerdict::Mismatch => Err(ResetFault::Mismatch),
        ResetVerdict::Expired { age } => Err(ResetFault::Expired { age }),
    }
}

// What a token is that was made for the user at the number.
fn verdict_by_age(number: u64, now: u64) -> ResetVerdict
    requires { IsMoment now }
    ensures { result ≡ verdict_by_age number now }
{
    let age = (now - SECONDS_TO_2001).saturating_sub(number);
    if age > MOST_AGE {
        ResetVerdict::Expired { age }
    } else {
        ResetVerdict::Valid
    }
}

fn number_of(token: &str) -> Option<u64>
    ensures { MatchOption result (¬ HasShape token.now) (HasNumber token.now) }
{
    let (digits, mark) = cut_at_first(token, '-')?;
    if mark.contains('-') {
        return None;
    }
    b36_decode(digits)
}

// Whether a listed key makes the token for the user at the number.
fn is_made(
    alloc: Global,
    user: &ResetUser<'_>,
    keys: &Keys,
    token: &str,
    number: u64,
) -> Result<bool, AllocError>
    requires { IfSome user.now.last_login IsMoment }
    ensures { IfOk result (λ made. IsTrue made ↔ IsMade token.now (row_of user.now) number keys.now) }
{
    let text = reset_text(alloc, user, number)?;
    let numeral = b36_encode(alloc, number)?;
    let Some((digits, mark)) = cut_at_first(token, '-') else {
        return Ok(false);
    };
    if !same(digits.as_bytes(), numeral.as_str().as_bytes()) {
        return Ok(false);
    }
    Ok(is_marked(keys, text.as_str(), mark))
}

// Whether a mark is the MAC of the text under a listed key.
fn is_marked(keys: &Keys, text: &str, mark: &str) -> bool
    ensures { IsTrue result ↔ Any (λ key. mark.now ≡ mac_of_text text.now key) keys.now }
{
    for at in 0..keys.len() {
        if is_under_key(text, keys.key(at), mark) {
            return true;
        }
    }
    false
}

fn is_under_key(text: &str, key: &[u8], mark: &str) -> bool
    ensures { IsTrue result ↔ (mark.now ≡ mac_of_text text.now key.now) }
{
    same(mark.as_bytes(), &mac_of(text, key))
}

fn token_of(alloc: Global, number: u64, text: &str, key: &[u8]) -> Result<Text, AllocError>
    ensures { IfOk result (λ token. token ≡ numeral_of base36_digits number ++ dash ∷ mac_of_text text.now key.now) }
{
    let numeral = b36_encode(alloc, number)?;
    let length = numeral.as_str().len().saturating_add(33);
    let mut token = String::with_capacity(alloc, length)?;
    token.push_str(numeral.as_str())?;
    token.push('-')?;
    push_digits(&mut token, &mac_of(text, key))?;
    Ok(Text::from_string(token))
}

fn push_digits(text: &mut String, digits: &[u8; 32]) -> Result<(), AllocError>
    requires { IsAscii digits.now }
    ensures { OnOk result (string_bytes text.new ≡ string_bytes text.old ++ digits.now) }
{
    match str::from_utf8(digits) {
        Ok(digits) => text.push_str(digits),
        Err(_) => unreachable!(),
    }
}

#[tactic(auto, unfolding(crate::specs::ResetToken::reset_salt))]
fn mac_of(text: &str, key: &[u8]) -> [u8; 32]
    ensures value { result ≡ mac_of_text text.now key.now }
    ensures ascii { IsAscii result }
{
    let salt = b"django.contrib.auth.tokens.PasswordResetTokenGenerator";
    every_second(&hex_of(&salted_hmac(salt, text.as_bytes(), key)))
}

// As Python's `[::2]`.
fn every_second(digits: &[u8; 64]) -> [u8; 32]
    ensures { result ≡ every_second digits.now }
{
    let mut chosen = [0; 32];
    for place in 0..32 {
        chosen[place] = digits[2 * place];
    }
    chosen
}
