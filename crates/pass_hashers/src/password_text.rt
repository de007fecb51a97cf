//! Password texts: what a user's password is kept as.

ghost use Rattle.std.specs.Prelude.{◌≡◌, ◌≢◌, ◌↔◌, ℕ, List, ◌∷◌, ◌++◌, All, MatchOption, codes, length, IfOk, IsErrOf, IsTrue};
ghost use Rattle.std.specs.Fmt.{decimal};
ghost use Rattle.std.specs.Str.{IsAscii};
ghost use Rattle.base64.specs.Engines.{standard};
ghost use Rattle.base64.specs.GeneralPurpose.{encode_of};
ghost use Rattle.pass_hashers.specs.PasswordText.{HasKnownName, IsLetter, IsMarkedUnusable, IsPasswordText, IsSalt, IsTextOf, IsUnusable, IsUsable, dollar, password_text, unusable_text};

use crate::hasher::{HashFault, Hasher};
use crate::last_part::{sha1_digest, sha256_digest};
use crate::reading::read;
use base64::engine::general_purpose::STANDARD;
use crypto_text::{Alphabet, Text, md5_hex, text_of};
use std::alloc::{AllocError, Global};
use std::str;

/// The text of a password under a salt.
#[tactic(auto, unfolding(crate::specs::PasswordText::digest_of, crypto_text::specs::Md5Hex::md5_hex))]
pub fn make(alloc: Global, hasher: Hasher, password: &str, salt: &str) -> Result<Text, AllocError>
    requires usable { IsUsable hasher }
    requires salt { IsSalt salt.now }
    ensures { IfOk result (λ text. text ≡ password_text hasher password.now salt.now) }
{
    match hasher {
        Hasher::Pbkdf2Sha256 { iterations } => {
            let digest = sha256_digest(iterations, password, salt);
            pbkdf2_text(alloc, "pbkdf2_sha256", iterations, salt, &digest)
        }
        Hasher::Pbkdf2Sha1 { iterations } => {
            let digest = sha1_digest(iterations, password, salt);
            pbkdf2_text(alloc, "pbkdf2_sha1", iterations, salt, &digest)
        }
        Hasher::Md5 => md5_text(alloc, salt, &md5_hex(salt.as_bytes(), password.as_bytes())),
    }
}

fn pbkdf2_text(
    alloc: Global,
    name: &str,
    iterations: u32,
    salt: &str,
    digest: &[u8],
) -> Result<Text, AllocError>
    ensures { IfOk result (λ text. text ≡ name.now ++ dollar ∷ (decimal iterations ++ dollar ∷ (salt.now ++ dollar ∷ encode_of standard digest.now))) }
{
    let mut text = format!(in alloc; "{name}${iterations}${salt}$")?;
    STANDARD.encode_string(digest, &mut text)?;
    Ok(Text::from_string(text))
}

fn md5_text(alloc: Global, salt: &str, digits: &[u8; 32]) -> Result<Text, AllocError>
    requires { IsAscii digits.now }
    ensures { IfOk result (λ text. text ≡ codes "md5" ++ dollar ∷ (salt.now ++ dollar ∷ digits.now)) }
{
    let Ok(digits) = str::from_utf8(digits) else {
        unreachable!()
    };
    let text = format!(in alloc; "md5${salt}${digits}")?;
    Ok(Text::from_string(text))
}

/// A text that no password fits. The letters tell one account from another, so that a token over the
/// text is good for one account alone.
pub fn make_unusable(alloc: Global, words: &[u32; 40]) -> Result<Text, AllocError>
    ensures { IfOk result (λ text. text ≡ unusable_text words.now) }
{
    let letters = text_of(alloc, words, Alphabet::Letters62)?;
    let text = format!(in alloc; "!{}", letters.as_str())?;
    Ok(Text::from_string(text))
}

/// The hasher that made a text.
pub fn identify(text: &str) -> Result<Hasher, HashFault>
    ensures ok { (hasher : Hasher) → (result ≡ Ok hasher) ↔ IsTextOf text.now hasher }
    ensures unusable { IsErrOf result HashFault.Unusable ↔ IsMarkedUnusable text.now }
    ensures unknown { IsErrOf result HashFault.Unknown ↔ ((¬ IsMarkedUnusable text.now) × ¬ HasKnownName text.now) }
    ensures malformed { IsErrOf result HashFault.Malformed ↔ (HasKnownName text.now × ((hasher : Hasher) → ¬ IsTextOf text.now hasher)) }
{
    match read(text) {
        Ok(parts) => Ok(parts.hasher),
        Err(fault) => Err(fault),
    }
}

/// Whether a text can stand for a user's password: one that a hasher made, or an unusable one.
pub fn is_password_text(text: &str) -> bool
    ensures { IsTrue result ↔ IsPasswordText text.now }
{
    is_hashed(text) || is_unusable(text)
}

fn is_hashed(text: &str) -> bool
    ensures { IsTrue result ↔ ((hasher : Hasher) × IsTextOf text.now hasher) }
{
    match read(text) {
        Ok(_) => true,
        Err(_) => false,
    }
}

fn is_unusable(text: &str) -> bool
    ensures { IsTrue result ↔ IsUnusable text.now }
{
    match behind_mark(text) {
        Some(letters) => are_forty_letters(letters),
        None => false,
    }
}

fn behind_mark(text: &str) -> Option<&str>
    ensures { MatchOption result ((rest : List ℕ) → text.now ≢ 33 ∷ rest) (λ rest. text.now ≡ 33 ∷ rest.now) }
{
    text.strip_prefix('!')
}

fn are_forty_letters(text: &str) -> bool
    ensures { IsTrue result ↔ ((length text.now ≡ 40) × All IsLetter text.now) }
{
    text.len() == 40 && are_letters(text.as_bytes())
}

fn are_letters(bytes: &[u8]) -> bool
    ensures { IsTrue result ↔ All IsLetter bytes.now }
{
    bytes.iter().all(|&byte| is_letter(byte))
}

fn is_letter(byte: u8) -> bool
    ensures { IsTrue result ↔ IsLetter byte }
{
    byte.is_ascii_alphanumeric()
}
