//! Reads password texts from the front, part by part. Nothing here takes memory.

ghost use Rattle.std.specs.Prelude.{◌≡◌, ◌≢◌, ◌↔◌, ◌≤◌, ℕ, List, ◌∷◌, ◌++◌, All, IsTrue, IsNone, IfOk, IfSome, MatchOption, IsErr, IsErrOf};
ghost use Rattle.std.specs.Fmt.{decimal};
ghost use Rattle.pass_hashers.specs.PasswordText.{AreIterations, HasKnownName, HasParts, IsDigestText, IsMarkedUnusable, IsSalt, IsSaltByte, IsTextOf, algo_of, dollar, name_of};
ghost use Rattle.pass_hashers.specs.Reading.{HasFront, HasNoDollar, HasRest, HasSalted, IsCut, first_part};

use crate::hasher::{Algo, HashFault, Hasher, algo_of, are_iterations};
use crate::last_part::is_digest_text;
use crypto_text::positive_decode;

/// A text that a hasher made, in parts.
#[derive(Clone, Copy)]
pub(crate) struct Parts<'t> {
    pub hasher: Hasher,
    pub salt: &'t str,
    pub last: &'t str,
}

/// The parts of a text, or why it has none.
pub(crate) fn read(text: &str) -> Result<Parts<'_>, HashFault>
    ensures ok { IfOk result (λ parts. HasParts text.now parts.hasher parts.salt.now parts.last.now) }
    ensures unusable { IsErrOf result HashFault.Unusable ↔ IsMarkedUnusable text.now }
    ensures unknown { IsErrOf result HashFault.Unknown ↔ ((¬ IsMarkedUnusable text.now) × ¬ HasKnownName text.now) }
    ensures malformed { IsErrOf result HashFault.Malformed ↔ (HasKnownName text.now × ((hasher : Hasher) → ¬ IsTextOf text.now hasher)) }
    ensures none { IsErr result → (hasher : Hasher) → ¬ IsTextOf text.now hasher }
{
    if text.starts_with('!') {
        return Err(HashFault::Unusable);
    }
    match cut(text) {
        Some((name, rest)) => match algo_named(name) {
            Some(algo) => match parts_behind(algo, rest) {
                Some(parts) => Ok(parts),
                None => Err(HashFault::Malformed),
            },
            None => Err(HashFault::Unknown),
        },
        None => match algo_named(text) {
            Some(_) => Err(HashFault::Malformed),
            None => Err(HashFault::Unknown),
        },
    }
}

/// Whether a text can stand as a salt: 1 to 64 visible ASCII characters but `$`.
#[tactic(auto, unfolding(crate::specs::PasswordText::IsSalt))]
pub fn is_salt(salt: &str) -> bool
    ensures { IsTrue result ↔ IsSalt salt.now }
{
    is_salt_length(salt.len()) && are_salt_bytes(salt.as_bytes())
}

fn is_salt_length(length: usize) -> bool
    ensures { IsTrue result ↔ ((1 ≤ length) × (length ≤ 64)) }
{
    1 <= length && length <= 64
}

fn are_salt_bytes(bytes: &[u8]) -> bool
    ensures { IsTrue result ↔ All IsSaltByte bytes.now }
{
    bytes.iter().all(|&byte| is_salt_byte(byte))
}

fn is_salt_byte(byte: u8) -> bool
    ensures { IsTrue result ↔ IsSaltByte byte }
{
    byte.is_ascii_graphic() && byte != b'$'
}

// Both sides of the first `$`.
fn cut(text: &str) -> Option<(&str, &str)>
    ensures cut { MatchOption result (HasNoDollar text.now) (λ cut. IsCut text.now cut.0.now cut.1.now) }
    ensures first { MatchOption result (first_part text.now ≡ text.now) (λ cut. first_part text.now ≡ cut.0.now) }
{
    text.split_once('$')
}

fn algo_named(name: &str) -> Option<Algo>
    ensures { (algo : Algo) → (result ≡ Some algo) ↔ (name.now ≡ name_of algo) }
{
    match name {
        "pbkdf2_sha256" => Some(Algo::Pbkdf2Sha256),
        "pbkdf2_sha1" => Some(Algo::Pbkdf2Sha1),
        "md5" => Some(Algo::Md5),
        _ => None,
    }
}

fn parts_behind(algo: Algo, rest: &str) -> Option<Parts<'_>>
    ensures found { IfSome result (λ parts. HasRest algo rest.now parts.hasher parts.salt.now parts.last.now) }
    ensures none { IsNone result → (hasher : Hasher) (salt last : List ℕ) → ¬ HasRest algo rest.now hasher salt last }
{
    let (hasher, behind) = hasher_before(algo, rest)?;
    salted_parts(hasher, behind)
}

// The hasher, and what follows its iterations.
fn hasher_before(algo: Algo, rest: &str) -> Option<(Hasher, &str)>
    ensures found { IfSome result (λ cut. HasFront algo rest.now cut.0 cut.1.now) }
    ensures none { IsNone result → (hasher : Hasher) (behind : List ℕ) → ¬ HasFront algo rest.now hasher behind }
{
    match algo {
        Algo::Pbkdf2Sha256 => {
            let (iterations, behind) = iterations_before(rest)?;
            Some((Hasher::Pbkdf2Sha256 { iterations }, behind))
        }
        Algo::Pbkdf2Sha1 => {
            let (iterations, behind) = iterations_before(rest)?;
            Some((Hasher::Pbkdf2Sha1 { iterations }, behind))
        }
        Algo::Md5 => Some((Hasher::Md5, rest)),
    }
}

fn iterations_before(rest: &str) -> Option<(u32, &str)>
    ensures found { IfSome result (λ cut. AreIterations cut.0 × (rest.now ≡ decimal cut.0 ++ dollar ∷ cut.1.now)) }
    ensures none { IsNone result → (iterations : ℕ) (behind : List ℕ) → AreIterations iterations → rest.now ≢ decimal iterations ++ dollar ∷ behind }
{
    let (digits, behind) = cut(rest)?;
    let iterations = iterations_of(digits)?;
    Some((iterations, behind))
}

fn iterations_of(digits: &str) -> Option<u32>
    ensures found { IfSome result (λ iterations. AreIterations iterations × (digits.now ≡ decimal iterations)) }
    ensures none { IsNone result → (iterations : ℕ) → AreIterations iterations → digits.now ≢ decimal iterations }
{
    let number = positive_decode(digits)?;
    let iterations = u32::try_from(number).ok()?;
    if are_iterations(iterations) {
        Some(iterations)
    } else {
        None
    }
}

fn salted_parts(hasher: Hasher, rest: &str) -> Option<Parts<'_>>
    ensures found { IfSome result (λ parts. (parts.hasher ≡ hasher) × HasSalted (algo_of hasher) rest.now parts.salt.now parts.last.now) }
    ensures none { IsNone result → (salt last : List ℕ) → ¬ HasSalted (algo_of hasher) rest.now salt last }
{
    let (salt, last) = cut(rest)?;
    if are_in_form(algo_of(hasher), salt, last) {
        Some(Parts { hasher, salt, last })
    } else {
        None
    }
}

fn are_in_form(algo: Algo, salt: &str, last: &str) -> bool
    ensures { IsTrue result ↔ (IsSalt salt.now × IsDigestText algo last.now) }
{
    is_salt(salt) && is_digest_text(algo, last)
}
