//! The last part of a password text: a digest as text.

ghost use Rattle.std.specs.Prelude.{◌≡◌, ◌↔◌, ◌<◌, ◌≤◌, ℕ, List, length, slice_index, IsTrue};
ghost use Rattle.base64.specs.Engines.{standard};
ghost use Rattle.base64.specs.GeneralPurpose.{encode_of};
ghost use Rattle.hex.specs.Hex.{encode_lower};
ghost use Rattle.pass_hashers.specs.PasswordText.{IsDigestText, IsUsable, digest_of, last_part};

use crate::hasher::{Algo, Hasher};
use base64::engine::general_purpose::STANDARD;
use crypto_text::{md5_hex, pbkdf2_sha1, pbkdf2_sha256, same};

/// Whether a text is what is written of some digest of the algorithm.
#[tactic(auto, unfolding(crate::specs::PasswordText::IsDigestText))]
pub(crate) fn is_digest_text(algo: Algo, text: &str) -> bool
    ensures { IsTrue result ↔ IsDigestText algo text.now }
{
    match algo {
        Algo::Pbkdf2Sha256 => is_base64(text.as_bytes(), 32),
        Algo::Pbkdf2Sha1 => is_base64(text.as_bytes(), 20),
        Algo::Md5 => is_lower_hex(text.as_bytes()),
    }
}

// Whether a text is the padded base64 of so many bytes, and nothing looser.
fn is_base64(text: &[u8], size: usize) -> bool
    requires { size ≤ 32 }
    ensures { IsTrue result ↔ ((digest : List ℕ) × (length digest ≡ size) × ((i : ℕ) → slice_index digest i < 256) × (text.now ≡ encode_of standard digest)) }
{
    // 32 bytes take 44 symbols, for which the decoder asks for room of 33.
    if text.len() > 44 {
        return false;
    }
    let mut digest = [0; 33];
    match STANDARD.decode_slice(text, &mut digest) {
        Ok(length) => length == size,
        Err(_) => false,
    }
}

// Whether a text is 16 bytes in hex digits with lower case letters.
fn is_lower_hex(text: &[u8]) -> bool
    ensures { IsTrue result ↔ ((digest : List ℕ) × (length digest ≡ 16) × ((i : ℕ) → slice_index digest i < 256) × (text.now ≡ encode_lower digest)) }
{
    let mut digest = [0; 16];
    let mut written = [0; 32];
    match hex::decode_to_slice(text, &mut digest) {
        Ok(()) => match hex::encode_to_slice(&digest, &mut written) {
            Ok(()) => text == written.as_slice(),
            Err(_) => false,
        },
        Err(_) => false,
    }
}

/// Whether the last part of a text is the one that the hasher makes of the password.
#[tactic(auto, unfolding(crate::specs::PasswordText::digest_of, crypto_text::specs::Md5Hex::md5_hex))]
pub(crate) fn is_last_part(last: &str, hasher: Hasher, password: &str, salt: &str) -> bool
    requires { IsUsable hasher }
    ensures { IsTrue result ↔ (last.now ≡ last_part hasher password.now salt.now) }
{
    let last = last.as_bytes();
    match hasher {
        Hasher::Pbkdf2Sha256 { iterations } => is_base64_of(
            last,
            &sha256_digest(iterations, password, salt),
        ),
        Hasher::Pbkdf2Sha1 { iterations } => is_base64_of(
            last,
            &sha1_digest(iterations, password, salt),
        ),
        Hasher::Md5 => same(last, &md5_hex(salt.as_bytes(), password.as_bytes())),
    }
}

/// The digest of PBKDF2-HMAC-SHA-256.
#[tactic(auto, unfolding(crate::specs::PasswordText::digest_of))]
pub(crate) fn sha256_digest(iterations: u32, password: &str, salt: &str) -> [u8; 32]
    requires { 1 ≤ iterations }
    ensures { result ≡ digest_of (Hasher.Pbkdf2Sha256 iterations) password.now salt.now }
{
    let mut digest = [0; 32];
    pbkdf2_sha256(
        password.as_bytes(),
        salt.as_bytes(),
        iterations,
        &mut digest,
    );
    digest
}

/// The digest of PBKDF2-HMAC-SHA-1.
#[tactic(auto, unfolding(crate::specs::PasswordText::digest_of))]
pub(crate) fn sha1_digest(iterations: u32, password: &str, salt: &str) -> [u8; 20]
    requires { 1 ≤ iterations }
    ensures { result ≡ digest_of (Hasher.Pbkdf2Sha1 iterations) password.now salt.now }
{
    let mut digest = [0; 20];
    pbkdf2_sha1(
        password.as_bytes(),
        salt.as_bytes(),
        iterations,
        &mut digest,
    );
    digest
}

fn is_base64_of(text: &[u8], digest: &[u8]) -> bool
    requires { length digest.now ≤ 32 }
    ensures { IsTrue result ↔ (text.now ≡ encode_of standard digest.now) }
{
    let mut written = [0; 44];
    match STANDARD.encode_slice(digest, &mut written) {
        Ok(size) => same(text, &written[..size]),
        Err(_) => false,
    }
}
