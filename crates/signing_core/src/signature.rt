//! The signature of a value: its MAC text.

ghost use Rattle.std.specs.Prelude.{◌≡◌, ◌↔◌, ◌++◌, Any, IfOk, IsTrue, codes};
ghost use Rattle.crypto_text.specs.SaltedHmac.{salted_hmac};
ghost use Rattle.signing_core.specs.Signature.{signature_of};

use crate::keys::Keys;
use crypto_text::{Salted, Text, b64url_encode, b64url_of_mac, same};
use std::alloc::{AllocError, Global};

/// The signature under a key, as a text.
#[tactic(auto, unfolding(crate::specs::Signature::signature_of))]
pub(crate) fn signature(
    alloc: Global,
    prefix: &str,
    salt: &str,
    key: &[u8],
    value: &str,
) -> Result<Text, AllocError>
    ensures { IfOk result (λ text. text ≡ signature_of value.now prefix.now salt.now key.now) }
{
    b64url_encode(alloc, &mac_of(prefix, salt, key, value))
}

/// Whether this is the signature of the value under one of the keys.
pub(crate) fn is_signature(
    prefix: &str,
    salt: &str,
    keys: &Keys,
    value: &str,
    signature: &str,
) -> bool
    ensures { IsTrue result ↔ Any (λ key. signature.now ≡ signature_of value.now prefix.now salt.now key) keys.now }
{
    for at in 0..keys.len() {
        if is_under_key(prefix, salt, keys.key(at), value, signature) {
            return true;
        }
    }
    false
}

#[tactic(auto, unfolding(crate::specs::Signature::signature_of))]
fn is_under_key(prefix: &str, salt: &str, key: &[u8], value: &str, signature: &str) -> bool
    ensures { IsTrue result ↔ (signature.now ≡ signature_of value.now prefix.now salt.now key.now) }
{
    let expected = b64url_of_mac(&mac_of(prefix, salt, key, value));
    same(signature.as_bytes(), &expected)
}

#[tactic(auto, unfolding(crypto_text::specs::SaltedHmac::salted_hmac))]
fn mac_of(prefix: &str, salt: &str, key: &[u8], value: &str) -> [u8; 32]
    ensures { result ≡ salted_hmac (salt.now ++ codes "signer") value.now (prefix.now ++ key.now) }
{
    let mut derived = Salted::new();
    derived.key_part(salt.as_bytes());
    derived.key_part(b"signer");
    derived.key_part(prefix.as_bytes());
    derived.key_part(key);
    let mut mac = derived.into_mac();
    mac.update(value.as_bytes());
    mac.finish()
}
