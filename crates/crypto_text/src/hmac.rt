//! MACs after RFC 2104 under SHA-256, in one call or fed in pieces, and under SHA-1.

ghost use Rattle.std.specs.Prelude.{◌≡◌, ℕ, List, [], ◌++◌};
ghost use Rattle.sha1.specs.Sha1.{sha1};
ghost use Rattle.sha2.specs.Sha256.{sha256};
ghost use Rattle.crypto_text.specs.Hmac.{Holds, HoldsKey};
ghost use Rattle.crypto_text.specs.Rfc2104.{hmac};
ghost use Rattle.crypto_text.specs.SaltedHmac.{salted_hmac};

use crate::hash_state::HashState;
use crate::keyed::{inner_state, mac_of, outer_state};
use sha1::Sha1;
use sha2::{Digest, Sha256};

/// An HMAC-SHA-256 in the making: a key, and the message so far. The key is hashed in `new` alone, so
/// for many messages under one key make it once and `copy` it for each.
#[derive(Drop)]
pub struct Hmac256 {
    inner: Sha256,
    outer: Sha256,
}

impl Hmac256 {
    /// The MAC of the empty message.
    pub fn new(key: &[u8]) -> Hmac256
        ensures { Holds result key.now [] }
    {
        Hmac256 {
            inner: inner_state(key),
            outer: outer_state(key),
        }
    }

    /// Adds a part to the message.
    pub fn update(&mut self, part: &[u8])
        ensures { (key message : List ℕ) → Holds self.old key message → Holds self.new key (message ++ part.now) }
    {
        self.inner.update(part);
    }

    /// The MAC of the message.
    pub fn finish(self) -> [u8; 32]
        ensures { (key message : List ℕ) → Holds self key message → result ≡ hmac sha256 key message }
    {
        mac_of(self.inner, self.outer)
    }

    /// The same key and message once more. Takes no memory.
    pub fn copy(&self) -> Hmac256
        ensures { result ≡ self.now }
    {
        Hmac256 {
            inner: self.inner.twin(),
            outer: self.outer.twin(),
        }
    }
}

/// The key of a salted HMAC in the making: take in the salt, then the secret, each whole or in parts,
/// and go on with `into_mac`.
#[derive(Drop)]
pub struct Salted {
    hash: Sha256,
}

impl Salted {
    /// A key that has taken nothing.
    pub fn new() -> Salted
        ensures { HoldsKey result [] }
    {
        Salted {
            hash: Sha256::new(),
        }
    }

    /// Takes the next part of the salt or the secret.
    pub fn key_part(&mut self, part: &[u8])
        ensures { (parts : List ℕ) → HoldsKey self.old parts → HoldsKey self.new (parts ++ part.now) }
    {
        self.hash.update(part);
    }

    /// A MAC under the digest of the parts.
    pub fn into_mac(self) -> Hmac256
        ensures { (parts : List ℕ) → HoldsKey self parts → Holds result (sha256 parts) [] }
    {
        let key = self.hash.finalize();
        Hmac256::new(&key)
    }
}

/// HMAC-SHA-256 of a message.
pub fn hmac_sha256(key: &[u8], msg: &[u8]) -> [u8; 32]
    ensures { result ≡ hmac sha256 key.now msg.now }
{
    let mut mac = Hmac256::new(key);
    mac.update(msg);
    mac.finish()
}

/// HMAC-SHA-1 of a message.
#[tactic(auto, unfolding(crate::specs::Rfc2104::hmac))]
pub fn hmac_sha1(key: &[u8], msg: &[u8]) -> [u8; 20]
    ensures { result ≡ hmac sha1 key.now msg.now }
{
    let mut inner: Sha1 = inner_state(key);
    inner.update(msg);
    mac_of(inner, outer_state(key))
}

/// HMAC-SHA-256 of a value under a key that the salt and the secret make, as Django's `salted_hmac`:
/// equal secrets give unrelated MACs under different salts.
#[tactic(auto, unfolding(crate::specs::SaltedHmac::salted_hmac))]
pub fn salted_hmac(key_salt: &[u8], value: &[u8], secret: &[u8]) -> [u8; 32]
    ensures { result ≡ salted_hmac key_salt.now value.now secret.now }
{
    let mut key = Salted::new();
    key.key_part(key_salt);
    key.key_part(secret);
    let mut mac = key.into_mac();
    mac.update(value);
    mac.finish()
}
