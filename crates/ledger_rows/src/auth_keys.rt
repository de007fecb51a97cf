//! Key lists under which many sessions are judged.

ghost use Rattle.std.specs.Prelude.{[], ◌≡◌, ◌↔◌, ◌++◌, IfOk, IsTrue, List, ℕ};
ghost use Rattle.sha2.specs.Sha256.{sha256};
ghost use Rattle.crypto_text.specs.Hmac.{Holds};
ghost use Rattle.ledger_rows.specs.Admission.{auth_hash, key_index, session_auth_salt};

use crate::admission::{SESSION_AUTH_SALT, session_auth_hash};
use crypto_text::{Bytes, Hmac256, Salted, hex_of, same};
use signing_core::Keys;
use std::alloc::{AllocError, Global};
use std::marker::Model;

/// Keys under one of which the hash of a session may have been made.
pub trait AuthKeyList {
    /// The keys, the first key first.
    ghost listed: { Self → List (List ℕ) };

    /// The index of the first key under which the hash is that of the password text. Takes no memory.
    fn key_index(&self, password: &str, hash: &str) -> Option<usize>
        ensures { result ≡ key_index (listed self.now) password.now hash.now };
}

impl AuthKeyList for Keys {
    ghost listed = { λ keys. keys };

    #[tactic(auto, using(crate::proofs::AdmissionLemmas::key_is_first, crate::proofs::AdmissionLemmas::no_key_fits))]
    fn key_index(&self, password: &str, hash: &str) -> Option<usize> {
        for at in 0..self.len() {
            if same(&session_auth_hash(password, self.key(at)), hash.as_bytes()) {
                return Some(at);
            }
        }
        None
    }
}

/// A key list that is made ready for judging sessions: of the hash of a session, what follows from the key alone is
/// computed here, once. It is seen as the list of its keys, and has no `Debug`, so that no key is printed.
#[derive(Drop)]
pub struct AuthKeys {
    keys: Keys,
    ready: Vec<AuthKey>,
}

// A key, with the MAC of the empty message under the digest of it and the salt.
#[derive(Drop)]
struct AuthKey {
    key: Bytes,
    mac: Hmac256,
}

impl Model for AuthKeys {
    ghost use Rattle.std.specs.Prelude.{◌≡◌, List, ℕ};

    ghost Value = { List (List ℕ) };

    ghost view = { λ k. k.keys };

    ghost invariant = { λ k. k.ready.items ≡ k.keys };
}

impl Model for AuthKey {
    ghost use Rattle.std.specs.Prelude.{[], ◌++◌, List, ℕ};
    ghost use Rattle.sha2.specs.Sha256.{sha256};
    ghost use Rattle.crypto_text.specs.Hmac.{Holds};
    ghost use Rattle.ledger_rows.specs.Admission.{session_auth_salt};

    ghost Value = { List ℕ };

    ghost view = { λ k. k.key };

    ghost invariant = { λ k. Holds k.mac (sha256 (session_auth_salt ++ k.key)) [] };
}

impl AuthKeys {
    /// Makes a key list ready.
    pub fn new(alloc: Global, keys: Keys) -> Result<AuthKeys, AllocError>
        ensures { IfOk result (λ made. made ≡ keys) }
    {
        let ready = ready_keys(alloc, &keys)?;
        Ok(AuthKeys { keys, ready })
    }

    /// The keys.
    pub fn keys(&self) -> &Keys
        ensures { result.now ≡ self.now }
    {
        &self.keys
    }

    /// Whether these are the keys.
    #[tactic(auto, using(crate::proofs::AuthKeyLemmas::same_keys))]
    pub fn are(&self, keys: &Keys) -> bool
        ensures { IsTrue result ↔ (self.now ≡ keys.now) }
    {
        if self.keys.len() != keys.len() {
            return false;
        }
        for at in 0..keys.len() {
            if self.keys.key(at) != keys.key(at) {
                return false;
            }
        }
        true
    }
}

impl AuthKeyList for AuthKeys {
    ghost listed = { λ keys. keys };

    #[tactic(auto, using(crate::proofs::AdmissionLemmas::key_is_first, crate::proofs::AdmissionLemmas::no_key_fits))]
    fn key_index(&self, password: &str, hash: &str) -> Option<usize> {
        for at in 0..self.ready.len() {
            if self.ready[at].makes(password, hash) {
                return Some(at);
            }
        }
        None
    }
}

impl AuthKey {
    fn of(alloc: Global, key: &[u8]) -> Result<AuthKey, AllocError>
        ensures { IfOk result (λ made. made ≡ key.now) }
    {
        Ok(AuthKey {
            key: Bytes::of(alloc, key)?,
            mac: salted_mac(key),
        })
    }

    // Whether the hash is that of the password text.
    #[tactic(auto, unfolding(crate::specs::Admission::auth_hash, crypto_text::specs::SaltedHmac::salted_hmac))]
    fn makes(&self, password: &str, hash: &str) -> bool
        ensures { IsTrue result ↔ (auth_hash password.now self.now ≡ hash.now) }
    {
        let mut mac = self.mac.copy();
        mac.update(password.as_bytes());
        same(&hex_of(&mac.finish()), hash.as_bytes())
    }
}

fn ready_keys(alloc: Global, keys: &Keys) -> Result<Vec<AuthKey>, AllocError>
    ensures { IfOk result (λ ready. ready.items ≡ keys.now) }
{
    let mut ready = Vec::with_capacity(alloc, keys.len())?;
    for at in 0..keys.len() {
        ready.push(AuthKey::of(alloc, keys.key(at))?)?;
    }
    Ok(ready)
}

#[tactic(auto, unfolding(crate::specs::Admission::session_auth_salt))]
fn salted_mac(key: &[u8]) -> Hmac256
    ensures { Holds result (sha256 (session_auth_salt ++ key.now)) [] }
{
    let mut salted = Salted::new();
    salted.key_part(SESSION_AUTH_SALT);
    salted.key_part(key);
    salted.into_mac()
}
