//! Key lists: the key that signs, then the fallbacks whose signatures are still read.

ghost use Rattle.std.specs.Prelude.{◌≡◌, ◌+◌, ◌<◌, ◌≤◌, ◌↔◌, ℕ, [], ◌∷◌, All, Contains, IfOk, IsErrOf, IsTrue, MatchOption, length, vec_len};
ghost use Rattle.crypto_text.specs.TextList.{AreDifferent};
ghost use Rattle.signing_core.specs.Keys.{HasKeyLength, IsFirstOfOtherLength, IsFirstTwice, IsKeys, key_at, retired, rotated};

use crypto_text::Bytes;
use std::alloc::{AllocError, Global};
use std::marker::Model;
use thiserror::Error;

const MOST_KEYS: usize = 16;

const LONGEST_KEY: usize = 1024;

/// Why keys are no key list.
#[derive(Clone, Copy, Debug, Drop, PartialEq, Eq, Error)]
pub enum KeysFault {
    #[error("more than 16 keys")]
    TooMany,
    /// The index, counted from 0, is that of the first such key.
    #[error("key {at} has not 1 to 1,024 bytes")]
    Length { at: usize },
    /// The index, counted from 0, is that of the first key that an earlier one equals.
    #[error("key {at} is in the list twice")]
    Twice { at: usize },
    #[error("out of memory")]
    Memory,
}

/// Why a key can't become the first of a list.
#[derive(Clone, Copy, Debug, Drop, PartialEq, Eq, Error)]
pub enum RotateFault {
    #[error("the key has not 1 to 1,024 bytes")]
    Length,
    #[error("the key is in the list")]
    Held,
    #[error("the list has 16 keys")]
    TooMany,
    #[error("out of memory")]
    Memory,
}

impl From<AllocError> for RotateFault {
    ghost use Rattle.signing_core.specs.declared.keys.RotateFault.TheVariants.{Memory};

    ghost from_gives = { λ _ fault. fault ≡ Memory };

    fn from(_fault: AllocError) -> RotateFault {
        RotateFault::Memory
    }
}

/// A list of 1 to 16 different keys of 1 to 1,024 bytes. The first key signs, and the signature of
/// any of them is read: Django's `SECRET_KEY` and `SECRET_KEY_FALLBACKS`. It is seen as the list of
/// its keys, the first key first. It has no `Debug`, so that no key is printed.
#[derive(Drop)]
pub struct Keys {
    keys: Vec<Bytes>,
}

impl Model for Keys {
    ghost use Rattle.std.specs.Prelude.{List, ℕ};
    ghost use Rattle.signing_core.specs.Keys.{IsKeys};

    ghost Value = { List (List ℕ) };

    ghost view = { λ k. k.keys.items };

    ghost invariant = { λ k. IsKeys k.keys.items };
}

impl Keys {
    /// A list of these keys. Refusals come in the order of the enum, and the keys are then dropped.
    pub fn new(alloc: Global, first: Bytes, fallbacks: Vec<Bytes>) -> Result<Keys, KeysFault>
        ensures ok { IfOk result (λ keys. keys ≡ first ∷ fallbacks.items) }
        ensures keys { IfOk result IsKeys }
        ensures too_many { IsErrOf result KeysFault.TooMany ↔ (16 < length (first ∷ fallbacks.items)) }
        ensures length { (at : ℕ) → IsErrOf result (KeysFault.Length at)
            ↔ ((length (first ∷ fallbacks.items) ≤ 16) × IsFirstOfOtherLength (first ∷ fallbacks.items) at) }
        ensures twice { (at : ℕ) → IsErrOf result (KeysFault.Twice at)
            ↔ ((length (first ∷ fallbacks.items) ≤ 16)
            × All HasKeyLength (first ∷ fallbacks.items)
            × IsFirstTwice (first ∷ fallbacks.items) at) }
    {
        let mut keys = fallbacks;
        if keys.len() >= MOST_KEYS {
            return Err(KeysFault::TooMany);
        }
        if let Some(at) = first_of_other_length(first.items(), keys.as_slice()) {
            return Err(KeysFault::Length { at });
        }
        if let Some(at) = first_twice(first.items(), keys.as_slice()) {
            return Err(KeysFault::Twice { at });
        }
        match keys.insert(0, first) {
            Ok(()) => Ok(Keys { keys }),
            Err(_) => Err(KeysFault::Memory),
        }
    }

    /// How many keys there are.
    pub fn len(&self) -> usize
        ensures value { result ≡ length self.now }
        ensures keys { IsKeys self.now }
    {
        self.keys.len()
    }

    /// The key that signs.
    pub fn first(&self) -> &[u8]
        ensures value { result.now ≡ key_at self.now 0 }
        ensures keys { IsKeys self.now }
    {
        self.keys[0].items()
    }

    /// The key at an index; that of the first key is 0.
    pub fn key(&self, at: usize) -> &[u8]
        requires { at < length self.now }
        ensures value { result.now ≡ key_at self.now at }
        ensures keys { IsKeys self.now }
    {
        self.keys[at].items()
    }

    /// The same keys once more.
    pub fn copy(&self, alloc: Global) -> Result<Keys, AllocError>
        ensures ok { IfOk result (λ keys. keys ≡ self.now) }
        ensures keys { IsKeys self.now }
    {
        let keys = list_of(alloc, self.keys[0].items(), &self.keys[1..])?;
        Ok(Keys { keys })
    }

    /// The list with another first key; all keys so far are fallbacks. Refusals come in the order of
    /// the enum.
    pub fn rotated(&self, alloc: Global, key: &[u8]) -> Result<Keys, RotateFault>
        ensures ok { IfOk result (λ keys. keys ≡ rotated self.now key.now) }
        ensures keys { IfOk result IsKeys }
        ensures length { IsErrOf result RotateFault.Length ↔ (¬ HasKeyLength key.now) }
        ensures held { IsErrOf result RotateFault.Held ↔ (HasKeyLength key.now × Contains self.now key.now) }
        ensures too_many { IsErrOf result RotateFault.TooMany
            ↔ (HasKeyLength key.now × ¬ Contains self.now key.now × (length self.now ≡ 16)) }
    {
        if !has_key_length(key) {
            return Err(RotateFault::Length);
        }
        if is_among(self.keys.as_slice(), key) {
            return Err(RotateFault::Held);
        }
        if self.keys.len() >= MOST_KEYS {
            return Err(RotateFault::TooMany);
        }
        let keys = list_of(alloc, key, self.keys.as_slice())?;
        Ok(Keys { keys })
    }

    /// The first key alone.
    pub fn retired(&self, alloc: Global) -> Result<Keys, AllocError>
        ensures ok { IfOk result (λ keys. keys ≡ retired self.now) }
        ensures keys { IfOk result IsKeys }
    {
        let keys = list_of(alloc, self.keys[0].items(), &[])?;
        Ok(Keys { keys })
    }
}

fn has_key_length(key: &[u8]) -> bool
    ensures { IsTrue result ↔ HasKeyLength key.now }
{
    !key.is_empty() && key.len() <= LONGEST_KEY
}

fn is_among(keys: &[Bytes], key: &[u8]) -> bool
    ensures { IsTrue result ↔ Contains keys.now key.now }
{
    for held in keys {
        if held.items() == key {
            return true;
        }
    }
    false
}

fn first_of_other_length(first: &[u8], fallbacks: &[Bytes]) -> Option<usize>
    requires { length fallbacks.now < 16 }
    ensures { MatchOption result (All HasKeyLength (first.now ∷ fallbacks.now)) (IsFirstOfOtherLength (first.now ∷ fallbacks.now)) }
{
    if !has_key_length(first) {
        return Some(0);
    }
    for (i, key) in fallbacks.iter().enumerate() {
        if !has_key_length(key.items()) {
            return Some(i + 1);
        }
    }
    None
}

fn first_twice(first: &[u8], fallbacks: &[Bytes]) -> Option<usize>
    requires { length fallbacks.now < 16 }
    ensures { MatchOption result (AreDifferent (first.now ∷ fallbacks.now)) (IsFirstTwice (first.now ∷ fallbacks.now)) }
{
    for (i, key) in fallbacks.iter().enumerate() {
        if is_earlier(first, &fallbacks[..i], key.items()) {
            return Some(i + 1);
        }
    }
    None
}

fn is_earlier(first: &[u8], before: &[Bytes], key: &[u8]) -> bool
    ensures { IsTrue result ↔ Contains (first.now ∷ before.now) key.now }
{
    if first == key {
        return true;
    }
    is_among(before, key)
}

fn list_of(alloc: Global, first: &[u8], others: &[Bytes]) -> Result<Vec<Bytes>, AllocError>
    requires { length others.now ≤ 16 }
    ensures { IfOk result (λ keys. keys.items ≡ first.now ∷ others.now) }
{
    let mut keys = Vec::with_capacity(alloc, others.len() + 1)?;
    keys.push(Bytes::of(alloc, first)?)?;
    for key in others {
        keys.push(key.copy(alloc)?)?;
    }
    Ok(keys)
}
