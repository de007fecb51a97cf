//! The texts that a session map is kept as.

ghost use Rattle.std.specs.Prelude.{◌≡◌, ◌↔◌, ℕ, Err, IfOk, IsErrOf, None, Ok, OnOk, Some};
ghost use Rattle.session_codec.specs.SessionMap.{IsSession};
ghost use Rattle.session_codec.specs.SessionText.{decoded, map_of_payload, max_age_of, payload_of, salt_of, text_of};
ghost use Rattle.session_codec.specs.declared.session_text.DecodeFault.TheVariants.{Corrupt, Expired};

use crate::session_map::SessionMap;
use crypto_text::Text;
use signing_core::{JsonFault, Keys, LoadFault, TimedFault, dumps, json_ascii, json_read, loads};
use std::alloc::{AllocError, Global};
use thiserror::Error;

const STORED_SALT: &str = "django.contrib.sessions.SessionStore";

const COOKIE_SALT: &str = "django.contrib.sessions.backends.signed_cookies";

const MOST_COOKIE_AGE: u64 = 1_209_600;

/// Where a session's text is kept; each kind has a salt of its own.
#[derive(Clone, Copy, Debug, PartialEq, Eq)]
pub enum SessionKind {
    /// In a store, which keeps the end of a session itself.
    Stored,
    /// In the browser's cookie: refused when it is older than 1,209,600 seconds.
    Cookie,
}

/// Why a text is not read as a session.
#[derive(Clone, Copy, Debug, Drop, PartialEq, Eq, Error)]
pub enum DecodeFault {
    /// It is no JSON object signed for this kind under a listed key; of a payload, no JSON object.
    #[error("no session")]
    Corrupt,
    #[error("too old: {age} seconds")]
    Expired { age: u64 },
    #[error("out of memory")]
    Memory,
}

impl From<LoadFault> for DecodeFault {
    ghost use Rattle.session_codec.specs.DecodeFaults.{IsDecodeFaultOf};

    ghost from_gives = { IsDecodeFaultOf };

    fn from(fault: LoadFault) -> DecodeFault {
        match fault {
            LoadFault::Timed(TimedFault::Expired { age }) => DecodeFault::Expired { age },
            LoadFault::Timed(_)
            | LoadFault::Compressed
            | LoadFault::NotBase64
            | LoadFault::NotJson => DecodeFault::Corrupt,
            LoadFault::Memory => DecodeFault::Memory,
        }
    }
}

impl From<JsonFault> for DecodeFault {
    ghost use Rattle.session_codec.specs.DecodeFaults.{IsDecodeFaultOfJson};

    ghost from_gives = { IsDecodeFaultOfJson };

    fn from(fault: JsonFault) -> DecodeFault {
        match fault {
            JsonFault::NotJson => DecodeFault::Corrupt,
            JsonFault::Memory => DecodeFault::Memory,
        }
    }
}

impl SessionKind {
    #[tactic(auto, unfolding(crate::specs::SessionText::stored_salt, crate::specs::SessionText::cookie_salt))]
    fn salt(self) -> &'static str
        ensures { result.now ≡ salt_of self }
    {
        match self {
            SessionKind::Stored => STORED_SALT,
            SessionKind::Cookie => COOKIE_SALT,
        }
    }

    fn max_age(self) -> Option<u64>
        ensures { result ≡ max_age_of self }
    {
        match self {
            SessionKind::Stored => None,
            SessionKind::Cookie => Some(MOST_COOKIE_AGE),
        }
    }
}

/// The map as a JSON object: names in byte order, ASCII, no spaces.
pub fn payload(alloc: Global, map: &SessionMap) -> Result<Text, AllocError>
    ensures ok { IfOk result (λ text. text ≡ payload_of map.now) }
    ensures session { OnOk result (IsSession map.now) }
{
    json_ascii(alloc, map.as_value())
}

/// The map of a JSON object. `Expired` never comes.
pub fn from_payload(alloc: Global, text: &str) -> Result<SessionMap, DecodeFault>
    ensures ok { IfOk result (λ map. map_of_payload text.now ≡ Some map) }
    ensures session { IfOk result IsSession }
    ensures corrupt { (¬ IsErrOf result DecodeFault.Memory) → (IsErrOf result DecodeFault.Corrupt ↔ (map_of_payload text.now ≡ None)) }
    ensures expired { (age : ℕ) → ¬ IsErrOf result (DecodeFault.Expired age) }
{
    let value = json_read(alloc, text.as_bytes())?;
    match SessionMap::of_value(value) {
        Some(map) => Ok(map),
        None => Err(DecodeFault::Corrupt),
    }
}

/// The map as JSON, signed with the time in seconds under the first key: Django's
/// `SessionBase.encode`, without compression.
pub fn encode(
    alloc: Global,
    map: &SessionMap,
    kind: SessionKind,
    keys: &Keys,
    now: u64,
) -> Result<Text, AllocError>
    ensures ok { IfOk result (λ text. text ≡ text_of kind map.now keys.now now) }
    ensures session { OnOk result (IsSession map.now) }
{
    dumps(alloc, map.as_value(), kind.salt(), keys, now)
}

/// The map that `encode` or Django's own `SessionBase.encode` wrote. An age at `now`, in seconds, is
/// judged before the map is read.
pub fn decode(
    alloc: Global,
    text: &str,
    kind: SessionKind,
    keys: &Keys,
    now: u64,
) -> Result<SessionMap, DecodeFault>
    ensures ok { IfOk result (λ map. decoded kind keys.now now text.now ≡ Ok map) }
    ensures session { IfOk result IsSession }
    ensures corrupt { (¬ IsErrOf result DecodeFault.Memory)
        → (IsErrOf result DecodeFault.Corrupt ↔ (decoded kind keys.now now text.now ≡ Err Corrupt)) }
    ensures expired { (age : ℕ) → IsErrOf result (DecodeFault.Expired age) ↔ (decoded kind keys.now now text.now ≡ Err (Expired age)) }
{
    let value = loads(alloc, text, kind.salt(), keys, now, kind.max_age())?;
    let Some(map) = SessionMap::of_value(value) else {
        return Err(DecodeFault::Corrupt);
    };
    Ok(map)
}
