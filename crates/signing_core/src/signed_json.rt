//! Values as signed JSON: Django's `signing.dumps` and `signing.loads`, without compression.

ghost use Rattle.std.specs.Prelude.{◌≡◌, ◌↔◌, ℕ, [], ◌⊎◌, IfOk, IsErrOf, IsOkAnd};
ghost use Rattle.serde_json.specs.Data.{Data};
ghost use Rattle.serde_json.specs.View.{view};
ghost use Rattle.ascii_json.specs.Profile.{IsProfile};
ghost use Rattle.ascii_json.specs.Representable.{IsRepresentable};
ghost use Rattle.crypto_text.specs.Rfc4648.{IsBase64url};
ghost use Rattle.signing_core.specs.Keys.{key_at};
ghost use Rattle.signing_core.specs.Signature.{IsAllowed, age_at};
ghost use Rattle.signing_core.specs.SignedJson.{IsCompressed, IsDumped, SaysNoValue, SaysValue, SignsCompressed, SignsNoBase64, SignsNoJson, dumped_text};
ghost use Rattle.signing_core.specs.TimedText.{HasTimedFault};

use crate::keys::Keys;
use crate::signer::{Signer, TimedFault};
use crate::timed_text::current_value;
use ascii_json::{JsonFault, json_ascii, json_read};
use crypto_text::{B64Fault, Text, b64url_decode, b64url_encode};
use serde_json::Value;
use std::alloc::{AllocError, Global};
use thiserror::Error;

/// Why a text is not read as a signed value.
#[derive(Clone, Copy, Debug, Drop, PartialEq, Eq, Error)]
pub enum LoadFault {
    #[error("{0}")]
    Timed(TimedFault),
    /// What was signed begins with a dot: compressed JSON, which this crate doesn't read.
    #[error("compressed JSON")]
    Compressed,
    #[error("what was signed is no base64url")]
    NotBase64,
    #[error("what was signed is no JSON text without floats and nested at most 100 deep")]
    NotJson,
    #[error("out of memory")]
    Memory,
}

impl From<TimedFault> for LoadFault {
    ghost use Rattle.signing_core.specs.declared.signed_json.LoadFault.TheVariants.{Timed};

    ghost from_gives = { λ timed fault. fault ≡ Timed timed };

    fn from(fault: TimedFault) -> LoadFault {
        LoadFault::Timed(fault)
    }
}

impl From<B64Fault> for LoadFault {
    ghost use Rattle.signing_core.specs.LoadFaults.{IsLoadFaultOfBase64};

    ghost from_gives = { IsLoadFaultOfBase64 };

    fn from(fault: B64Fault) -> LoadFault {
        match fault {
            B64Fault::NotBase64 => LoadFault::NotBase64,
            B64Fault::Memory => LoadFault::Memory,
        }
    }
}

impl From<JsonFault> for LoadFault {
    ghost use Rattle.signing_core.specs.LoadFaults.{IsLoadFaultOfJson};

    ghost from_gives = { IsLoadFaultOfJson };

    fn from(fault: JsonFault) -> LoadFault {
        match fault {
            JsonFault::NotJson => LoadFault::NotJson,
            JsonFault::Memory => LoadFault::Memory,
        }
    }
}

/// Signs a profile value, and the time in seconds, under the first key. Django's default salt is
/// `django.core.signing`.
pub fn dumps(
    alloc: Global,
    value: &Value,
    salt: &str,
    keys: &Keys,
    now: u64,
) -> Result<Text, AllocError>
    requires profile { IsProfile (view value.now) }
    ensures { IfOk result (λ text. text ≡ dumped_text (view value.now) salt.now (key_at keys.now 0) now) }
{
    let json = json_ascii(alloc, value)?;
    let payload = b64url_encode(alloc, json.as_str().as_bytes())?;
    Signer::new(keys, "", salt).sign_timed(alloc, payload.as_str(), now)
}

/// Reads what `dumps` or Django's `signing.dumps` signed. Its age at `now` must not be above
/// `max_age`, where there is one; all are in seconds. Refusals come in the order of the enum.
pub fn loads(
    alloc: Global,
    text: &str,
    salt: &str,
    keys: &Keys,
    now: u64,
    max_age: Option<u64>,
) -> Result<Value, LoadFault>
    ensures ok { IfOk result (λ value. (time : ℕ)
        × IsDumped text.now (view value) time salt.now keys.now
        × IsAllowed max_age (age_at time now)) }
    ensures representable { IfOk result (λ value. IsRepresentable (view value)) }
    ensures value { (d : Data) (time : ℕ) → IsDumped text.now d time salt.now keys.now → IsAllowed max_age (age_at time now)
        → IsOkAnd result (λ value. view value ≡ d) ⊎ IsErrOf result LoadFault.Memory }
    ensures timed { (fault : TimedFault) → IsErrOf result (LoadFault.Timed fault)
        ↔ HasTimedFault text.now [] salt.now keys.now now max_age fault }
    ensures compressed { IsErrOf result LoadFault.Compressed ↔ SignsCompressed text.now salt.now keys.now now max_age }
    ensures not_base64 { (¬ IsErrOf result LoadFault.Memory)
        → (IsErrOf result LoadFault.NotBase64 ↔ SignsNoBase64 text.now salt.now keys.now now max_age) }
    ensures not_json { (¬ IsErrOf result LoadFault.Memory)
        → (IsErrOf result LoadFault.NotJson ↔ SignsNoJson text.now salt.now keys.now now max_age) }
{
    let payload = current_value(keys, "", salt, text, now, max_age)?;
    payload_value(alloc, payload)
}

fn payload_value(alloc: Global, payload: &str) -> Result<Value, LoadFault>
    ensures ok { IfOk result (λ value. SaysValue payload.now (view value)) }
    ensures representable { IfOk result (λ value. IsRepresentable (view value)) }
    ensures value { (d : Data) → SaysValue payload.now d → IsOkAnd result (λ value. view value ≡ d) ⊎ IsErrOf result LoadFault.Memory }
    ensures timed { (fault : TimedFault) → ¬ IsErrOf result (LoadFault.Timed fault) }
    ensures compressed { IsErrOf result LoadFault.Compressed ↔ IsCompressed payload.now }
    ensures not_base64 { (¬ IsErrOf result LoadFault.Memory)
        → (IsErrOf result LoadFault.NotBase64 ↔ ((¬ IsCompressed payload.now) × ¬ IsBase64url payload.now)) }
    ensures not_json { (¬ IsErrOf result LoadFault.Memory) → (IsErrOf result LoadFault.NotJson ↔ SaysNoValue payload.now) }
{
    if payload.starts_with('.') {
        return Err(LoadFault::Compressed);
    }
    let json = b64url_decode(alloc, payload)?;
    let value = json_read(alloc, json.items())?;
    Ok(value)
}
