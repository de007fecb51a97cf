//! Whether an operation may be done.

ghost use Rattle.std.specs.Prelude.{◌≡◌, ◌↔◌, IfOk, IsTrue};
ghost use Rattle.signing_core.specs.Keys.{HasKeyLength};
ghost use Rattle.session_codec.specs.SessionText.{payload_of};
ghost use Rattle.ledger_rows.specs.Replies.{IsPayload};
ghost use Rattle.ledger_rows.specs.Step.{IsAsking, IsBeginning, IsLifetime, IsNewUser, IsOperation, IsWriting};

use crate::form::{is_email, is_session_key, is_user_name};
use crate::operation::Op;
use crypto_text::{Text, is_moment};
use pass_hashers::is_password_text;
use session_codec::{DecodeFault, SessionMap, from_payload, payload};
use std::alloc::{AllocError, Global};

// A hundred years of 365 days.
const LONGEST_LIFETIME: u64 = 3_153_600_000;

const LONGEST_KEY: usize = 1024;

/// Whether an operation may be done: a start, or one whose texts and numbers are well formed.
pub fn op_ok(alloc: Global, op: &Op) -> Result<bool, AllocError>
    ensures { IfOk result (λ ok. IsTrue ok ↔ IsOperation op.now) }
{
    match op {
        Op::Boot => Ok(true),
        Op::Load { now, .. } => Ok(is_moment(*now)),
        Op::Create {
            key,
            payload,
            seconds,
            now,
        } => is_beginning(alloc, key, payload, *seconds, *now),
        Op::Save {
            payload,
            seconds,
            now,
            ..
        } => is_writing(alloc, payload, *seconds, *now),
        Op::Cycle {
            key,
            payload,
            seconds,
            now,
            ..
        } => is_beginning(alloc, key, payload, *seconds, *now),
        Op::Delete { .. } => Ok(true),
        Op::ClearExpired { now } => Ok(is_moment(*now)),
        Op::FindUser { name } => Ok(is_user_name(name.as_str())),
        Op::SetPassword { fresh, .. } => Ok(is_password_text(fresh.as_str())),
        Op::SetLastLogin { now, .. } => Ok(is_moment(*now)),
        Op::AddUser {
            name,
            email,
            password,
            ..
        } => Ok(is_new_user(name, email, password)),
        Op::SetActive { name, .. } => Ok(is_user_name(name.as_str())),
        Op::SetMembership { name, .. } => Ok(is_user_name(name.as_str())),
        Op::Perms { .. } => Ok(true),
        Op::RotateKey { key } => Ok(has_key_length(key.items())),
        Op::RetireKeys => Ok(true),
        Op::MakeReset { email, now } => Ok(is_asking(email, *now)),
        Op::CheckReset { now, .. } => Ok(is_moment(*now)),
        Op::TakeMail => Ok(true),
    }
}

fn is_new_user(name: &Text, email: &Text, password: &Text) -> bool
    ensures { IsTrue result ↔ IsNewUser name.now email.now password.now }
{
    is_user_name(name.as_str()) && is_email(email.as_str()) && is_password_text(password.as_str())
}

// Whether a reset may be asked for.
fn is_asking(email: &Text, now: u64) -> bool
    ensures { IsTrue result ↔ IsAsking email.now now }
{
    is_email(email.as_str()) && is_moment(now)
}

fn is_lifetime(seconds: u64) -> bool
    ensures { IsTrue result ↔ IsLifetime seconds }
{
    1 <= seconds && seconds <= LONGEST_LIFETIME
}

fn has_key_length(key: &[u8]) -> bool
    ensures { IsTrue result ↔ HasKeyLength key.now }
{
    !key.is_empty() && key.len() <= LONGEST_KEY
}

fn is_beginning(
    alloc: Global,
    key: &Text,
    payload: &Text,
    seconds: u64,
    now: u64,
) -> Result<bool, AllocError>
    ensures { IfOk result (λ ok. IsTrue ok ↔ IsBeginning key.now payload.now seconds now) }
{
    if !is_session_key(key.as_str()) {
        return Ok(false);
    }
    is_writing(alloc, payload, seconds, now)
}

fn is_writing(alloc: Global, payload: &Text, seconds: u64, now: u64) -> Result<bool, AllocError>
    ensures { IfOk result (λ ok. IsTrue ok ↔ IsWriting payload.now seconds now) }
{
    if !is_lifetime(seconds) || !is_moment(now) {
        return Ok(false);
    }
    is_payload(alloc, payload.as_str())
}

// Whether a text is what `payload` writes of the map that it is read as.
fn is_payload(alloc: Global, text: &str) -> Result<bool, AllocError>
    ensures { IfOk result (λ ok. IsTrue ok ↔ IsPayload text.now) }
{
    match from_payload(alloc, text) {
        Ok(map) => is_written(alloc, &map, text),
        Err(DecodeFault::Memory) => Err(AllocError),
        Err(DecodeFault::Corrupt) => Ok(false),
        Err(DecodeFault::Expired { .. }) => Ok(false),
    }
}

// Whether a text is what `payload` writes of a map.
fn is_written(alloc: Global, map: &SessionMap, text: &str) -> Result<bool, AllocError>
    ensures { IfOk result (λ same. IsTrue same ↔ (text.now ≡ payload_of map.now)) }
{
    let written = payload(alloc, map)?;
    Ok(written.as_str() == text)
}
