//! The commands that sign a value and read it back. They don't touch the store.

ghost use Rattle.std.specs.Prelude.{◌≡◌, ◌↔◌, ◌∷◌, ◌⊎◌, [], ℕ, List, IfOk, IsErrOf, IsOkAnd, string_bytes};
ghost use Rattle.crypto_text.specs.Moment.{moment};
ghost use Rattle.outside.specs.Clock.{GivesNext};
ghost use Rattle.signing_core.specs.TimedText.{HasTimedFault, IsCurrent};
ghost use Rattle.site_server.specs.Command.{IsUnsigned, code_of, refused_line, signed_line};
ghost use Rattle.middleware_chain.specs.Page.{line};
ghost use Rattle.site_server.specs.Sending.{IsSent};
ghost use Rattle.site_server.specs.declared.status.Status.{Status as StatusSpec};

use crate::output::send;
use crate::status::Status;
use outside::{Clock, Sink, moment_of};
use signing_core::{Keys, Signer, TimedFault, current_value};
use std::alloc::{AllocError, Global};

/// A line, and the status that a run ends with once it is written.
#[derive(Debug, Drop)]
struct Line {
    line: String,
    end: Status,
}

/// Writes the value, signed with the moment under the first key.
pub fn sign<C: Clock, O: Sink>(
    alloc: Global,
    keys: &Keys,
    salt: &str,
    value: &str,
    clock: &mut C,
    output: &mut O,
) -> Status
    ensures signs { (reading : ℕ) × GivesNext (C.seen clock.old) (C.seen clock.new) (reading ∷ [])
        × (IsSent (signed_line keys.now salt.now value.now (moment reading)) Status.Done (O.seen output.old) (O.seen output.new) result
        ⊎ ((result ≡ Status.Memory) × (O.seen output.new ≡ O.seen output.old))) }
{
    let now = moment_of(clock.now());
    match signed_line(alloc, keys, salt, value, now) {
        Ok(line) => send(output, line.as_str().as_bytes(), Status::Done),
        Err(AllocError) => Status::Memory,
    }
}

fn signed_line(
    alloc: Global,
    keys: &Keys,
    salt: &str,
    value: &str,
    now: u64,
) -> Result<String, AllocError>
    ensures { IfOk result (λ text. string_bytes text ≡ signed_line keys.now salt.now value.now now) }
{
    let signed = Signer::new(keys, "", salt).sign_timed(alloc, value, now)?;
    with_newline(alloc, signed.as_str())
}

/// Writes the value of a text that was signed so, at most `max_age` seconds ago, or why there is none.
pub fn unsign<C: Clock, O: Sink>(
    alloc: Global,
    keys: &Keys,
    salt: &str,
    max_age: u64,
    text: &str,
    clock: &mut C,
    output: &mut O,
) -> Status
    ensures unsigns { (reading : ℕ) × GivesNext (C.seen clock.old) (C.seen clock.new) (reading ∷ [])
        × (((due : List ℕ) × (end : StatusSpec) × IsUnsigned keys.now salt.now max_age text.now (moment reading) due end
        × IsSent due end (O.seen output.old) (O.seen output.new) result)
        ⊎ ((result ≡ Status.Memory) × (O.seen output.new ≡ O.seen output.old))) }
{
    let now = moment_of(clock.now());
    match unsigned(alloc, keys, salt, max_age, text, now) {
        Ok(reply) => send_reply(output, &reply),
        Err(AllocError) => Status::Memory,
    }
}

fn send_reply<O: Sink>(output: &mut O, reply: &Line) -> Status
    ensures { IsSent (string_bytes reply.now.line) reply.now.end (O.seen output.old) (O.seen output.new) result }
{
    send(output, reply.line.as_str().as_bytes(), reply.end)
}

fn unsigned(
    alloc: Global,
    keys: &Keys,
    salt: &str,
    max_age: u64,
    text: &str,
    now: u64,
) -> Result<Line, AllocError>
    ensures { IfOk result (λ reply. IsUnsigned keys.now salt.now max_age text.now now (string_bytes reply.line) reply.end) }
{
    match current_value(keys, "", salt, text, now, Some(max_age)) {
        Ok(value) => Ok(Line {
            line: with_newline(alloc, value)?,
            end: Status::Done,
        }),
        Err(fault) => Ok(Line {
            line: refused_line(alloc, code_of(fault))?,
            end: Status::Refused,
        }),
    }
}

fn code_of(fault: TimedFault) -> &'static str
    ensures { result.now ≡ code_of fault }
{
    match fault {
        TimedFault::NoSeparator => "no-separator",
        TimedFault::BadSignature => "bad-signature",
        TimedFault::BadTime => "bad-time",
        TimedFault::Expired { .. } => "expired",
    }
}

#[tactic(auto, unfolding(crate::specs::Command::refused_line))]
fn refused_line(alloc: Global, code: &str) -> Result<String, AllocError>
    ensures { IfOk result (λ text. string_bytes text ≡ refused_line code.now) }
{
    format!(in alloc; "refused={code}\n")
}

fn with_newline(alloc: Global, text: &str) -> Result<String, AllocError>
    ensures { IfOk result (λ whole. string_bytes whole ≡ line text.now) }
{
    format!(in alloc; "{text}\n")
}
