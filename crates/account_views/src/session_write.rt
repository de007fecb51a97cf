//! What follows every view: the session is written, and the response says so.

ghost use Rattle.std.specs.Prelude.{◌≡◌, IfOk, option_to_list};
ghost use Rattle.account_views.specs.Basis.{basis_of};
ghost use Rattle.account_views.specs.Script.{steps_of};
ghost use Rattle.account_views.specs.SessionWrite.{after_delete, after_save, after_try, attempt_by, deletions, holds_nothing, is_empty_map, gone, kept, placing, placing_op, save_op, saved, stored, write_left, written};

use crate::facts::Facts;
use crate::page::{Viewed, page_response, session_text, unwritten_response};
use crate::progress::Progress;
use crate::random_texts::session_key;
use auth_backends::SessionBox;
use cookie_text::delete_cookie_text;
use crypto_text::Text;
use http_edge::Response;
use ledger_rows::{Op, Reply};
use middleware_chain::Settings;
use outside::Words;
use session_codec::{SessionMap, payload};
use std::alloc::{AllocError, Global};

/// How many new keys are tried.
const TRIES: u64 = 16;

/// What the write of a session waits for.
#[derive(Drop)]
pub enum WriteStage {
    /// That the flushed session is deleted.
    Deleting(Viewed),
    /// Whether a new key is free. So many tries are left.
    Placing {
        viewed: Viewed,
        old: Option<Text>,
        left: u64,
    },
    /// Whether the session is still there.
    Saving(Viewed),
}

/// What became of a write.
#[derive(Drop)]
pub enum Attempt {
    /// It was done, and this is the session's cookie.
    Written(Text),
    /// There is a session of the new key.
    KeyTaken,
    /// There is no such session any more.
    SessionGone,
}

/// The first step of the write, or the response.
pub fn write_session<W: Words>(
    alloc: Global,
    settings: &Settings,
    facts: &Facts,
    words: &W,
    viewed: Viewed,
) -> Result<Progress<WriteStage, Response>, AllocError>
    ensures { let basis = basis_of settings.now facts.now (W.seen words.now) in
        IfOk result (λ progress. steps_of (write_left basis) progress ≡ written basis viewed) }
{
    match copied(alloc, &viewed.session.dropped)? {
        Some(key) => Ok(Progress::Asks(Op::Delete { key }, WriteStage::Deleting(viewed))),
        None => after_delete(alloc, settings, facts, words, viewed),
    }
}

/// The next step of the write, or the response.
pub fn write_next<W: Words>(
    alloc: Global,
    settings: &Settings,
    facts: &Facts,
    words: &W,
    stage: WriteStage,
    reply: Reply,
) -> Result<Progress<WriteStage, Response>, AllocError>
    ensures { let basis = basis_of settings.now facts.now (W.seen words.now) in
        IfOk result (λ progress. steps_of (write_left basis) progress ≡ write_left basis stage reply) }
{
    match stage {
        WriteStage::Deleting(viewed) => after_delete(alloc, settings, facts, words, viewed),
        WriteStage::Placing { viewed, old, left } => {
            let attempt = attempt_by(reply);
            after_try(alloc, settings, facts, words, viewed, old, left, attempt)
        }
        WriteStage::Saving(viewed) => {
            let attempt = attempt_by(reply);
            let response = after_save(alloc, settings, facts, viewed, attempt)?;
            Ok(Progress::Ends(response))
        }
    }
}

fn after_delete<W: Words>(
    alloc: Global,
    settings: &Settings,
    facts: &Facts,
    words: &W,
    viewed: Viewed,
) -> Result<Progress<WriteStage, Response>, AllocError>
    ensures { let basis = basis_of settings.now facts.now (W.seen words.now) in
        IfOk result (λ progress. steps_of (write_left basis) progress ≡ after_delete basis viewed) }
{
    if viewed.session.modified && !holds_nothing(&viewed.session) {
        save(alloc, settings, facts, words, viewed)
    } else {
        Ok(Progress::Ends(kept(alloc, settings, facts, viewed)?))
    }
}

fn save<W: Words>(
    alloc: Global,
    settings: &Settings,
    facts: &Facts,
    words: &W,
    viewed: Viewed,
) -> Result<Progress<WriteStage, Response>, AllocError>
    ensures { let basis = basis_of settings.now facts.now (W.seen words.now) in
        IfOk result (λ progress. steps_of (write_left basis) progress ≡ saved basis viewed viewed.session.key) }
{
    match copied(alloc, &viewed.session.key)? {
        None => place(alloc, settings, facts, words, viewed, None, TRIES),
        Some(old) if viewed.session.cycle => {
            place(alloc, settings, facts, words, viewed, Some(old), TRIES)
        }
        Some(key) => {
            let op = save_op(alloc, facts, &viewed, key)?;
            Ok(Progress::Asks(op, WriteStage::Saving(viewed)))
        }
    }
}

// The next try for a new key, where one is left.
fn place<W: Words>(
    alloc: Global,
    settings: &Settings,
    facts: &Facts,
    words: &W,
    viewed: Viewed,
    old: Option<Text>,
    left: u64,
) -> Result<Progress<WriteStage, Response>, AllocError>
    ensures { let basis = basis_of settings.now facts.now (W.seen words.now) in
        IfOk result (λ progress. steps_of (write_left basis) progress ≡ placing basis viewed old left) }
{
    if left == 0 {
        return Ok(Progress::Ends(unwritten_response(alloc, facts, 503, "error=keys-taken\n")?));
    }
    let key = session_key(alloc, words, TRIES.saturating_sub(left))?;
    let op = placing_op(alloc, facts, &viewed, &old, key)?;
    let left = left - 1;
    Ok(Progress::Asks(op, WriteStage::Placing { viewed, old, left }))
}

fn after_try<W: Words>(
    alloc: Global,
    settings: &Settings,
    facts: &Facts,
    words: &W,
    viewed: Viewed,
    old: Option<Text>,
    left: u64,
    attempt: Attempt,
) -> Result<Progress<WriteStage, Response>, AllocError>
    ensures { let basis = basis_of settings.now facts.now (W.seen words.now) in
        IfOk result (λ progress. steps_of (write_left basis) progress ≡ after_try settings.now facts.now viewed attempt (placing basis viewed old left)) }
{
    match attempt {
        Attempt::Written(cookie) => Ok(Progress::Ends(stored(
            alloc, settings, facts, viewed, &cookie,
        )?)),
        Attempt::KeyTaken => place(alloc, settings, facts, words, viewed, old, left),
        Attempt::SessionGone => Ok(Progress::Ends(gone(alloc, facts)?)),
    }
}

fn after_save(
    alloc: Global,
    settings: &Settings,
    facts: &Facts,
    viewed: Viewed,
    attempt: Attempt,
) -> Result<Response, AllocError>
    ensures { IfOk result (λ response. response ≡ after_save settings.now facts.now viewed attempt) }
{
    match attempt {
        Attempt::Written(cookie) => stored(alloc, settings, facts, viewed, &cookie),
        Attempt::KeyTaken | Attempt::SessionGone => gone(alloc, facts),
    }
}

fn attempt_by(reply: Reply) -> Attempt
    ensures { result ≡ attempt_by reply }
{
    match reply {
        Reply::Stored { cookie } => Attempt::Written(cookie),
        Reply::Taken => Attempt::KeyTaken,
        _ => Attempt::SessionGone,
    }
}

fn save_op(alloc: Global, facts: &Facts, viewed: &Viewed, key: Text) -> Result<Op, AllocError>
    ensures { IfOk result (λ op. op ≡ save_op facts.now viewed.now key) }
{
    let map = &viewed.session.map;
    Ok(Op::Save {
        key,
        payload: payload(alloc, map)?,
        seconds: map.expiry().seconds,
        now: facts.moment.seconds(),
    })
}

fn placing_op(
    alloc: Global,
    facts: &Facts,
    viewed: &Viewed,
    old: &Option<Text>,
    key: Text,
) -> Result<Op, AllocError>
    ensures { IfOk result (λ op. op ≡ placing_op facts.now viewed.now old.now key) }
{
    let map = &viewed.session.map;
    let payload = payload(alloc, map)?;
    let seconds = map.expiry().seconds;
    let now = facts.moment.seconds();
    match copied(alloc, old)? {
        Some(old) => Ok(Op::Cycle {
            old,
            key,
            payload,
            seconds,
            now,
        }),
        None => Ok(Op::Create {
            key,
            payload,
            seconds,
            now,
        }),
    }
}

fn copied(alloc: Global, text: &Option<Text>) -> Result<Option<Text>, AllocError>
    ensures { IfOk result (λ copy. copy ≡ text.now) }
{
    text.as_ref().map(|text| text.copy(alloc)).transpose()
}

fn kept(
    alloc: Global,
    settings: &Settings,
    facts: &Facts,
    viewed: Viewed,
) -> Result<Response, AllocError>
    ensures { IfOk result (λ response. response ≡ kept settings.now facts.now viewed) }
{
    let deletion = deletion(alloc, &viewed.session)?;
    page_response(alloc, settings, facts, viewed.page, deletion)
}

// Where a session cookie came and no session is left, the cookie is deleted.
fn deletion(alloc: Global, session: &SessionBox) -> Result<Option<Text>, AllocError>
    ensures { IfOk result (λ cookie. option_to_list cookie ≡ deletions session.now) }
{
    if session.came && holds_nothing(session) {
        Ok(Some(delete_cookie_text(alloc, "sessionid")?))
    } else {
        Ok(None)
    }
}

fn stored(
    alloc: Global,
    settings: &Settings,
    facts: &Facts,
    viewed: Viewed,
    value: &Text,
) -> Result<Response, AllocError>
    ensures { IfOk result (λ response. response ≡ stored settings.now facts.now viewed value.now) }
{
    let expiry = viewed.session.map.expiry();
    let cookie = session_text(alloc, settings, facts, expiry, value.as_str())?;
    page_response(alloc, settings, facts, viewed.page, Some(cookie))
}

fn gone(alloc: Global, facts: &Facts) -> Result<Response, AllocError>
    ensures { IfOk result (λ response. response ≡ gone facts.now) }
{
    unwritten_response(alloc, facts, 400, "error=session-deleted\n")
}

fn holds_nothing(session: &SessionBox) -> bool
    ensures { result ≡ holds_nothing session.now }
{
    session.key.is_none() && is_empty(&session.map)
}

fn is_empty(map: &SessionMap) -> bool
    ensures { result ≡ is_empty_map map.now }
{
    map.is_empty()
}
