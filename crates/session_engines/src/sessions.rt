//! The operations on sessions: `Create`, `Save`, `Cycle`, `Delete` and `ClearExpired`.

ghost use Rattle.std.specs.Prelude.{◌≡◌, IfOk, IsTrue, Some};
ghost use Rattle.session_codec.specs.SessionText.{map_of_payload};
ghost use Rattle.ledger_rows.specs.Form.{IsSessionKey};
ghost use Rattle.ledger_rows.specs.Replies.{IsPayload};
ghost use Rattle.ledger_rows.specs.SessionSteps.{has_session, written_row};
ghost use Rattle.ledger_rows.specs.Step.{IsBeginning, IsWriting};
ghost use Rattle.ledger_rows.specs.declared.rows.Cfg.{Cfg as CfgView};
ghost use Rattle.keepers.specs.Keeper.{Answers, Kept, MayHold, OnlyReads};
ghost use Rattle.session_engines.specs.Taking.{IsAnswer};

use crate::answer::Answer;
use crypto_text::Text;
use keepers::{Change, Keeper, KeeperFault};
use ledger_rows::{Op, Reply, SessionRow};
use session_codec::{DecodeFault, SessionKind, SessionMap, encode, from_payload};
use signing_core::Keys;
use std::alloc::{AllocError, Global};

/// Begins a session, unless there is one of its key.
pub fn create<K: Keeper>(
    alloc: Global,
    keeper: &mut K,
    key: &Text,
    payload: &Text,
    seconds: u64,
    now: u64,
) -> Result<Answer, KeeperFault>
    requires holds { MayHold (K.seen keeper.old).report }
    requires beginning { IsBeginning key.now payload.now seconds now }
    ensures ok { (cfg : CfgView) → IfOk result (IsAnswer cfg (Op.Create key.now payload.now seconds now) (K.seen keeper.old)) }
    ensures reads { OnlyReads (K.seen keeper.old) (K.seen keeper.new) result }
{
    if has_session(alloc, keeper, key)? {
        return Ok(Answer::unchanged(alloc, Reply::Taken));
    }
    let row = written_row(alloc, keeper, key, payload, seconds, now)?;
    let reply = stored(alloc, key)?;
    Ok(Answer::changed(alloc, reply, Change::PutSession(row))?)
}

/// Writes a session that is there: one look-up of its row.
pub fn save<K: Keeper>(
    alloc: Global,
    keeper: &mut K,
    key: &Text,
    payload: &Text,
    seconds: u64,
    now: u64,
) -> Result<Answer, KeeperFault>
    requires holds { MayHold (K.seen keeper.old).report }
    requires writing { IsWriting payload.now seconds now }
    ensures ok { (cfg : CfgView) → IfOk result (IsAnswer cfg (Op.Save key.now payload.now seconds now) (K.seen keeper.old)) }
    ensures reads { OnlyReads (K.seen keeper.old) (K.seen keeper.new) result }
{
    if !has_session(alloc, keeper, key)? {
        return Ok(Answer::unchanged(alloc, Reply::Gone));
    }
    let row = written_row(alloc, keeper, key, payload, seconds, now)?;
    let reply = stored(alloc, key)?;
    Ok(Answer::changed(alloc, reply, Change::PutSession(row))?)
}

/// Puts a session under a new key in place of the one of an old key.
pub fn cycle<K: Keeper>(
    alloc: Global,
    keeper: &mut K,
    old: &Text,
    key: &Text,
    payload: &Text,
    seconds: u64,
    now: u64,
) -> Result<Answer, KeeperFault>
    requires holds { MayHold (K.seen keeper.old).report }
    requires beginning { IsBeginning key.now payload.now seconds now }
    ensures ok { (cfg : CfgView) → IfOk result (IsAnswer cfg (Op.Cycle old.now key.now payload.now seconds now) (K.seen keeper.old)) }
    ensures reads { OnlyReads (K.seen keeper.old) (K.seen keeper.new) result }
{
    if !has_session(alloc, keeper, old)? {
        return Ok(Answer::unchanged(alloc, Reply::Gone));
    }
    if has_session(alloc, keeper, key)? {
        return Ok(Answer::unchanged(alloc, Reply::Taken));
    }
    let row = written_row(alloc, keeper, key, payload, seconds, now)?;
    let reply = stored(alloc, key)?;
    let dropped = Change::DropSession(old.copy(alloc)?);
    let put = Change::PutSession(row);
    Ok(Answer::changed_twice(alloc, reply, dropped, put)?)
}

/// Ends a session, whether or not there is one of the key.
pub fn delete(alloc: Global, key: &Text) -> Result<Answer, AllocError>
    ensures { (cfg : CfgView) (kept : Kept) → IfOk result (IsAnswer cfg (Op.Delete key.now) kept) }
{
    let dropped = Change::DropSession(key.copy(alloc)?);
    Answer::changed(alloc, Reply::Done, dropped)
}

/// Removes the sessions that were over before now.
pub fn clear_expired<K: Keeper>(
    alloc: Global,
    keeper: &mut K,
    now: u64,
) -> Result<Answer, KeeperFault>
    requires { MayHold (K.seen keeper.old).report }
    ensures ok { (cfg : CfgView) → IfOk result (IsAnswer cfg (Op.ClearExpired now) (K.seen keeper.old)) }
    ensures reads { OnlyReads (K.seen keeper.old) (K.seen keeper.new) result }
{
    let count = keeper.count_expired(now)?;
    let reply = Reply::Cleared { count };
    Ok(Answer::changed(alloc, reply, Change::DropExpired(now))?)
}

fn has_session<K: Keeper>(alloc: Global, keeper: &mut K, key: &Text) -> Result<bool, KeeperFault>
    requires { MayHold (K.seen keeper.old).report }
    ensures value { Answers (K.seen keeper.old) result (λ tables. has_session tables.sessions key.now) }
    ensures form { IfOk result (λ held. IsTrue held → IsSessionKey key.now) }
    ensures reads { OnlyReads (K.seen keeper.old) (K.seen keeper.new) result }
{
    match keeper.session(alloc, key.as_str())? {
        Some(_) => Ok(true),
        None => Ok(false),
    }
}

fn stored(alloc: Global, key: &Text) -> Result<Reply, AllocError>
    ensures { IfOk result (λ reply. reply ≡ Reply.Stored key.now) }
{
    Ok(Reply::Stored {
        cookie: key.copy(alloc)?,
    })
}

// The row of a session that is written now.
fn written_row<K: Keeper>(
    alloc: Global,
    keeper: &mut K,
    key: &Text,
    payload: &Text,
    seconds: u64,
    now: u64,
) -> Result<SessionRow, KeeperFault>
    requires holds { MayHold (K.seen keeper.old).report }
    requires writing { IsWriting payload.now seconds now }
    ensures value { Answers (K.seen keeper.old) result (λ tables. written_row tables.keys key.now payload.now seconds now) }
    ensures key { IfOk result (λ row. row.key ≡ key.now) }
    ensures reads { OnlyReads (K.seen keeper.old) (K.seen keeper.new) result }
{
    let keys = keeper.keys(alloc)?;
    Ok(signed_row(alloc, &keys, key, payload, seconds, now)?)
}

fn signed_row(
    alloc: Global,
    keys: &Keys,
    key: &Text,
    payload: &Text,
    seconds: u64,
    now: u64,
) -> Result<SessionRow, AllocError>
    requires { IsWriting payload.now seconds now }
    ensures { IfOk result (λ row. row ≡ written_row keys.now key.now payload.now seconds now) }
{
    let map = map_of(alloc, payload)?;
    Ok(SessionRow {
        key: key.copy(alloc)?,
        text: encode(alloc, &map, SessionKind::Stored, keys, now)?,
        expire: now + seconds,
    })
}

fn map_of(alloc: Global, payload: &Text) -> Result<SessionMap, AllocError>
    requires { IsPayload payload.now }
    ensures { IfOk result (λ map. Some map ≡ map_of_payload payload.now) }
{
    match from_payload(alloc, payload.as_str()) {
        Ok(map) => Ok(map),
        Err(DecodeFault::Memory) => Err(AllocError),
        Err(DecodeFault::Corrupt) => unreachable!(),
        Err(DecodeFault::Expired { .. }) => unreachable!(),
    }
}
