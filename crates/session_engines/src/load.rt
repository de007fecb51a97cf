//! The operation `Load`: who is asking.

ghost use Rattle.std.specs.Prelude.{◌≡◌, IfOk, IfSome, Some};
ghost use Rattle.std.specs.Option.{option_copied};
ghost use Rattle.session_codec.specs.SessionMap.{auth_of};
ghost use Rattle.session_codec.specs.SessionText.{payload_of};
ghost use Rattle.ledger_rows.specs.Admission.{IsRowOf, is_short, named_user, session_map, session_text, verdict_on_auth};
ghost use Rattle.ledger_rows.specs.Replies.{IsPayload};
ghost use Rattle.ledger_rows.specs.Rows.{IsSoundUser};
ghost use Rattle.ledger_rows.specs.Step.{admitted_user, empty_payload, loaded};
ghost use Rattle.keepers.specs.Keeper.{Answers, MayHold, OnlyReads};
ghost use Rattle.session_engines.specs.Loading.{IsLoadReply, corrupt, judged, loaded_text, unstored};
ghost use Rattle.session_engines.specs.Taking.{IsAnswer, uncached};

use crate::answer::Answer;
use crypto_text::Text;
use keepers::{Keeper, KeeperFault};
use ledger_rows::{AuthKeys, Cfg, Judgement, Op, Reply, UserRow, Verdict, judge};
use session_codec::{DecodeFault, SessionKind, SessionMap, decode, payload};
use signing_core::Keys;
use std::alloc::{AllocError, Global};

/// Answers a load of a cookie at a moment. A cookie under which nothing is stored costs one look-up. The keys that the last
/// load made ready are used again where they are still the keeper's.
pub fn load<K: Keeper>(
    alloc: Global,
    keeper: &mut K,
    ready: &mut Option<AuthKeys>,
    cfg: &Cfg,
    cookie: Option<&Text>,
    now: u64,
) -> Result<Answer, KeeperFault>
    requires { MayHold (K.seen keeper.old).report }
    ensures ok { IfOk result (IsAnswer cfg.now (Op.Load (option_copied cookie.entry) now) (K.seen keeper.old)) }
    ensures reads { OnlyReads (K.seen keeper.old) (K.seen keeper.new) result }
{
    let reply = loaded(alloc, keeper, ready, cfg, cookie, now)?;
    Ok(Answer::unchanged(alloc, reply))
}

fn loaded<K: Keeper>(
    alloc: Global,
    keeper: &mut K,
    ready: &mut Option<AuthKeys>,
    cfg: &Cfg,
    cookie: Option<&Text>,
    now: u64,
) -> Result<Reply, KeeperFault>
    requires { MayHold (K.seen keeper.old).report }
    ensures value { Answers (K.seen keeper.old) result (λ tables. loaded cfg.now (uncached tables) (option_copied cookie.entry) now) }
    ensures kind { IfOk result IsLoadReply }
    ensures reads { OnlyReads (K.seen keeper.old) (K.seen keeper.new) result }
{
    match live_text(alloc, keeper, cookie, now)? {
        Some(text) => load_text(alloc, keeper, ready, cfg, cookie, text.as_str(), now),
        None => Ok(unstored(alloc, cookie)?),
    }
}

fn live_text<K: Keeper>(
    alloc: Global,
    keeper: &mut K,
    cookie: Option<&Text>,
    now: u64,
) -> Result<Option<Text>, KeeperFault>
    requires { MayHold (K.seen keeper.old).report }
    ensures value { Answers (K.seen keeper.old) result (λ tables. session_text tables.sessions (option_copied cookie.entry) now) }
    ensures reads { OnlyReads (K.seen keeper.old) (K.seen keeper.new) result }
{
    match cookie {
        Some(key) if key.as_str().len() >= 8 => match keeper.session(alloc, key.as_str())? {
            Some(row) if row.expire > now => Ok(Some(row.text)),
            _ => Ok(None),
        },
        _ => Ok(None),
    }
}

fn load_text<K: Keeper>(
    alloc: Global,
    keeper: &mut K,
    ready: &mut Option<AuthKeys>,
    cfg: &Cfg,
    cookie: Option<&Text>,
    text: &str,
    now: u64,
) -> Result<Reply, KeeperFault>
    requires { MayHold (K.seen keeper.old).report }
    ensures value { Answers (K.seen keeper.old) result (λ tables. loaded_text cfg.now.backends tables (option_copied cookie.entry) now text.now) }
    ensures kind { IfOk result IsLoadReply }
    ensures reads { OnlyReads (K.seen keeper.old) (K.seen keeper.new) result }
{
    let listed = keeper.keys(alloc)?;
    let keys = made_ready(alloc, ready, listed)?;
    let present = keys.keys();
    match map_of(alloc, present, text, now)? {
        Some(map) => load_map(alloc, keeper, cfg, keys, cookie, &map),
        None => Ok(corrupt(alloc, cookie)?),
    }
}

// The keys made ready: those of an earlier load, where they are the same.
fn made_ready(
    alloc: Global,
    ready: &mut Option<AuthKeys>,
    keys: Keys,
) -> Result<&AuthKeys, AllocError>
    ensures { IfOk result (λ made. made.now ≡ keys) }
{
    let made = match ready.take() {
        Some(earlier) if earlier.are(&keys) => earlier,
        _ => AuthKeys::new(alloc, keys)?,
    };
    Ok(ready.insert(made))
}

fn load_map<K: Keeper>(
    alloc: Global,
    keeper: &mut K,
    cfg: &Cfg,
    keys: &AuthKeys,
    cookie: Option<&Text>,
    map: &SessionMap,
) -> Result<Reply, KeeperFault>
    requires { MayHold (K.seen keeper.old).report }
    ensures value { Answers (K.seen keeper.old) result (λ tables. judged cfg.now.backends keys.now (option_copied cookie.entry) map.now (named_user tables.users (auth_of map.now))) }
    ensures kind { IfOk result IsLoadReply }
    ensures reads { OnlyReads (K.seen keeper.old) (K.seen keeper.new) result }
{
    let user = user_of(alloc, keeper, map)?;
    Ok(judged(alloc, cfg, keys, cookie, map, user)?)
}

fn user_of<K: Keeper>(
    alloc: Global,
    keeper: &mut K,
    map: &SessionMap,
) -> Result<Option<UserRow>, KeeperFault>
    requires { MayHold (K.seen keeper.old).report }
    ensures value { Answers (K.seen keeper.old) result (λ tables. named_user tables.users (auth_of map.now)) }
    ensures row { IfOk result (IsRowOf (auth_of map.now)) }
    ensures sound { IfOk result (λ user. IfSome user IsSoundUser) }
    ensures reads { OnlyReads (K.seen keeper.old) (K.seen keeper.new) result }
{
    match map.auth_part() {
        Some(part) => keeper.user_by_id(alloc, part.user),
        None => Ok(None),
    }
}

fn map_of(
    alloc: Global,
    keys: &Keys,
    text: &str,
    now: u64,
) -> Result<Option<SessionMap>, AllocError>
    ensures { IfOk result (λ map. map ≡ session_map keys.now now (Some text.now)) }
{
    match decode(alloc, text, SessionKind::Stored, keys, now) {
        Ok(map) => Ok(Some(map)),
        Err(DecodeFault::Memory) => Err(AllocError),
        Err(DecodeFault::Corrupt) => Ok(None),
        Err(DecodeFault::Expired { .. }) => Ok(None),
    }
}

// No session that isn't over is stored under the cookie.
fn unstored(alloc: Global, cookie: Option<&Text>) -> Result<Reply, AllocError>
    ensures value { IfOk result (λ reply. reply ≡ unstored (option_copied cookie.entry)) }
    ensures kind { IfOk result IsLoadReply }
{
    let verdict = if is_short(cookie) {
        Verdict::NoCookie
    } else {
        Verdict::NotStored
    };
    Ok(Reply::Loaded {
        verdict,
        key: None,
        payload: empty_payload(alloc)?,
        user: None,
    })
}

fn is_short(cookie: Option<&Text>) -> bool
    ensures { result ≡ is_short (option_copied cookie.entry) }
{
    match cookie {
        Some(cookie) => cookie.as_str().len() < 8,
        None => true,
    }
}

// What is stored under the cookie can't be read.
fn corrupt(alloc: Global, cookie: Option<&Text>) -> Result<Reply, AllocError>
    ensures value { IfOk result (λ reply. reply ≡ corrupt (option_copied cookie.entry)) }
    ensures kind { IfOk result IsLoadReply }
{
    Ok(Reply::Loaded {
        verdict: Verdict::Corrupt,
        key: cookie.map(|text| text.copy(alloc)).transpose()?,
        payload: empty_payload(alloc)?,
        user: None,
    })
}

fn empty_payload(alloc: Global) -> Result<Text, AllocError>
    ensures value { IfOk result (λ text. text ≡ empty_payload) }
    ensures payload { IfOk result IsPayload }
{
    payload_text(alloc, &SessionMap::new(alloc))
}

fn payload_text(alloc: Global, map: &SessionMap) -> Result<Text, AllocError>
    ensures value { IfOk result (λ text. text ≡ payload_of map.now) }
    ensures payload { IfOk result IsPayload }
{
    Ok(payload(alloc, map)?)
}

// What is stored under the cookie was read.
fn judged(
    alloc: Global,
    cfg: &Cfg,
    keys: &AuthKeys,
    cookie: Option<&Text>,
    map: &SessionMap,
    user: Option<UserRow>,
) -> Result<Reply, AllocError>
    requires row { IsRowOf (auth_of map.now) user }
    requires sound { IfSome user IsSoundUser }
    ensures value { IfOk result (λ reply. reply ≡ judged cfg.now.backends keys.now (option_copied cookie.entry) map.now user) }
    ensures kind { IfOk result IsLoadReply }
{
    let found = judgement(alloc, cfg, keys, map, user)?;
    Ok(Reply::Loaded {
        verdict: found.verdict,
        key: cookie.map(|text| text.copy(alloc)).transpose()?,
        payload: payload_text(alloc, map)?,
        user: found.user,
    })
}

fn judgement(
    alloc: Global,
    cfg: &Cfg,
    keys: &AuthKeys,
    map: &SessionMap,
    user: Option<UserRow>,
) -> Result<Judgement, AllocError>
    requires { IsRowOf (auth_of map.now) user }
    ensures verdict { IfOk result (λ found. found.verdict ≡ verdict_on_auth cfg.now.backends keys.now (auth_of map.now) user) }
    ensures user { IfOk result (λ found. found.user ≡ admitted_user found.verdict keys.now user) }
{
    match map.auth_part() {
        Some(part) => judge(alloc, Some(&part), cfg.backends.items(), user, keys),
        None => judge(alloc, None, cfg.backends.items(), user, keys),
    }
}
