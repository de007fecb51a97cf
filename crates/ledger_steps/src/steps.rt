//! Taking steps.

ghost use Rattle.std.specs.Prelude.{◌≢◌, IfOk};
ghost use Rattle.ledger_rows.specs.Form.{IsSessionKey};
ghost use Rattle.ledger_rows.specs.Opening.{IsOpening};
ghost use Rattle.ledger_rows.specs.Replies.{IsPayload};
ghost use Rattle.ledger_rows.specs.Step.{IsOperation};

use crate::line::{Kind, Work};
use crate::site::{login_payload, site};
use anyhow::{Result, bail};
use crypto_text::{Ids, Text};
use keepers::{Keeper, MemKeeper};
use ledger_rows::{Cfg, Op, Opening, Reply, Tag, Verdict, is_session_key};
use session_engines::Ledger;
use std::alloc::{AllocError, Global};

/// The moment of each step, in seconds since 1970.
const NOW: u64 = 1_700_000_000;

/// How long sessions last, in seconds: two weeks.
const LIFETIME: u64 = 1_209_600;

/// How many steps of the work get the reply that is due, in a new store.
pub(crate) fn due_replies(alloc: Global, work: Work) -> Result<u32> {
    let keeper = MemKeeper::new(alloc, Ids::from_vec(Vec::new(alloc)));
    let (cfg, opening) = site(alloc)?;
    due_replies_over(alloc, keeper, cfg, &opening, work)
}

// Generic over the keeper, so that no proof unfolds what a keeper in memory reports.
fn due_replies_over<K: Keeper>(
    alloc: Global,
    keeper: K,
    cfg: Cfg,
    opening: &Opening,
    work: Work,
) -> Result<u32>
    requires { IsOpening opening.now }
{
    let payload = login_payload(alloc, opening)?;
    let Ok(mut ledger) = Ledger::open_with(alloc, keeper, cfg, opening) else {
        bail!("the store can't be opened");
    };
    if take_all(alloc, &mut ledger, &payload, work.before())? != work.sessions {
        bail!("a session wasn't stored");
    }
    take_all(alloc, &mut ledger, &payload, work)
}

// How many of the steps get the reply that is due.
fn take_all<K: Keeper>(
    alloc: Global,
    ledger: &mut Ledger<K>,
    payload: &Text,
    work: Work,
) -> Result<u32>
    requires { IsPayload payload.now }
{
    let mut due = 0_u32;
    for step in 0..work.steps {
        if is_due(alloc, ledger, payload, work.kind, work.session_at(step))? {
            due = due.saturating_add(1);
        }
    }
    Ok(due)
}

// Takes one step, and says whether it gets the reply that is due.
fn is_due<K: Keeper>(
    alloc: Global,
    ledger: &mut Ledger<K>,
    payload: &Text,
    kind: Kind,
    number: u64,
) -> Result<bool>
    requires { IsPayload payload.now }
{
    let key = session_key(alloc, number)?;
    let op = op_of(alloc, kind, key, payload)?;
    let tag = Tag {
        boot: ledger.boot(),
        worker: 1,
        request: 1,
        step: 0,
    };
    Ok(is_due_reply(&ledger.step(alloc, tag, &op)?))
}

fn is_due_reply(reply: &Reply) -> bool {
    match reply {
        Reply::Loaded { verdict, .. } => matches!(verdict, Verdict::Admitted { .. }),
        Reply::Stored { .. } | Reply::Done => true,
        _ => false,
    }
}

fn op_of(alloc: Global, kind: Kind, key: Text, payload: &Text) -> Result<Op, AllocError>
    requires key { IsSessionKey key }
    requires payload { IsPayload payload.now }
    ensures operation { IfOk result IsOperation }
    ensures no_start { IfOk result (λ op. op ≢ Op.Boot) }
{
    match kind {
        Kind::Load => Ok(Op::Load {
            cookie: Some(key),
            now: NOW,
        }),
        Kind::Create => Ok(Op::Create {
            key,
            payload: payload.copy(alloc)?,
            seconds: LIFETIME,
            now: NOW,
        }),
        Kind::Save => Ok(Op::Save {
            key,
            payload: payload.copy(alloc)?,
            seconds: LIFETIME,
            now: NOW,
        }),
        Kind::Delete => Ok(Op::Delete { key }),
    }
}

// The digits of a scattered number first, so that keys differ early and stand in another order than their numbers.
fn session_key(alloc: Global, number: u64) -> Result<Text>
    ensures { IfOk result IsSessionKey }
{
    let scattered = number.wrapping_mul(0x9e37_79b9_7f4a_7c15);
    let key = format!(in alloc; "{scattered:020}{number:012}")?;
    if !is_session_key(key.as_str()) {
        bail!("no session key");
    }
    Ok(Text::from_string(key))
}
