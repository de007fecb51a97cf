//! The operations of the store, over a keeper in memory of which each call fails in turn.

mod resets;
mod users;

use super::*;
use ledger_rows::{Reply, Verdict, op_ok};
use session_engines::{Ledger, StepFault};
use site_file::{SettingsAll, read_settings};

const NEW_KEY: &str = "aaaaaaaaaaaaaaaaaaaaaaaaaaaaaaaa";

const NEXT_KEY: &str = "bbbbbbbbbbbbbbbbbbbbbbbbbbbbbbbb";

const NOW: u64 = 1_700_000_000;

#[test]
fn operations_on_sessions_are_answered(rt: HostRuntime) -> Result<(), Fail> {
    let alloc = rt.alloc();
    // Four calls open the store, and the last of the others has a number below 48.
    for fail_at in 4..48 {
        assert_eq!(rt; first_wrong(alloc, fail_at, 0, 14)?, None, "call {fail_at}");
    }
    Ok(())
}

#[test]
fn operations_on_users_are_answered(rt: HostRuntime) -> Result<(), Fail> {
    let alloc = rt.alloc();
    for fail_at in 4..80 {
        assert_eq!(rt;
            first_wrong(alloc, fail_at, 36, 60)?,
            None,
            "call {fail_at}"
        );
    }
    Ok(())
}

#[test]
fn operations_on_resets_are_answered(rt: HostRuntime) -> Result<(), Fail> {
    let alloc = rt.alloc();
    for fail_at in 4..80 {
        assert_eq!(rt;
            first_wrong(alloc, fail_at, 60, 77)?,
            None,
            "call {fail_at}"
        );
    }
    Ok(())
}

#[test]
fn operations_on_keys_are_answered(rt: HostRuntime) -> Result<(), Fail> {
    let alloc = rt.alloc();
    for fail_at in 4..52 {
        assert_eq!(rt;
            first_wrong(alloc, fail_at, 14, 36)?,
            None,
            "call {fail_at}"
        );
    }
    Ok(())
}

/// Does a part of the operations over a keeper whose call of this number fails, each once more after a failure. Gives the
/// number of the first that is answered otherwise than it should be, or whose entry is missing in the audit list.
fn first_wrong(
    alloc: Global,
    fail_at: u64,
    first: usize,
    end: usize,
) -> Result<Option<usize>, AllocError> {
    let fails = Ids::of(alloc, &[fail_at])?;
    let keeper = MemKeeper::new(alloc, fails);
    match steps_over(alloc, keeper, first, end)? {
        Some((None, keeper)) => first_missing(alloc, keeper.entries(), first, end),
        Some((wrong, _)) => Ok(wrong),
        None => Ok(Some(end)),
    }
}

// Generic over the keeper, so that no proof unfolds the one in memory.
fn steps_over<K: Keeper>(
    alloc: Global,
    keeper: K,
    first: usize,
    end: usize,
) -> Result<Option<(Option<usize>, K)>, AllocError> {
    match opened(alloc, keeper)? {
        Some(ledger) => {
            let mut ledger = ledger;
            let wrong = first_wrong_answer(alloc, &mut ledger, first, end)?;
            Ok(Some((wrong, ledger.close())))
        }
        None => Ok(None),
    }
}

fn first_wrong_answer<K: Keeper>(
    alloc: Global,
    ledger: &mut Ledger<K>,
    first: usize,
    end: usize,
) -> Result<Option<usize>, AllocError> {
    for at in first..end {
        if !is_answered_at(alloc, ledger, at)? {
            return Ok(Some(at));
        }
    }
    Ok(None)
}

// Operation and reply are owned by two functions, so that the proof of neither has to drop both.
fn is_answered_at<K: Keeper>(
    alloc: Global,
    ledger: &mut Ledger<K>,
    at: usize,
) -> Result<bool, AllocError> {
    let op = operation(alloc, at)?;
    is_answered_by(alloc, ledger, at, &op)
}

fn is_answered_by<K: Keeper>(
    alloc: Global,
    ledger: &mut Ledger<K>,
    at: usize,
    op: &Op,
) -> Result<bool, AllocError> {
    let due = reply(alloc, at)?;
    is_answered_as(alloc, ledger, op, &due)
}

// A copy of the reply is compared, so that each reply is copied once.
fn is_answered_as<K: Keeper>(
    alloc: Global,
    ledger: &mut Ledger<K>,
    op: &Op,
    due: &Reply,
) -> Result<bool, AllocError> {
    let copy = due.copy(alloc)?;
    is_answered(alloc, ledger, op, &copy)
}

// The first entry is that of the start.
fn first_missing(
    alloc: Global,
    entries: &[Entry],
    first: usize,
    end: usize,
) -> Result<Option<usize>, AllocError> {
    let mut found = entries.iter().skip(1);
    for at in first..end {
        if !is_entered(alloc, found.next(), at)? {
            return Ok(Some(at));
        }
    }
    Ok(found.next().map(|_| end))
}

fn opened<K: Keeper>(alloc: Global, keeper: K) -> Result<Option<Ledger<K>>, AllocError> {
    let Ok(SettingsAll { settings, opening }) = read_settings(alloc, ALICES_SITE.as_bytes()) else {
        return Ok(None);
    };
    let cfg = settings.cfg.copy(alloc)?;
    Ok(Ledger::open_with(alloc, keeper, cfg, &opening).ok())
}

fn is_answered<K: Keeper>(
    alloc: Global,
    ledger: &mut Ledger<K>,
    op: &Op,
    due: &Reply,
) -> Result<bool, AllocError> {
    if *op == Op::Boot || !op_ok(alloc, op)? {
        return Ok(false);
    }
    let length = ledger.history_len();
    match ledger.step(alloc, tag(), op) {
        Ok(reply) => Ok(reply == *due && ledger.history_len() == length + 1),
        Err(
            StepFault::Keeper {
                before: 0,
                after: 1,
            },
        ) if ledger.history_len() == length => match ledger.step(alloc, tag(), op) {
            Ok(reply) => Ok(reply == *due),
            Err(_) => Ok(false),
        },
        Err(_) => Ok(false),
    }
}

fn is_entered(alloc: Global, found: Option<&Entry>, at: usize) -> Result<bool, AllocError> {
    let due = Entry {
        tag: tag(),
        op: operation(alloc, at)?,
    };
    Ok(found == Some(&due))
}

fn tag() -> Tag {
    Tag {
        boot: 1,
        worker: 1,
        request: 1,
        step: 0,
    }
}

fn operation(alloc: Global, at: usize) -> Result<Op, AllocError> {
    match at {
        0..36 => on_sessions_and_keys(alloc, at),
        36..60 => users::operation(alloc, at),
        _ => resets::operation(alloc, at),
    }
}

fn on_sessions_and_keys(alloc: Global, at: usize) -> Result<Op, AllocError> {
    match at {
        0 | 1 => Ok(Op::Create {
            key: text_of(alloc, NEW_KEY)?,
            payload: text_of(alloc, "{}")?,
            seconds: 5,
            now: NOW,
        }),
        2 => save(alloc, NEW_KEY),
        3 => load_at(alloc, NEW_KEY, 6),
        4 => load_at(alloc, NEW_KEY, 7),
        5 => cycle(alloc, "gone", NEXT_KEY),
        6 => cycle(alloc, NEW_KEY, ALICES_KEY),
        7 => cycle(alloc, NEW_KEY, NEXT_KEY),
        8 => load_at(alloc, NEW_KEY, 0),
        9 => Ok(Op::ClearExpired { now: NOW + 1 }),
        10 => Ok(Op::ClearExpired { now: NOW + 2 }),
        11 | 13 => Ok(Op::Delete {
            key: text_of(alloc, NEXT_KEY)?,
        }),
        12 => save(alloc, NEXT_KEY),
        14 | 15 => rotate(alloc, b"k1"),
        16 => save(alloc, ALICES_KEY),
        17 => Ok(Op::RetireKeys),
        18 => load_at(alloc, ALICES_KEY, 6),
        19 | 20 => rotate(alloc, b"k0"),
        _ => rotate(alloc, format!(in alloc; "k{at}")?.as_bytes()),
    }
}

fn save(alloc: Global, key: &str) -> Result<Op, AllocError> {
    Ok(Op::Save {
        key: text_of(alloc, key)?,
        payload: text_of(alloc, "{\"a\":1}")?,
        seconds: 7,
        now: NOW,
    })
}

fn cycle(alloc: Global, old: &str, key: &str) -> Result<Op, AllocError> {
    Ok(Op::Cycle {
        old: text_of(alloc, old)?,
        key: text_of(alloc, key)?,
        payload: text_of(alloc, "{}")?,
        seconds: 5,
        now: NOW,
    })
}

fn rotate(alloc: Global, key: &[u8]) -> Result<Op, AllocError> {
    Ok(Op::RotateKey {
        key: Bytes::of(alloc, key)?,
    })
}

fn load_at(alloc: Global, cookie: &str, seconds: u64) -> Result<Op, AllocError> {
    Ok(Op::Load {
        cookie: Some(text_of(alloc, cookie)?),
        now: NOW.saturating_add(seconds),
    })
}

fn reply(alloc: Global, at: usize) -> Result<Reply, AllocError> {
    match at {
        0..36 => to_sessions_and_keys(alloc, at),
        36..60 => users::reply(alloc, at),
        _ => resets::reply(alloc, at),
    }
}

fn to_sessions_and_keys(alloc: Global, at: usize) -> Result<Reply, AllocError> {
    match at {
        0 | 2 => stored(alloc, NEW_KEY),
        1 | 6 => Ok(Reply::Taken),
        3 => loaded(
            alloc,
            Verdict::NoAuth,
            Some(text_of(alloc, NEW_KEY)?),
            "{\"a\":1}",
        ),
        4 | 8 => loaded(alloc, Verdict::NotStored, None, "{}"),
        5 | 12 => Ok(Reply::Gone),
        7 => stored(alloc, NEXT_KEY),
        9 => Ok(Reply::Cleared { count: 0 }),
        10 => Ok(Reply::Cleared { count: 1 }),
        15 | 20 => Ok(Reply::KeyHeld),
        16 => stored(alloc, ALICES_KEY),
        18 => loaded(
            alloc,
            Verdict::NoAuth,
            Some(text_of(alloc, ALICES_KEY)?),
            "{\"a\":1}",
        ),
        35 => Ok(Reply::TooManyKeys),
        _ => Ok(Reply::Done),
    }
}

fn stored(alloc: Global, key: &str) -> Result<Reply, AllocError> {
    Ok(Reply::Stored {
        cookie: text_of(alloc, key)?,
    })
}

fn loaded(
    alloc: Global,
    verdict: Verdict,
    key: Option<Text>,
    payload: &str,
) -> Result<Reply, AllocError> {
    Ok(Reply::Loaded {
        verdict,
        key,
        payload: text_of(alloc, payload)?,
        user: None,
    })
}
