//! Runs of requests with steps, compared whole: the responses, the audit list, and the sessions that are left.

use super::stored::{Row, are_stored, is_alice};
use super::*;
use std::str::from_utf8;

pub(super) const NOW: u64 = 1_700_000_000;

/// Two weeks.
pub(super) const USUAL_SECONDS: u64 = 1_209_600;

/// The moment from which on a session of that length is over.
pub(super) const USUAL_END: u64 = 1_701_209_600;

/// The one key that is drawn where each random word is 0.
pub(super) const NEW_KEY: &str = "aaaaaaaaaaaaaaaaaaaaaaaaaaaaaaaa";

pub(super) const CSRF_COOKIE: &str = "csrftoken=aaaaaaaaaaaaaaaaaaaaaaaaaaaaaaaa";

/// Two keys, alice, and a session of hers under each: the first is over at 1700000001, the second at 1700500000.
pub(super) const TWO_KEYS_SITE: &str =
    r#"{"keys":["k0","k1"],"allowed_hosts":["example.com"],"hashers":["md5"],"opening":{"users":[{"id":1,"name":"alice","email":"alice@example.com","password":"md5$abcdefghijklmnopqrstuv$c3fcd3d76192e4007dfb496cca67e13b","active":true,"superuser":false,"groups":[],"perms":[]}],"sessions":[{"key":"s1s1s1s1s1s1s1s1s1s1s1s1s1s1s1s1","user":1,"backend":0,"under":0,"at":1699999000,"expire":1700000001},{"key":"s2s2s2s2s2s2s2s2s2s2s2s2s2s2s2s2","user":1,"backend":0,"under":1,"at":1699999000,"expire":1700500000}]}}"#;

/// A step that is to be entered.
#[derive(Clone, Copy)]
pub(super) struct Done<'a> {
    pub(super) worker: u64,
    pub(super) request: u64,
    pub(super) step: u64,
    pub(super) what: Asked<'a>,
}

#[derive(Clone, Copy)]
pub(super) enum Asked<'a> {
    Load(Option<&'a str>),
    /// A session of this map under the new key, for so many seconds.
    Create(&'a str, u64),
    /// This map in the session of a key.
    Save(&'a str, &'a str),
    /// The new key in place of this one, with this map.
    Cycle(&'a str, &'a str),
    Delete(&'a str),
    RetireKeys,
    /// A session of this map under a key.
    Begin(&'a str, &'a str),
    /// Another key in place of the old one, with this map.
    Move(&'a str, &'a str, &'a str),
    Rotate(&'a str),
    Find(&'a str),
    /// Of user 1, the fresh text in place of the expected one.
    Password(&'a str, &'a str),
    /// Of a login of user 1.
    Stamp,
}

/// A step of worker 1.
pub(super) fn step_at(request: u64, step: u64, what: Asked<'_>) -> Done<'_> {
    Done {
        worker: 1,
        request,
        step,
        what,
    }
}

/// A response to which the connection stays open.
#[derive(Clone, Copy)]
pub(super) struct Answer<'a> {
    pub(super) status: &'a str,
    /// What it has beside the fields of each.
    pub(super) lines: &'a str,
    pub(super) body: &'a str,
}

/// What a run over a new store is to leave.
#[derive(Clone, Copy)]
pub(super) struct Left<'a> {
    pub(super) output: &'a str,
    pub(super) steps: &'a [Done<'a>],
    /// All sessions of the store.
    pub(super) rows: &'a [Row<'a>],
}

/// The text of a response.
pub(super) fn answer_text(alloc: Global, answer: &Answer<'_>) -> Result<String, AllocError> {
    let length = answer.body.len();
    page(
        alloc,
        answer.status,
        length,
        answer.lines,
        "keep-alive",
        answer.body,
    )
}

/// The text of two responses.
pub(super) fn answer_texts(
    alloc: Global,
    first: &Answer<'_>,
    second: &Answer<'_>,
) -> Result<String, AllocError> {
    let mut text = answer_text(alloc, first)?;
    text.push_str(answer_text(alloc, second)?.as_str())?;
    Ok(text)
}

/// The text of a request that sends a form to `/session/`.
pub(super) fn post(alloc: Global, cookie: &str, form: &str) -> Result<String, AllocError> {
    post_to(alloc, "/session/", cookie, form)
}

/// The text of a request that sends a form to a path.
pub(super) fn post_to(
    alloc: Global,
    path: &str,
    cookie: &str,
    form: &str,
) -> Result<String, AllocError> {
    let length = form.len();
    format!(in alloc;
        "POST {path} HTTP/1.1\r\nHost: example.com\r\nCookie: {cookie}\r\nContent-Type: application/x-www-form-urlencoded\r\nContent-Length: {length}\r\n\r\n{form}"
    )
}

/// Runs `pipe` over a new store, and compares what it leaves.
pub(super) fn leaves(
    rt: &impl Abort,
    alloc: Global,
    given: &Given<'_>,
    left: &Left<'_>,
    case: &str,
) -> Result<(), Fail> {
    let mut draw = draw(alloc);
    leaves_drawing(rt, alloc, given, left, case, &mut draw)
}

/// The same with other random words.
pub(super) fn leaves_drawing<W: Words>(
    rt: &impl Abort,
    alloc: Global,
    given: &Given<'_>,
    left: &Left<'_>,
    case: &str,
    draw: &mut W,
) -> Result<(), Fail> {
    let words = words_of(alloc, &["site.json", "mem", "pipe"])?;
    let mut output = sink(alloc, given.write_fails)?;
    let keeper = MemKeeper::new(alloc, Ids::of(alloc, given.store_fails)?);
    let (status, mut keeper) = run_drawing(alloc, &words, given, &mut output, keeper, draw)?;
    assert_eq!(rt; status, Status::Done, "{case}");
    assert_eq!(rt; from_utf8(output.bytes()).ok(), Some(left.output), "{case}");
    assert!(rt; are_entered(alloc, keeper.entries(), left.steps)?, "{case}");
    assert!(rt; are_stored(alloc, &mut keeper, left.rows)?, "{case}");
    assert!(rt; is_alice(alloc, &mut keeper, left.steps)?, "{case}");
    Ok(())
}

/// Whether the audit list has the start and these steps.
pub(super) fn are_entered(
    alloc: Global,
    entries: &[Entry],
    steps: &[Done<'_>],
) -> Result<bool, AllocError> {
    let mut found = entries.iter();
    if found.next() != Some(&boot()) {
        return Ok(false);
    }
    for step in steps {
        if !is_entered(alloc, found.next(), step)? {
            return Ok(false);
        }
    }
    Ok(found.next().is_none())
}

fn is_entered(alloc: Global, found: Option<&Entry>, due: &Done<'_>) -> Result<bool, AllocError> {
    let tag = Tag {
        boot: 1,
        worker: due.worker,
        request: due.request,
        step: due.step,
    };
    let op = op_of(alloc, due.what)?;
    Ok(found == Some(&Entry { tag, op }))
}

pub(super) fn op_of(alloc: Global, asked: Asked<'_>) -> Result<Op, AllocError> {
    match asked {
        Asked::Load(cookie) => Ok(Op::Load {
            cookie: cookie.map(|key| text_of(alloc, key)).transpose()?,
            now: NOW,
        }),
        Asked::Create(map, seconds) => Ok(Op::Create {
            key: text_of(alloc, NEW_KEY)?,
            payload: text_of(alloc, map)?,
            seconds,
            now: NOW,
        }),
        Asked::Save(key, map) => Ok(Op::Save {
            key: text_of(alloc, key)?,
            payload: text_of(alloc, map)?,
            seconds: USUAL_SECONDS,
            now: NOW,
        }),
        Asked::Cycle(old, map) => Ok(Op::Cycle {
            old: text_of(alloc, old)?,
            key: text_of(alloc, NEW_KEY)?,
            payload: text_of(alloc, map)?,
            seconds: USUAL_SECONDS,
            now: NOW,
        }),
        Asked::Delete(key) => Ok(Op::Delete {
            key: text_of(alloc, key)?,
        }),
        Asked::RetireKeys => Ok(Op::RetireKeys),
        _ => other_op(alloc, asked),
    }
}

fn other_op(alloc: Global, asked: Asked<'_>) -> Result<Op, AllocError> {
    match asked {
        Asked::Begin(key, map) => Ok(Op::Create {
            key: text_of(alloc, key)?,
            payload: text_of(alloc, map)?,
            seconds: USUAL_SECONDS,
            now: NOW,
        }),
        Asked::Move(old, key, map) => Ok(Op::Cycle {
            old: text_of(alloc, old)?,
            key: text_of(alloc, key)?,
            payload: text_of(alloc, map)?,
            seconds: USUAL_SECONDS,
            now: NOW,
        }),
        Asked::Rotate(key) => Ok(Op::RotateKey {
            key: Bytes::of(alloc, key.as_bytes())?,
        }),
        Asked::Find(name) => Ok(Op::FindUser {
            name: text_of(alloc, name)?,
        }),
        Asked::Password(expected, fresh) => Ok(Op::SetPassword {
            user: 1,
            expected: text_of(alloc, expected)?,
            fresh: text_of(alloc, fresh)?,
        }),
        _ => Ok(Op::SetLastLogin { user: 1, now: NOW }),
    }
}
