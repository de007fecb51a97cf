//! Requests between whose steps another worker takes some.

use super::logins::*;
use super::runs::*;
use super::stored::*;
use super::*;
use crate::connection::serve;
use crate::step_taker::StepTaker;
use ledger_rows::{Reply, op_ok};
use session_engines::{Ledger, StepFault};
use site_file::{SettingsAll, read_settings};
use std::str::from_utf8;

/// Alice's login and an entry.
const WITH_ENTRY: &str =
    r#"{"_auth_user_backend":"django.contrib.auth.backends.ModelBackend","_auth_user_hash":"94270d73c07ade8a370c7e654f8f8829baaffa1653e6c9641487d371331bcb81","_auth_user_id":"1","n":"v"}"#;

/// A ledger on which the other worker's steps come right before the first request's step of this number.
#[derive(Drop)]
struct Shared<K: Keeper> {
    ledger: Ledger<K>,
    other: &'static [Asked<'static>],
    before: u64,
}

impl<K: Keeper> StepTaker for Shared<K> {
    ghost passed = { λ turns found left. Unit {0} };

    ghost may_enter = { λ taker tag. Unit {0} };

    fn step(&mut self, alloc: Global, tag: Tag, op: &Op) -> Result<Reply, StepFault> {
        if tag.request == 1 && tag.step == self.before {
            take_all(alloc, &mut self.ledger, self.other)?;
        }
        Ledger::step(&mut self.ledger, alloc, tag, op)
    }

    ghost stays = { λ taker. tt };

    ghost adds = { λ one other first next last one_passed other_passed. tt };

    ghost keeps = { λ turns first last tag passed own. tt };
}

fn take_all<K: Keeper>(
    alloc: Global,
    ledger: &mut Ledger<K>,
    others: &[Asked<'_>],
) -> Result<(), StepFault> {
    for (step, other) in others.iter().enumerate() {
        take(alloc, ledger, step as u64, *other)?;
    }
    Ok(())
}

fn take<K: Keeper>(
    alloc: Global,
    ledger: &mut Ledger<K>,
    step: u64,
    other: Asked<'_>,
) -> Result<(), StepFault> {
    let Ok(op) = op_of(alloc, other) else {
        return Err(StepFault::Memory);
    };
    take_op(alloc, ledger, step, &op)
}

fn take_op<K: Keeper>(
    alloc: Global,
    ledger: &mut Ledger<K>,
    step: u64,
    op: &Op,
) -> Result<(), StepFault> {
    if *op == Op::Boot || op_ok(alloc, op) != Ok(true) {
        return Err(StepFault::Full);
    }
    let tag = Tag {
        boot: 1,
        worker: 2,
        request: 1,
        step,
    };
    ledger.step(alloc, tag, op).map(|_| ())
}

/// Serves one connection as worker 1 over a new store, and gives the keeper back. It is generic over the devices, so that
/// no proof unfolds those in memory.
fn serve_over<K: Keeper, I: Source, O: Sink, C: Clock, W: Words>(
    alloc: Global,
    keeper: K,
    case: &Case,
    input: &mut I,
    output: &mut O,
    clock: &mut C,
    draw: &mut W,
) -> Result<Option<K>, AllocError> {
    let Ok(SettingsAll { settings, opening }) = read_settings(alloc, case.settings.as_bytes())
    else {
        return Ok(None);
    };
    let cfg = settings.cfg.copy(alloc)?;
    let Ok(ledger) = Ledger::open_with(alloc, keeper, cfg, &opening) else {
        return Ok(None);
    };
    let boot = ledger.boot();
    let mut taker = Shared {
        ledger,
        other: case.other,
        before: case.before,
    };
    serve(
        alloc, &mut taker, &settings, boot, 1, 1, input, output, clock, draw,
    );
    Ok(Some(taker.ledger.close()))
}

/// A site, the steps of the other worker, before which one of the first request they come, and what is left.
#[derive(Clone, Copy)]
struct Case {
    settings: &'static str,
    other: &'static [Asked<'static>],
    before: u64,
    answers: &'static [Answer<'static>],
    steps: &'static [Done<'static>],
    rows: &'static [Row<'static>],
}

const AFTER_RETIREMENT: Case = Case {
    settings: TWO_KEYS_SITE,
    other: &[Asked::RetireKeys],
    before: 0,
    answers: &[Answer {
        status: "200 OK",
        lines: "Vary: Cookie\r\n",
        body: "anonymous\n",
    }],
    steps: &[
        Done {
            worker: 2,
            request: 1,
            step: 0,
            what: Asked::RetireKeys,
        },
        Done {
            worker: 1,
            request: 1,
            step: 0,
            what: Asked::Load(Some(SECOND_KEY)),
        },
    ],
    rows: &[
        FIRST_ROW,
        Row {
            map: None,
            ..SECOND_ROW
        },
    ],
};

const AFTER_DELETION: Case = Case {
    settings: TWO_KEYS_SITE,
    other: &[Asked::Load(Some(ALICES_KEY)), Asked::Delete(ALICES_KEY)],
    before: 1,
    answers: &[Answer {
        status: "400 Bad Request",
        lines: "Vary: Cookie\r\n",
        body: "error=session-deleted\n",
    }],
    steps: &[
        Done {
            worker: 1,
            request: 1,
            step: 0,
            what: Asked::Load(Some(ALICES_KEY)),
        },
        Done {
            worker: 2,
            request: 1,
            step: 0,
            what: Asked::Load(Some(ALICES_KEY)),
        },
        Done {
            worker: 2,
            request: 1,
            step: 1,
            what: Asked::Delete(ALICES_KEY),
        },
        Done {
            worker: 1,
            request: 1,
            step: 1,
            what: Asked::Save(ALICES_KEY, WITH_ENTRY),
        },
    ],
    rows: &[SECOND_ROW],
};

/// A login between whose look for the user and whose new session the keys change, and a request with that session.
const AFTER_ROTATION: Case = Case {
    settings: TWO_KEYS_SITE,
    other: &[Asked::Rotate("k9"), Asked::RetireKeys],
    before: 2,
    answers: &[
        LOGGED_IN,
        Answer {
            status: "200 OK",
            lines: FORGOTTEN,
            body: "anonymous\n",
        },
    ],
    steps: &[
        Done {
            worker: 1,
            request: 1,
            step: 0,
            what: Asked::Load(None),
        },
        Done {
            worker: 1,
            request: 1,
            step: 1,
            what: Asked::Find("alice"),
        },
        Done {
            worker: 2,
            request: 1,
            step: 0,
            what: Asked::Rotate("k9"),
        },
        Done {
            worker: 2,
            request: 1,
            step: 1,
            what: Asked::RetireKeys,
        },
        Done {
            worker: 1,
            request: 1,
            step: 2,
            what: Asked::Stamp,
        },
        Done {
            worker: 1,
            request: 1,
            step: 3,
            what: Asked::Begin(NEW_KEY, LOGIN),
        },
        Done {
            worker: 1,
            request: 2,
            step: 0,
            what: Asked::Load(Some(NEW_KEY)),
        },
        Done {
            worker: 1,
            request: 2,
            step: 1,
            what: Asked::Delete(NEW_KEY),
        },
    ],
    rows: &[
        Row {
            map: None,
            ..FIRST_ROW
        },
        Row {
            map: None,
            ..SECOND_ROW
        },
    ],
};

/// A login whose user gets another password text before the one of this login is written.
const AFTER_CHANGE: Case = Case {
    settings: UPGRADING_SITE,
    other: &[Asked::Password(ALICES_TEXT, OTHER_TEXT)],
    before: 2,
    answers: &[NOT_LOGGED_IN],
    steps: &[
        Done {
            worker: 1,
            request: 1,
            step: 0,
            what: Asked::Load(None),
        },
        Done {
            worker: 1,
            request: 1,
            step: 1,
            what: Asked::Find("alice"),
        },
        Done {
            worker: 2,
            request: 1,
            step: 0,
            what: Asked::Password(ALICES_TEXT, OTHER_TEXT),
        },
        Done {
            worker: 1,
            request: 1,
            step: 2,
            what: Asked::Password(ALICES_TEXT, UPGRADED_TEXT),
        },
    ],
    rows: &[],
};

/// A session that is deleted before it gets another key.
const BEFORE_CYCLE: Case = Case {
    settings: TWO_KEYS_SITE,
    other: &[Asked::Delete(SECOND_KEY)],
    before: 1,
    answers: &[Answer {
        status: "400 Bad Request",
        lines: "Vary: Cookie\r\n",
        body: "error=session-deleted\n",
    }],
    steps: &[
        Done {
            worker: 1,
            request: 1,
            step: 0,
            what: Asked::Load(Some(SECOND_KEY)),
        },
        Done {
            worker: 2,
            request: 1,
            step: 0,
            what: Asked::Delete(SECOND_KEY),
        },
        Done {
            worker: 1,
            request: 1,
            step: 1,
            what: Asked::Cycle(SECOND_KEY, LOGIN),
        },
    ],
    rows: &[FIRST_ROW],
};

/// The text of all responses.
fn answers_text(alloc: Global, answers: &[Answer<'_>]) -> Result<String, AllocError> {
    let mut text = String::new(alloc);
    for answer in answers {
        text.push_str(answer_text(alloc, answer)?.as_str())?;
    }
    Ok(text)
}

fn leaves_as(rt: &impl Abort, alloc: Global, input: &str, case: &Case) -> Result<(), Fail> {
    let mut input = source(alloc, input.as_bytes(), 4096, &[])?;
    let mut output = sink(alloc, &[])?;
    let mut clock = clock(alloc, &[NOW])?;
    let mut draw = draw(alloc);
    let keeper = MemKeeper::new(alloc, Ids::from_vec(Vec::new(alloc)));
    let served = serve_over(
        alloc,
        keeper,
        case,
        &mut input,
        &mut output,
        &mut clock,
        &mut draw,
    )?;
    let Some(mut keeper) = served else {
        panic!(rt; "the store isn't opened");
    };
    let due = answers_text(alloc, case.answers)?;
    assert_eq!(rt; from_utf8(output.bytes()).ok(), Some(due.as_str()));
    assert!(rt; are_entered(alloc, keeper.entries(), case.steps)?);
    assert!(rt; are_stored(alloc, &mut keeper, case.rows)?);
    assert!(rt; is_alice(alloc, &mut keeper, case.steps)?);
    Ok(())
}

#[test]
fn a_session_of_a_retired_key_admits_nobody(rt: HostRuntime) -> Result<(), Fail> {
    let alloc = rt.alloc();
    let input =
        "GET /whoami/ HTTP/1.1\r\nHost: example.com\r\nCookie: sessionid=s2s2s2s2s2s2s2s2s2s2s2s2s2s2s2s2\r\n\r\n";
    leaves_as(&rt, alloc, input, &AFTER_RETIREMENT)
}

#[test]
fn a_deleted_session_is_not_brought_back(rt: HostRuntime) -> Result<(), Fail> {
    let alloc = rt.alloc();
    let cookie = format!(in alloc; "{CSRF_COOKIE}; sessionid={ALICES_KEY}")?;
    let form = "name=n&value=v&csrfmiddlewaretoken=aaaaaaaaaaaaaaaaaaaaaaaaaaaaaaaa";
    let input = post(alloc, cookie.as_str(), form)?;
    leaves_as(&rt, alloc, input.as_str(), &AFTER_DELETION)
}

#[test]
fn a_session_that_is_gone_gets_no_other_key(rt: HostRuntime) -> Result<(), Fail> {
    let alloc = rt.alloc();
    let input =
        "GET /whoami/ HTTP/1.1\r\nHost: example.com\r\nCookie: sessionid=s2s2s2s2s2s2s2s2s2s2s2s2s2s2s2s2\r\n\r\n";
    leaves_as(&rt, alloc, input, &BEFORE_CYCLE)
}

#[test]
fn a_login_whose_key_is_retired_meanwhile_admits_nobody(rt: HostRuntime) -> Result<(), Fail> {
    let alloc = rt.alloc();
    let mut input = post_to(alloc, "/login/", CSRF_COOKIE, LOGIN_FORM)?;
    input.push_str(
        "GET /whoami/ HTTP/1.1\r\nHost: example.com\r\nCookie: sessionid=aaaaaaaaaaaaaaaaaaaaaaaaaaaaaaaa\r\n\r\n",
    )?;
    leaves_as(&rt, alloc, input.as_str(), &AFTER_ROTATION)
}

#[test]
fn a_login_keeps_a_text_that_was_changed_meanwhile(rt: HostRuntime) -> Result<(), Fail> {
    let alloc = rt.alloc();
    let input = post_to(alloc, "/login/", CSRF_COOKIE, LOGIN_FORM)?;
    leaves_as(&rt, alloc, input.as_str(), &AFTER_CHANGE)
}
