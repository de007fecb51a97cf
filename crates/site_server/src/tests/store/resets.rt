//! The operations on password resets, with each of their replies.

use super::users::{ALICES_PASSWORD, alice, read, set_active, set_last_login};
use super::*;
use ledger_rows::MailRow;
use reset_tokens::{ResetUser, ResetVerdict, make_token};
use signing_core::Keys;

pub(super) fn operation(alloc: Global, at: usize) -> Result<Op, AllocError> {
    match at {
        60 => ask(alloc, "nobody@example.com"),
        61 | 69 | 72 | 76 => Ok(Op::TakeMail),
        62 | 68 | 71 => ask(alloc, "Alice@EXAMPLE.com"),
        63 => check(3, text_of(alloc, "abc")?, NOW),
        64 => check(1, text_of(alloc, "abc")?, NOW),
        65 => check(1, token(alloc, "k0")?, NOW + 259_200),
        66 => check(1, token(alloc, "k0")?, NOW + 259_201),
        67 => check(1, token(alloc, "k1")?, NOW),
        70 => set_active(alloc, "alice", false),
        73 => set_active(alloc, "alice", true),
        74 => Ok(set_last_login(1, NOW)),
        _ => check(1, token(alloc, "k0")?, NOW),
    }
}

fn ask(alloc: Global, email: &str) -> Result<Op, AllocError> {
    Ok(Op::MakeReset {
        email: text_of(alloc, email)?,
        now: NOW,
    })
}

fn check(user: u64, token: Text, now: u64) -> Result<Op, AllocError> {
    Ok(Op::CheckReset { user, token, now })
}

// The token of alice's row as it is at first.
fn token(alloc: Global, key: &str) -> Result<Text, AllocError> {
    let row = alice(alloc, ALICES_PASSWORD, None, &[1])?;
    let user = ResetUser {
        id: row.id,
        password: row.password.as_str(),
        last_login: None,
        email: row.email.as_str(),
    };
    let first = Bytes::of(alloc, key.as_bytes())?;
    match Keys::new(alloc, first, Vec::new(alloc)) {
        Ok(keys) => make_token(alloc, &user, &keys, NOW),
        Err(_) => Err(AllocError),
    }
}

pub(super) fn reply(alloc: Global, at: usize) -> Result<Reply, AllocError> {
    match at {
        60 | 71 => Ok(Reply::Mailed { count: 0 }),
        62 | 68 => Ok(Reply::Mailed { count: 1 }),
        61 | 76 => Ok(Reply::Mail { mail: None }),
        69 => mail(alloc, 1),
        72 => mail(alloc, 2),
        63 => Ok(Reply::NoRow),
        64 => Ok(bad(ResetVerdict::Shape)),
        65 => Ok(Reply::Good {
            read: read(alloc, alice(alloc, ALICES_PASSWORD, None, &[1])?)?,
        }),
        66 => Ok(bad(ResetVerdict::Expired { age: 259_201 })),
        67 | 75 => Ok(bad(ResetVerdict::Mismatch)),
        _ => Ok(Reply::Done),
    }
}

fn bad(verdict: ResetVerdict) -> Reply {
    Reply::BadToken { verdict }
}

fn mail(alloc: Global, id: u64) -> Result<Reply, AllocError> {
    let token = token(alloc, "k0")?;
    Ok(Reply::Mail {
        mail: Some(MailRow {
            id,
            to: text_of(alloc, "alice@example.com")?,
            link: Text::from_string(format!(in alloc; "/reset/MQ/{}/", token.as_str())?),
        }),
    })
}
