//! Who came, and with which session.

ghost use Rattle.std.specs.Prelude.{◌≡◌, IfOk, OnOk, None};
ghost use Rattle.serde_json.specs.Data.{no_members};
ghost use Rattle.auth_backends.specs.SessionBox.{rehashed};
ghost use Rattle.account_views.specs.Visit.{admitted, map_in, met, opened, visit_of};

use auth_backends::{SessionBox, rehash_change};
use crypto_text::Text;
use ledger_rows::{Reply, UserRead, Verdict};
use session_codec::{DecodeFault, SessionMap, from_payload};
use std::alloc::{AllocError, Global};

/// Who came with a request, and with which session. It has no `Debug`, so that no session is printed.
#[derive(Drop)]
pub struct Visit {
    pub session: SessionBox,
    /// The user who is admitted.
    pub user: Option<UserRead>,
}

/// The visit that a load found. `came` is whether there was a session cookie.
pub fn visit_of(alloc: Global, came: bool, reply: Reply) -> Result<Visit, AllocError>
    ensures { IfOk result (λ visit. visit ≡ visit_of came reply) }
{
    match reply {
        Reply::Loaded {
            verdict,
            key,
            payload,
            user,
        } => {
            let map = map_in(alloc, &payload)?;
            met(alloc, verdict, user, opened(came, key, map))
        }
        _ => Ok(Visit {
            session: opened(came, None, SessionMap::new(alloc)),
            user: None,
        }),
    }
}

#[tactic(auto, using(crate::proofs::VisitLemmas::empty_payload_reads))]
fn map_in(alloc: Global, payload: &Text) -> Result<SessionMap, AllocError>
    ensures { IfOk result (λ map. map ≡ map_in payload.now) }
{
    // What most visitors have isn't parsed, which would cost as much as the rest of their request.
    if payload.as_str() == "{}" {
        return Ok(SessionMap::new(alloc));
    }
    match from_payload(alloc, payload.as_str()) {
        Ok(map) => Ok(map),
        Err(DecodeFault::Memory) => Err(AllocError),
        Err(_) => Ok(SessionMap::new(alloc)),
    }
}

fn opened(came: bool, key: Option<Text>, map: SessionMap) -> SessionBox
    ensures { result ≡ opened came key map }
{
    SessionBox {
        came,
        key,
        map,
        dropped: None,
        cycle: false,
        accessed: true,
        modified: false,
    }
}

fn met(
    alloc: Global,
    verdict: Verdict,
    user: Option<UserRead>,
    mut session: SessionBox,
) -> Result<Visit, AllocError>
    ensures { IfOk result (λ visit. visit ≡ met verdict user session) }
{
    match (verdict, user) {
        (Verdict::Admitted { key_index }, Some(read)) => admitted(alloc, key_index, read, session),
        (Verdict::BadHash, _) => {
            session.flush();
            Ok(Visit {
                session,
                user: None,
            })
        }
        _ => Ok(Visit {
            session,
            user: None,
        }),
    }
}

// A session under a fallback key gets the hash of the first one.
fn admitted(
    alloc: Global,
    key_index: usize,
    read: UserRead,
    mut session: SessionBox,
) -> Result<Visit, AllocError>
    ensures { IfOk result (λ visit. visit ≡ admitted key_index read session) }
{
    if key_index > 0 {
        rehash_change(&mut session, alloc, read.auth_hash.as_str())?;
    }
    Ok(Visit {
        session,
        user: Some(read),
    })
}
