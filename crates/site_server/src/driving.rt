//! A request, from its beginning to its answer: the steps that its machine asks for, in order.

ghost use Rattle.std.specs.Prelude.{◌≡◌, ◌≢◌, None, Some, IfOk, IfSome, ℕ, List, []};
ghost use Rattle.std.specs.Result.{result_ok};
ghost use Rattle.http_edge.specs.ResponseText.{IsStatus};
ghost use Rattle.pass_hashers.specs.PasswordText.{IsUsable};
ghost use Rattle.account_views.specs.Machine.{left};
ghost use Rattle.account_views.specs.Walk.{AtMost, IsProper};
ghost use Rattle.site_server.specs.Outcome.{answer_of, tag_of};
ghost use Rattle.site_server.specs.Step.{IsAdvance, IsDriven, ending_of, server_of};

use crate::step_taker::StepTaker;
use account_views::{Machine, Next, hash_is_text};
use http_edge::{Request, Response};
use ledger_rows::{Reply, Tag};
use middleware_chain::{Settings, full_page, store_page};
use outside::Words;
use session_engines::StepFault;
use std::alloc::{AllocError, Global};

/// A load, three steps of the view, a delete, and sixteen tries for a new session key.
const MOST_STEPS: u64 = 21;

/// Whose request it is.
#[derive(Clone, Copy, Debug)]
pub struct Place {
    /// The number of the start, counted from 1.
    pub boot: u64,
    /// Counted from 1.
    pub worker: u64,
    /// Counted from 1 for each worker, over all its connections.
    pub number: u64,
}

/// What became of one call of a machine.
#[derive(Drop)]
pub enum Advance {
    /// The request is answered.
    Answered(Response),
    /// Its step was refused, or memory was out before it.
    Refused(StepFault),
    /// Its step was done, with this reply.
    Replied(Reply),
}

/// Takes the steps that a request asks for, in order, and none after a refused one. None where memory was out.
pub fn drive<S: StepTaker, W: Words>(
    alloc: Global,
    taker: &mut S,
    settings: &Settings,
    machine: &mut Machine,
    words: &W,
    place: Place,
    request: &Request,
) -> Option<Response>
    requires usable { IsUsable settings.now.cfg.preferred }
    requires few { AtMost 21 (left settings.now (W.seen words.now) machine.old None) }
    requires proper { IsProper (left settings.now (W.seen words.now) machine.old None) }
    requires own { (step : ℕ) → S.may_enter taker.old (tag_of (server_of place) place.number step) }
    ensures driven { IsDriven (left settings.now (W.seen words.now) machine.old None) (server_of place) place.number request.now (λ turns. S.passed turns taker.old taker.new) result }
    ensures status { IfSome result (λ response. IsStatus response.status) }
{
    let mut reply = None;
    for step in 0..MOST_STEPS + 1 {
        let tag = Tag {
            boot: place.boot,
            worker: place.worker,
            request: place.number,
            step,
        };
        match take_turn(alloc, taker, settings, machine, words, reply, tag) {
            Advance::Answered(response) => return Some(response),
            Advance::Refused(fault) => return refusal(alloc, fault, request),
            Advance::Replied(given) => reply = Some(given),
        }
    }
    unreachable!()
}

// Calls the machine, and takes the step that it asks for.
fn take_turn<S: StepTaker, W: Words>(
    alloc: Global,
    taker: &mut S,
    settings: &Settings,
    machine: &mut Machine,
    words: &W,
    reply: Option<Reply>,
    tag: Tag,
) -> Advance
    requires usable { IsUsable settings.now.cfg.preferred }
    requires own { S.may_enter taker.old tag }
    requires proper { IsProper (left settings.now (W.seen words.now) machine.old reply) }
    ensures { IsAdvance (left settings.now (W.seen words.now) machine.old reply) (λ given. left settings.now (W.seen words.now) machine.new (Some given)) tag (λ turns. S.passed turns taker.old taker.new) result }
{
    match machine.next(alloc, settings, words, reply) {
        Ok(Next::Done(response)) => Advance::Answered(response),
        Ok(Next::Step(op)) => match taker.step(alloc, tag, &op) {
            Ok(given) => {
                hash_is_text(&given);
                Advance::Replied(given)
            }
            Err(fault) => Advance::Refused(fault),
        },
        Err(AllocError) => Advance::Refused(StepFault::Memory),
    }
}

// The response to a request whose step was refused.
fn refusal(alloc: Global, fault: StepFault, request: &Request) -> Option<Response>
    ensures value { IfSome result (λ response. answer_of request.now (ending_of fault) ≡ Some response) }
    ensures status { IfSome result (λ response. IsStatus response.status) }
{
    match fault {
        StepFault::Keeper { .. } => store_page(alloc, request).ok(),
        StepFault::Full => full_page(alloc, request).ok(),
        StepFault::Memory => None,
    }
}
