//! A whole connection: one request after another is read and answered.

ghost use Rattle.std.specs.Prelude.{◌≡◌, ◌≤◌, ◌<◌, ◌^◌, ◌+◌, ◌++◌, ℕ, List, [], Some, None, IfOk, IfSome, option_map, vec_len, vec_capacity, length};
ghost use Rattle.http_edge.specs.ResponseText.{IsStatus};
ghost use Rattle.crypto_text.specs.Moment.{IsMoment};
ghost use Rattle.outside.specs.RandomWords.{words_from};
ghost use Rattle.middleware_chain.specs.Page.{fault_page};
ghost use Rattle.pass_hashers.specs.PasswordText.{IsUsable};
ghost use Rattle.account_views.specs.Handler.{script};
ghost use Rattle.site_server.specs.OneWorker.{Serves, devices};
ghost use Rattle.site_server.specs.OwnLedger.{HaveTurned, IsUnused};
ghost use Rattle.site_server.specs.Outcome.{tag_of};
ghost use Rattle.site_server.specs.Round.{IsRound, moments_in};
ghost use Rattle.site_server.specs.Saying.{IsSaidOf};
ghost use Rattle.site_server.specs.Step.{IsDriven, server_of};
ghost use Rattle.site_server.specs.Transcript.{closing};

use crate::driving::{Place, drive};
use crate::output::say;
use crate::step_taker::StepTaker;
use account_views::Machine;
use crypto_text::Ids;
use http_edge::{EdgeFault, Reader, Request, Response, framing_stands, read_request};
use keepers::Keeper;
use middleware_chain::{Settings, fault_page};
use outside::{Clock, REQUEST_WORDS, Sink, Source, Words, moment_of};
use session_engines::Ledger;
use std::alloc::{AllocError, Global};

/// The response to the last of them says that the connection is closed.
const MOST_REQUESTS: u64 = 1000;

/// How a connection ends.
#[derive(Clone, Copy, Debug, PartialEq, Eq)]
pub enum End {
    /// The input ended, or the last response said so.
    Closed,
    /// A read failed. What was asked before is answered, and nothing is written for what was cut off.
    ReadFault,
    /// A write failed. A proper part of the last response was written.
    WriteFault,
    /// Out of memory. The response for that is the last, unless memory was out before the first request.
    Memory,
}

/// What became of a connection.
#[derive(Debug, Drop)]
pub struct Report {
    pub end: End,
    /// How many requests were read whole.
    pub requests: u64,
    /// Their moments, in seconds since 1970.
    pub moments: Ids,
}

/// What became of one round of a connection: the moment of its request, where one was read whole, and how the
/// connection ends with it, where it does.
#[derive(Clone, Copy, Debug)]
pub struct Round {
    pub moment: Option<u64>,
    pub end: Option<End>,
}

/// Serves one connection of a site, at most 1,000 requests, as a worker whose next request has the number `first`. The
/// ledger was opened under the site's settings, whose preferred hasher has allowed iterations. Neither input nor output is used again.
pub fn serve_solo<K: Keeper, I: Source, O: Sink, C: Clock, W: Words>(
    alloc: Global,
    ledger: &mut Ledger<K>,
    settings: &Settings,
    worker: u64,
    first: u64,
    input: &mut I,
    output: &mut O,
    clock: &mut C,
    words: &mut W,
) -> Report
    requires usable { IsUsable settings.now.cfg.preferred }
    requires first { (1 ≤ first) × (first ≤ 2 ^ 62) }
    requires cfg { ledger.old.cfg ≡ settings.now.cfg }
    requires unused { IsUnused worker first ledger.old }
    ensures serves { Serves settings.now (record { boot = ledger.old.boot; worker = worker }) first
        (devices (I.seen input.old) (O.seen output.old) (C.seen clock.old) (W.seen words.old))
        (devices (I.seen input.new) (O.seen output.new) (C.seen clock.new) (W.seen words.new))
        (λ turns. HaveTurned turns ledger.old ledger.new) result }
    ensures unused { IsUnused worker (first + result.requests) ledger.new }
{
    let boot = ledger.boot();
    serve(
        alloc, ledger, settings, boot, worker, first, input, output, clock, words,
    )
}

/// Serves one connection, over whatever takes the worker's steps.
pub fn serve<S: StepTaker, I: Source, O: Sink, C: Clock, W: Words>(
    alloc: Global,
    taker: &mut S,
    settings: &Settings,
    boot: u64,
    worker: u64,
    first: u64,
    input: &mut I,
    output: &mut O,
    clock: &mut C,
    words: &mut W,
) -> Report
    requires usable { IsUsable settings.now.cfg.preferred }
    requires first { first ≤ 2 ^ 62 }
    requires own { (number step : ℕ) → S.may_enter taker.old (tag_of (record { boot = boot; worker = worker }) number step) }
    ensures { Serves settings.now (record { boot = boot; worker = worker }) first
        (devices (I.seen input.old) (O.seen output.old) (C.seen clock.old) (W.seen words.old))
        (devices (I.seen input.new) (O.seen output.new) (C.seen clock.new) (W.seen words.new))
        (λ turns. S.passed turns taker.old taker.new) result }
{
    framing_stands();
    let (mut reader, mut moments) = match make_room(alloc) {
        Ok(room) => room,
        Err(AllocError) => return report_of(End::Memory, Vec::new(alloc)),
    };
    for done in 0..MOST_REQUESTS {
        let place = Place {
            boot,
            worker,
            number: first + done,
        };
        let more = done + 1 < MOST_REQUESTS;
        let round = serve_next(
            alloc,
            taker,
            settings,
            place,
            more,
            &mut reader,
            input,
            output,
            clock,
            words,
        );
        note(&mut moments, round.moment);
        if let Some(end) = round.end {
            return report_of(end, moments);
        }
    }
    report_of(End::Closed, moments)
}

// All the memory that a connection needs beside that of its requests.
fn make_room(alloc: Global) -> Result<(Reader, Vec<u64>), AllocError>
    ensures reader { IfOk result (λ room. room.0 ≡ []) }
    ensures moments { IfOk result (λ room. room.1.items ≡ []) }
    ensures len { IfOk result (λ room. vec_len room.1 ≡ 0) }
    ensures capacity { IfOk result (λ room. vec_capacity room.1 ≡ 1000) }
{
    Ok((
        Reader::new(alloc)?,
        Vec::with_capacity(alloc, MOST_REQUESTS as usize)?,
    ))
}

fn report_of(end: End, moments: Vec<u64>) -> Report
    ensures end { result.end ≡ end }
    ensures requests { result.requests ≡ length result.moments }
    ensures moments { result.moments ≡ moments.items }
{
    Report {
        end,
        requests: moments.len() as u64,
        moments: Ids::from_vec(moments),
    }
}

fn note(moments: &mut Vec<u64>, moment: Option<u64>)
    requires { vec_len moments.old < vec_capacity moments.old }
    ensures items { moments.new.items ≡ moments.old.items ++ moments_in moment }
    ensures len { vec_len moments.new ≤ vec_len moments.old + 1 }
    ensures capacity { vec_capacity moments.old ≤ vec_capacity moments.new }
{
    if let Some(moment) = moment {
        match moments.push(moment) {
            Ok(()) => {}
            Err(_) => unreachable!(),
        }
    }
}

// Reads the next request and answers it.
fn serve_next<S: StepTaker, I: Source, O: Sink, C: Clock, W: Words>(
    alloc: Global,
    taker: &mut S,
    settings: &Settings,
    place: Place,
    more: bool,
    reader: &mut Reader,
    input: &mut I,
    output: &mut O,
    clock: &mut C,
    words: &mut W,
) -> Round
    requires usable { IsUsable settings.now.cfg.preferred }
    requires own { (step : ℕ) → S.may_enter taker.old (tag_of (server_of place) place.number step) }
    ensures { IsRound settings.now (server_of place) place.number more reader.old reader.new
        (devices (I.seen input.old) (O.seen output.old) (C.seen clock.old) (W.seen words.old))
        (devices (I.seen input.new) (O.seen output.new) (C.seen clock.new) (W.seen words.new))
        (λ turns. S.passed turns taker.old taker.new) result }
{
    match read_request(alloc, reader, input) {
        Ok(Some(request)) => {
            let moment = moment_of(clock.now());
            let response = answer(alloc, taker, settings, place, &request, moment, words);
            words.pass(REQUEST_WORDS);
            let closing = closing(more, response);
            Round {
                moment: Some(moment),
                end: say(alloc, output, closing.as_ref()),
            }
        }
        Ok(None) => over(End::Closed),
        Err(EdgeFault::ReadFault) => over(End::ReadFault),
        Err(fault) => Round {
            moment: None,
            end: refuse(alloc, output, fault),
        },
    }
}

// The answer to a request; none where memory was out.
fn answer<S: StepTaker, W: Words>(
    alloc: Global,
    taker: &mut S,
    settings: &Settings,
    place: Place,
    request: &Request,
    moment: u64,
    words: &W,
) -> Option<Response>
    requires usable { IsUsable settings.now.cfg.preferred }
    requires moment { IsMoment moment }
    requires own { (step : ℕ) → S.may_enter taker.old (tag_of (server_of place) place.number step) }
    ensures driven { IsDriven (script settings.now request.now moment (words_from (W.seen words.now) 1024)) (server_of place) place.number request.now (λ turns. S.passed turns taker.old taker.new) result }
    ensures status { IfSome result (λ response. IsStatus response.status) }
{
    match Machine::start(alloc, settings, request, moment) {
        Ok(mut machine) => drive(alloc, taker, settings, &mut machine, words, place, request),
        Err(AllocError) => None,
    }
}

// The last response that a connection may have says that it is closed.
fn closing(more: bool, response: Option<Response>) -> Option<Response>
    ensures { result ≡ option_map (closing more) response }
{
    response.map(|response| Response {
        keep: response.keep && more,
        ..response
    })
}

fn over(end: End) -> Round
    ensures { result ≡ record { moment = None; end = Some end } }
{
    Round {
        moment: None,
        end: Some(end),
    }
}

// Malformed input gets one response, and the connection ends with it.
fn refuse<O: Sink>(alloc: Global, output: &mut O, fault: EdgeFault) -> Option<End>
    ensures { IsSaidOf (fault_page fault) (O.seen output.old) (O.seen output.new) result }
{
    let page = fault_page(alloc, fault).ok().flatten();
    say(alloc, output, page.as_ref())
}
