//! The machine that runs a request, called with one reply at a time.

ghost use Rattle.std.specs.Prelude.{◌≡◌, IfOk, None, OnErr, ℕ, List};
ghost use Rattle.outside.specs.RandomWords.{words_from, RandomWords};
ghost use Rattle.crypto_text.specs.Moment.{IsMoment};
ghost use Rattle.pass_hashers.specs.PasswordText.{IsUsable};
ghost use Rattle.account_views.specs.Basis.{basis_of};
ghost use Rattle.account_views.specs.Handler.{after_load, script, script_of};
ghost use Rattle.account_views.specs.Machine.{EndsWhereDone, IsEnded, left, spent_response, stage_left, steps_of_next};
ghost use Rattle.account_views.specs.Script.{and_then, steps_of};
ghost use Rattle.account_views.specs.SessionWrite.{write_left, written};
ghost use Rattle.account_views.specs.View.{view_left};
ghost use Rattle.account_views.specs.Walk.{AreWords, AtMost, IsProper};

use crate::call::{Call, call_of};
use crate::facts::{Facts, Moment};
use crate::page::Viewed;
use crate::progress::Progress;
use crate::session_write::{WriteStage, write_next, write_session};
use crate::view::{ViewStage, has_view, view, view_next};
use crate::visit::visit_of;
use crate::whoami::{unchanged_user, user_response};
use crypto_text::{Text, TextList};
use http_edge::{Request, Response};
use ledger_rows::{Op, Reply};
use middleware_chain::{Begun, Route, Settings, begin, delivery_of, plain_page};
use outside::Words;
use std::alloc::{AllocError, Global};
use std::mem::replace;

/// A request that is being handled. It stands for the steps that are left of its script.
#[derive(Drop)]
pub struct Machine {
    facts: Facts,
    stage: Stage,
}

/// What a request does next.
#[derive(Drop)]
pub enum Next {
    /// It asks for this step.
    Step(Op),
    /// It has its response.
    Done(Response),
}

/// What a request waits for.
#[derive(Drop)]
pub enum Stage {
    /// Its first call.
    Started(Begun),
    /// Who came. `came` is whether there is a session cookie.
    Loading { came: bool, call: Call },
    /// A step of its view.
    Viewing(ViewStage),
    /// A step of the session's write.
    Writing(WriteStage),
    /// Nothing: it has its response, or memory was out.
    Ended,
}

impl Machine {
    /// A request at its beginning. Its moment is in seconds since 1970.
    pub fn start(
        alloc: Global,
        settings: &Settings,
        request: &Request,
        moment: u64,
    ) -> Result<Machine, AllocError>
        requires moment { IsMoment moment }
        requires usable { IsUsable settings.now.cfg.preferred }
        ensures value { IfOk result (λ machine. (words : RandomWords) → left settings.now words machine None ≡ script settings.now request.now moment (words_from words 1024)) }
        ensures few { IfOk result (λ machine. (words : RandomWords) → AtMost 21 (left settings.now words machine None)) }
        ensures proper { IfOk result (λ machine. (words : RandomWords) → AreWords words → IsProper (left settings.now words machine None)) }
    {
        let begun = begin(alloc, settings, request)?;
        Ok(Machine {
            facts: Facts {
                moment: Moment::of_seconds(moment),
                delivery: delivery_of(request),
            },
            stage: Stage::Started(begun),
        })
    }

    /// The next step, or the response. The first call has no reply, and each later one has the reply to the step that the
    /// last call named, under the settings that `start` was given; the request's random words are the next 1,024 at each
    /// call, which only looks at those that it needs. After `Done`, and where memory was out, the request is at its end,
    /// and isn't called again.
    pub fn next<W: Words>(
        &mut self,
        alloc: Global,
        settings: &Settings,
        words: &W,
        reply: Option<Reply>,
    ) -> Result<Next, AllocError>
        requires usable { IsUsable settings.now.cfg.preferred }
        ensures value { IfOk result (λ next. steps_of_next settings.now (W.seen words.now) self.new next ≡ left settings.now (W.seen words.now) self.old reply) }
        ensures done { IfOk result (EndsWhereDone self.new) }
        ensures err { OnErr result (IsEnded self.new) }
    {
        let stage = replace(&mut self.stage, Stage::Ended);
        let reply = reply.unwrap_or(Reply::Booted { boot: 0 });
        match advance(alloc, settings, &self.facts, words, stage, reply)? {
            Progress::Asks(op, stage) => {
                self.go_on(stage);
                Ok(Next::Step(op))
            }
            Progress::Ends(response) => Ok(Next::Done(response)),
        }
    }

    // Apart, since the stage before is let go here, which has a case for each variant.
    fn go_on(&mut self, stage: Stage)
        ensures { self.new ≡ record self.old { stage = stage } }
    {
        self.stage = stage;
    }
}

fn advance<W: Words>(
    alloc: Global,
    settings: &Settings,
    facts: &Facts,
    words: &W,
    stage: Stage,
    reply: Reply,
) -> Result<Progress<Stage, Response>, AllocError>
    requires { IsUsable settings.now.cfg.preferred }
    ensures { let basis = basis_of settings.now facts.now (W.seen words.now) in
        IfOk result (λ progress. steps_of (stage_left basis) progress ≡ stage_left basis stage reply) }
{
    match stage {
        Stage::Started(begun) => first(alloc, settings, facts, words, begun),
        Stage::Loading { came, call } => {
            loaded(alloc, settings, facts, words, came, call, reply)
        }
        Stage::Viewing(stage) => {
            let progress = view_next(alloc, settings, facts, words, stage, reply)?;
            after_view(alloc, settings, facts, words, progress)
        }
        Stage::Writing(stage) => {
            let progress = write_next(alloc, settings, facts, words, stage, reply)?;
            Ok(in_write(settings, facts, words, progress))
        }
        Stage::Ended => Ok(Progress::Ends(spent_response(alloc, facts))),
    }
}

fn first<W: Words>(
    alloc: Global,
    _settings: &Settings,
    facts: &Facts,
    _words: &W,
    begun: Begun,
) -> Result<Progress<Stage, Response>, AllocError>
    ensures { let basis = basis_of _settings.now facts.now (W.seen _words.now) in
        IfOk result (λ progress. steps_of (stage_left basis) progress ≡ script_of basis begun) }
{
    let context = match begun {
        Begun::Answer(response) => return Ok(Progress::Ends(response)),
        Begun::Go(context) => context,
    };
    if !has_view(&context.route) {
        let page = plain_page(alloc, 404, "error=no-route\n", facts.delivery)?;
        return Ok(Progress::Ends(page));
    }
    let (cookie, call) = call_of(context);
    let came = cookie.is_some();
    let now = facts.moment.seconds();
    Ok(Progress::Asks(Op::Load { cookie, now }, Stage::Loading { came, call }))
}

// Who came goes to the view.
#[tactic(auto, using(crate::proofs::WhoamiLemmas::unchanged_page))]
fn loaded<W: Words>(
    alloc: Global,
    settings: &Settings,
    facts: &Facts,
    words: &W,
    came: bool,
    call: Call,
    reply: Reply,
) -> Result<Progress<Stage, Response>, AllocError>
    requires { IsUsable settings.now.cfg.preferred }
    ensures { let basis = basis_of settings.now facts.now (W.seen words.now) in
        IfOk result (λ progress. steps_of (stage_left basis) progress ≡ after_load basis came call reply) }
{
    if let (Route::Whoami, Some(read)) = (&call.route, unchanged_user(&reply)) {
        return Ok(Progress::Ends(user_response(alloc, settings, facts, read)?));
    }
    let visit = visit_of(alloc, came, reply)?;
    let progress = view(alloc, settings, facts, words, call, visit)?;
    after_view(alloc, settings, facts, words, progress)
}

// After the view the session is written.
fn after_view<W: Words>(
    alloc: Global,
    settings: &Settings,
    facts: &Facts,
    words: &W,
    progress: Progress<ViewStage, Viewed>,
) -> Result<Progress<Stage, Response>, AllocError>
    ensures { let basis = basis_of settings.now facts.now (W.seen words.now) in
        IfOk result (λ whole. steps_of (stage_left basis) whole ≡ and_then (steps_of (view_left basis) progress) (written basis)) }
{
    match progress {
        Progress::Asks(op, stage) => Ok(Progress::Asks(op, Stage::Viewing(stage))),
        Progress::Ends(viewed) => {
            let progress = write_session(alloc, settings, facts, words, viewed)?;
            Ok(in_write(settings, facts, words, progress))
        }
    }
}

fn in_write<W: Words>(
    _settings: &Settings,
    _facts: &Facts,
    _words: &W,
    progress: Progress<WriteStage, Response>,
) -> Progress<Stage, Response>
    ensures { let basis = basis_of _settings.now _facts.now (W.seen _words.now) in
        steps_of (stage_left basis) result ≡ steps_of (write_left basis) progress }
{
    match progress {
        Progress::Asks(op, stage) => Progress::Asks(op, Stage::Writing(stage)),
        Progress::Ends(response) => Progress::Ends(response),
    }
}

// Takes no memory.
fn spent_response(alloc: Global, facts: &Facts) -> Response
    ensures { result ≡ spent_response facts.now }
{
    Response {
        status: 500,
        body: Text::from_string(String::new(alloc)),
        location: None,
        allow: None,
        vary: false,
        cookies: TextList::from_vec(Vec::new(alloc)),
        keep: facts.delivery.keep,
        head_only: facts.delivery.head_only,
    }
}
