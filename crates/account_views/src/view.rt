//! The views, by route.

ghost use Rattle.std.specs.Prelude.{◌≡◌, IfOk};
ghost use Rattle.pass_hashers.specs.PasswordText.{IsUsable};
ghost use Rattle.account_views.specs.Basis.{basis_of};
ghost use Rattle.account_views.specs.Login.{login_left};
ghost use Rattle.outside.specs.RandomWords.{words_from};
ghost use Rattle.account_views.specs.PasswordChange.{change_left};
ghost use Rattle.account_views.specs.Script.{steps_of};
ghost use Rattle.account_views.specs.View.{has_view, view, view_left};

use crate::call::Call;
use crate::facts::Facts;
use crate::login::{LoginStage, login, login_next};
use crate::logout::logout;
use crate::page::{Viewed, text_page};
use crate::password_change::{ChangeStage, change_next, password_change};
use crate::progress::Progress;
use crate::session_entries::session_entries;
use crate::visit::Visit;
use crate::whoami::whoami;
use ledger_rows::Reply;
use middleware_chain::{Route, Settings};
use outside::Words;
use std::alloc::{AllocError, Global};

/// What a view waits for.
#[derive(Drop)]
pub enum ViewStage {
    Login(LoginStage),
    PasswordChange(ChangeStage),
}

/// Whether a route has a view so far.
pub fn has_view(route: &Route) -> bool
    ensures { result ≡ has_view route.now }
{
    match route {
        Route::Whoami | Route::Login | Route::Logout | Route::Session | Route::PasswordChange =>
            true,
        _ => false,
    }
}

/// The first step of a route's view, or its page.
pub fn view<W: Words>(
    alloc: Global,
    settings: &Settings,
    facts: &Facts,
    words: &W,
    call: Call,
    visit: Visit,
) -> Result<Progress<ViewStage, Viewed>, AllocError>
    requires { IsUsable settings.now.cfg.preferred }
    ensures { let basis = basis_of settings.now facts.now (W.seen words.now) in
        IfOk result (λ progress. steps_of (view_left basis) progress ≡ view basis call visit) }
{
    match call.route {
        Route::Whoami => Ok(Progress::Ends(whoami(alloc, visit)?)),
        Route::Login => {
            let progress = login(alloc, settings, facts, words, call, visit.session)?;
            Ok(in_login(settings, facts, words, progress))
        }
        Route::Logout => Ok(Progress::Ends(logout(alloc, visit.session)?)),
        Route::Session => {
            let viewed = session_entries(alloc, words, call, visit.session)?;
            Ok(Progress::Ends(viewed))
        }
        Route::PasswordChange => {
            let progress = password_change(alloc, settings, words, call, visit)?;
            Ok(in_change(settings, facts, words, progress))
        }
        _ => {
            let page = text_page(alloc, 404, "error=no-route\n")?;
            let session = visit.session;
            Ok(Progress::Ends(Viewed { page, session }))
        }
    }
}

/// The next step of a view, or its page.
pub fn view_next<W: Words>(
    alloc: Global,
    settings: &Settings,
    facts: &Facts,
    words: &W,
    stage: ViewStage,
    reply: Reply,
) -> Result<Progress<ViewStage, Viewed>, AllocError>
    requires { IsUsable settings.now.cfg.preferred }
    ensures { let basis = basis_of settings.now facts.now (W.seen words.now) in
        IfOk result (λ progress. steps_of (view_left basis) progress ≡ view_left basis stage reply) }
{
    match stage {
        ViewStage::Login(stage) => {
            let progress = login_next(alloc, settings, facts, words, stage, reply)?;
            Ok(in_login(settings, facts, words, progress))
        }
        ViewStage::PasswordChange(stage) => {
            let progress = change_next(alloc, words, stage, reply)?;
            Ok(in_change(settings, facts, words, progress))
        }
    }
}

fn in_login<W: Words>(
    _settings: &Settings,
    _facts: &Facts,
    _words: &W,
    progress: Progress<LoginStage, Viewed>,
) -> Progress<ViewStage, Viewed>
    ensures { let basis = basis_of _settings.now _facts.now (W.seen _words.now) in
        steps_of (view_left basis) result ≡ steps_of (login_left basis) progress }
{
    match progress {
        Progress::Asks(op, stage) => Progress::Asks(op, ViewStage::Login(stage)),
        Progress::Ends(viewed) => Progress::Ends(viewed),
    }
}

fn in_change<W: Words>(
    _settings: &Settings,
    _facts: &Facts,
    _words: &W,
    progress: Progress<ChangeStage, Viewed>,
) -> Progress<ViewStage, Viewed>
    ensures { let basis = basis_of _settings.now _facts.now (W.seen _words.now) in
        steps_of (view_left basis) result ≡ steps_of (change_left (words_from (W.seen _words.now) 1024)) progress }
{
    match progress {
        Progress::Asks(op, stage) => Progress::Asks(op, ViewStage::PasswordChange(stage)),
        Progress::Ends(viewed) => Progress::Ends(viewed),
    }
}
