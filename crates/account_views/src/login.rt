//! `/login/`: the form, and the steps of a login.

ghost use Rattle.std.specs.Prelude.{◌≡◌, IfOk};
ghost use Rattle.pass_hashers.specs.PasswordText.{IsUsable};
ghost use Rattle.auth_backends.specs.Authentication.{answer_of};
ghost use Rattle.outside.specs.RandomWords.{words_from};
ghost use Rattle.account_views.specs.Basis.{basis_of};
ghost use Rattle.account_views.specs.Login.{after_find, answered, finding, fresh_text, is_done, log_in, login, login_call, login_left, refusal, stamped, stamping, upgraded, upgrading, user_of, welcome, with_hash, written_hash};
ghost use Rattle.account_views.specs.Script.{Return, steps_of};

use crate::call::Call;
use crate::facts::Facts;
use crate::login_form::{is_user_name, target_of};
use crate::page::{Viewed, form_page, redirect_page};
use crate::progress::Progress;
use crate::random_texts::{login_secret, new_salt};
use auth_backends::{AuthAnswer, SessionBox, authenticate, login_change};
use crypto_text::Text;
use http_edge::Field;
use ledger_rows::{Backend, Op, Reply, UserRead};
use middleware_chain::{Secret, Settings, last_value};
use outside::Words;
use pass_hashers::make;
use std::alloc::{AllocError, Global};

/// What a login waits for. It has no `Debug`, so that neither a password nor a secret is printed.
#[derive(Drop)]
pub enum LoginStage {
    /// The user of the name.
    Finding { call: LoginCall, password: Text },
    /// That the fresh password text is written.
    Upgrading { call: LoginCall, user: LoginUser },
    /// That the moment of the login is kept.
    Stamping { call: LoginCall, user: LoginUser },
}

/// What the last page of a login is made of.
#[derive(Drop)]
pub struct LoginCall {
    /// Where the login leads.
    pub target: Text,
    /// The secret of the CSRF cookie, where that is in form.
    pub secret: Option<Secret>,
    pub session: SessionBox,
}

/// A user whose password was right.
#[derive(Drop)]
pub struct LoginUser {
    pub read: UserRead,
    /// The backend that lets the user in.
    pub backend: Backend,
}

/// GET and HEAD show the form; POST asks for the first step of a login.
pub fn login<W: Words>(
    alloc: Global,
    settings: &Settings,
    facts: &Facts,
    words: &W,
    call: Call,
    session: SessionBox,
) -> Result<Progress<LoginStage, Viewed>, AllocError>
    ensures { let basis = basis_of settings.now facts.now (W.seen words.now) in
        IfOk result (λ progress. steps_of (login_left basis) progress ≡ login basis call session) }
{
    if !call.post {
        let page = form_page(alloc, words, call.secret, "")?;
        return Ok(Progress::Ends(Viewed { page, session }));
    }
    let secret = call.secret;
    let fields = call.fields.items();
    let start = login_call(alloc, fields, secret, session)?;
    log_in(alloc, settings, facts, words, fields, start)
}

/// A login's next step, or its page.
pub fn login_next<W: Words>(
    alloc: Global,
    settings: &Settings,
    facts: &Facts,
    words: &W,
    stage: LoginStage,
    reply: Reply,
) -> Result<Progress<LoginStage, Viewed>, AllocError>
    requires { IsUsable settings.now.cfg.preferred }
    ensures { let basis = basis_of settings.now facts.now (W.seen words.now) in
        IfOk result (λ progress. steps_of (login_left basis) progress ≡ login_left basis stage reply) }
{
    match stage {
        LoginStage::Finding { call, password } => {
            let read = user_of(reply);
            after_find(alloc, settings, facts, words, call, password, read)
        }
        LoginStage::Upgrading { call, user } => {
            let hash = written_hash(reply);
            upgraded(alloc, settings, facts, words, call, user, hash)
        }
        LoginStage::Stamping { call, user } => {
            let done = is_done(reply);
            let viewed = stamped(alloc, settings, facts, words, call, user, done)?;
            Ok(Progress::Ends(viewed))
        }
    }
}

fn user_of(reply: Reply) -> Option<UserRead>
    ensures { result ≡ user_of reply }
{
    match reply {
        Reply::User { read } => read,
        _ => None,
    }
}

/// The hash that a session of the user is to keep now, where a new password text was written.
pub fn written_hash(reply: Reply) -> Option<Text>
    ensures { result ≡ written_hash reply }
{
    match reply {
        Reply::Written { auth_hash } => Some(auth_hash),
        _ => None,
    }
}

fn is_done(reply: Reply) -> bool
    ensures { result ≡ is_done reply }
{
    matches!(reply, Reply::Done)
}

fn login_call(
    alloc: Global,
    fields: &[Field],
    secret: Option<Secret>,
    session: SessionBox,
) -> Result<LoginCall, AllocError>
    ensures { IfOk result (λ call. call ≡ login_call fields.now secret session) }
{
    let target = target_of(last_value(fields, "next"));
    Ok(LoginCall {
        target: Text::of(alloc, target)?,
        secret,
        session,
    })
}

fn log_in<W: Words>(
    alloc: Global,
    settings: &Settings,
    facts: &Facts,
    words: &W,
    fields: &[Field],
    call: LoginCall,
) -> Result<Progress<LoginStage, Viewed>, AllocError>
    ensures { let basis = basis_of settings.now facts.now (W.seen words.now) in
        IfOk result (λ progress. steps_of (login_left basis) progress ≡ log_in basis fields.now call) }
{
    let name = last_value(fields, "username");
    let password = last_value(fields, "password");
    finding(alloc, settings, facts, words, call, name, password)
}

// No row has a name that isn't well formed, so that no step is needed to see that.
fn finding<W: Words>(
    alloc: Global,
    settings: &Settings,
    facts: &Facts,
    words: &W,
    call: LoginCall,
    name: &str,
    password: &str,
) -> Result<Progress<LoginStage, Viewed>, AllocError>
    ensures { let basis = basis_of settings.now facts.now (W.seen words.now) in
        IfOk result (λ progress. steps_of (login_left basis) progress ≡ finding basis call name.now password.now) }
{
    if !is_user_name(name) {
        let viewed = refused(alloc, settings, facts, words, call)?;
        return Ok(Progress::Ends(viewed));
    }
    let name = Text::of(alloc, name)?;
    let password = Text::of(alloc, password)?;
    Ok(Progress::Asks(
        Op::FindUser { name },
        LoginStage::Finding { call, password },
    ))
}

fn after_find<W: Words>(
    alloc: Global,
    settings: &Settings,
    facts: &Facts,
    words: &W,
    call: LoginCall,
    password: Text,
    read: Option<UserRead>,
) -> Result<Progress<LoginStage, Viewed>, AllocError>
    requires { IsUsable settings.now.cfg.preferred }
    ensures { let basis = basis_of settings.now facts.now (W.seen words.now) in
        IfOk result (λ progress. steps_of (login_left basis) progress ≡ after_find basis call password read) }
{
    match read {
        Some(read) => {
            let answer = authenticate(Some(&read.row), password.as_str(), &settings.cfg);
            answered(alloc, settings, facts, words, call, password, read, answer)
        }
        None => Ok(Progress::Ends(refused(alloc, settings, facts, words, call)?)),
    }
}

fn answered<W: Words>(
    alloc: Global,
    settings: &Settings,
    facts: &Facts,
    words: &W,
    call: LoginCall,
    password: Text,
    read: UserRead,
    answer: AuthAnswer,
) -> Result<Progress<LoginStage, Viewed>, AllocError>
    requires { IsUsable settings.now.cfg.preferred }
    ensures { let basis = basis_of settings.now facts.now (W.seen words.now) in
        IfOk result (λ progress. steps_of (login_left basis) progress ≡ answered basis call password read answer) }
{
    match answer {
        AuthAnswer::Yes { backend, upgrade } => {
            let user = LoginUser { read, backend };
            if upgrade {
                upgrading(alloc, settings, facts, words, call, &password, user)
            } else {
                stamping(alloc, settings, facts, words, call, user)
            }
        }
        AuthAnswer::WrongPassword | AuthAnswer::Refused => {
            Ok(Progress::Ends(refused(alloc, settings, facts, words, call)?))
        }
    }
}

// The fresh text takes the place of the one that was read, and of no other.
fn upgrading<W: Words>(
    alloc: Global,
    settings: &Settings,
    _facts: &Facts,
    words: &W,
    call: LoginCall,
    password: &Text,
    user: LoginUser,
) -> Result<Progress<LoginStage, Viewed>, AllocError>
    requires { IsUsable settings.now.cfg.preferred }
    ensures { let basis = basis_of settings.now _facts.now (W.seen words.now) in
        IfOk result (λ progress. steps_of (login_left basis) progress ≡ upgrading basis call password.now user) }
{
    let expected = user.read.row.password.copy(alloc)?;
    let fresh = fresh_text(alloc, settings, _facts, words, password.as_str())?;
    let op = Op::SetPassword {
        user: user.read.row.id,
        expected,
        fresh,
    };
    Ok(Progress::Asks(op, LoginStage::Upgrading { call, user }))
}

fn fresh_text<W: Words>(
    alloc: Global,
    settings: &Settings,
    _facts: &Facts,
    words: &W,
    password: &str,
) -> Result<Text, AllocError>
    requires { IsUsable settings.now.cfg.preferred }
    ensures { IfOk result (λ text. text ≡ fresh_text (basis_of settings.now _facts.now (W.seen words.now)) password.now) }
{
    let salt = new_salt(alloc, words)?;
    make(alloc, settings.cfg.preferred, password, salt.as_str())
}

fn upgraded<W: Words>(
    alloc: Global,
    settings: &Settings,
    facts: &Facts,
    words: &W,
    call: LoginCall,
    mut user: LoginUser,
    hash: Option<Text>,
) -> Result<Progress<LoginStage, Viewed>, AllocError>
    ensures { let basis = basis_of settings.now facts.now (W.seen words.now) in
        IfOk result (λ progress. steps_of (login_left basis) progress ≡ upgraded basis call user hash) }
{
    match hash {
        Some(hash) => {
            user.read.auth_hash = hash;
            stamping(alloc, settings, facts, words, call, user)
        }
        None => Ok(Progress::Ends(refused(alloc, settings, facts, words, call)?)),
    }
}

fn stamping<W: Words>(
    _alloc: Global,
    _settings: &Settings,
    facts: &Facts,
    _words: &W,
    call: LoginCall,
    user: LoginUser,
) -> Result<Progress<LoginStage, Viewed>, AllocError>
    ensures { let basis = basis_of _settings.now facts.now (W.seen _words.now) in
        IfOk result (λ progress. steps_of (login_left basis) progress ≡ stamping basis call user) }
{
    let op = Op::SetLastLogin {
        user: user.read.row.id,
        now: facts.moment.seconds(),
    };
    Ok(Progress::Asks(op, LoginStage::Stamping { call, user }))
}

fn stamped<W: Words>(
    alloc: Global,
    settings: &Settings,
    facts: &Facts,
    words: &W,
    call: LoginCall,
    user: LoginUser,
    done: bool,
) -> Result<Viewed, AllocError>
    ensures { IfOk result (λ viewed. viewed ≡ stamped (basis_of settings.now facts.now (W.seen words.now)) call user done) }
{
    if done {
        welcome(alloc, settings, facts, words, call, &user)
    } else {
        refused(alloc, settings, facts, words, call)
    }
}

fn welcome<W: Words>(
    alloc: Global,
    _settings: &Settings,
    _facts: &Facts,
    words: &W,
    call: LoginCall,
    user: &LoginUser,
) -> Result<Viewed, AllocError>
    ensures { IfOk result (λ viewed. viewed ≡ welcome (basis_of _settings.now _facts.now (W.seen words.now)) call user.now) }
{
    let mut session = call.session;
    login_change(&mut session, alloc, &user.read, user.backend)?;
    let secret = login_secret(alloc, words)?;
    let page = redirect_page(alloc, call.target, Some(secret));
    Ok(Viewed { page, session })
}

fn refused<W: Words>(
    alloc: Global,
    _settings: &Settings,
    _facts: &Facts,
    words: &W,
    call: LoginCall,
) -> Result<Viewed, AllocError>
    ensures { IfOk result (λ viewed. viewed ≡ refusal (basis_of _settings.now _facts.now (W.seen words.now)) call) }
{
    let page = form_page(alloc, words, call.secret, "error=login\n")?;
    Ok(Viewed {
        page,
        session: call.session,
    })
}
