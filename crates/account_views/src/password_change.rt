//! `/password_change/`: a user's own new password.

ghost use Rattle.std.specs.Prelude.{◌≡◌, IfOk};
ghost use Rattle.pass_hashers.specs.PasswordText.{IsUsable};
ghost use Rattle.auth_backends.specs.PasswordReading.{verifies};
ghost use Rattle.outside.specs.RandomWords.{words_from};
ghost use Rattle.account_views.specs.PasswordChange.{after_replacing, change_left, change_line, changed, checked, form_fault, password_change, refused, replacing_op, shown, submitted, to_login};
ghost use Rattle.account_views.specs.Script.{steps_of};

use crate::call::Call;
use crate::login::written_hash;
use crate::new_password::{Fault, fault_line, fault_of};
use crate::page::{Viewed, form_page, redirect_page};
use crate::progress::Progress;
use crate::random_texts::new_salt;
use crate::visit::Visit;
use auth_backends::{SessionBox, rehash_change};
use crypto_text::Text;
use http_edge::Field;
use ledger_rows::{Cfg, Op, Reply, UserRow};
use middleware_chain::{Secret, Settings, last_value};
use outside::Words;
use pass_hashers::{make, verify};
use std::alloc::{AllocError, Global};

/// What a change of password waits for.
#[derive(Drop)]
pub enum ChangeStage {
    /// That the new password text is put in place of the loaded one.
    Replacing {
        secret: Option<Secret>,
        session: SessionBox,
    },
}

/// Why a password isn't changed.
#[derive(Clone, Copy)]
pub enum ChangeFault {
    /// The old password is wrong.
    OldPassword,
    /// The new one isn't taken.
    NewPassword(Fault),
    /// The user has another password text since the request was loaded, or is no user any more.
    RowChanged,
}

/// The page, or the step that writes the new password.
pub fn password_change<W: Words>(
    alloc: Global,
    settings: &Settings,
    words: &W,
    call: Call,
    visit: Visit,
) -> Result<Progress<ChangeStage, Viewed>, AllocError>
    requires { IsUsable settings.now.cfg.preferred }
    ensures { let draw = words_from (W.seen words.now) 1024 in
        IfOk result (λ progress. steps_of (change_left draw) progress ≡ password_change settings.now draw call visit) }
{
    let Visit { session, user } = visit;
    match user {
        Some(read) if call.post => submit(alloc, settings, words, call, read.row, session),
        Some(_) => Ok(Progress::Ends(shown(alloc, words, call.secret, "", session)?)),
        None => Ok(Progress::Ends(to_login(alloc, session)?)),
    }
}

/// The page, once the reply to the step is there.
pub fn change_next<W: Words>(
    alloc: Global,
    words: &W,
    stage: ChangeStage,
    reply: Reply,
) -> Result<Progress<ChangeStage, Viewed>, AllocError>
    ensures { let draw = words_from (W.seen words.now) 1024 in
        IfOk result (λ progress. steps_of (change_left draw) progress ≡ change_left draw stage reply) }
{
    let hash = written_hash(reply);
    let ChangeStage::Replacing { secret, session } = stage;
    Ok(Progress::Ends(after_replacing(alloc, words, secret, session, hash)?))
}

fn submit<W: Words>(
    alloc: Global,
    settings: &Settings,
    words: &W,
    call: Call,
    row: UserRow,
    session: SessionBox,
) -> Result<Progress<ChangeStage, Viewed>, AllocError>
    requires { IsUsable settings.now.cfg.preferred }
    ensures { let draw = words_from (W.seen words.now) 1024 in
        IfOk result (λ progress. steps_of (change_left draw) progress ≡ submitted settings.now draw call row session) }
{
    let Call { fields, secret, .. } = call;
    let fields = fields.items();
    let fault = form_fault(alloc, settings, &row, fields)?;
    let password = last_value(fields, "new_password1");
    checked(
        alloc, settings, words, secret, row, password, session, fault,
    )
}

fn checked<W: Words>(
    alloc: Global,
    settings: &Settings,
    words: &W,
    secret: Option<Secret>,
    row: UserRow,
    password: &str,
    session: SessionBox,
    fault: Option<ChangeFault>,
) -> Result<Progress<ChangeStage, Viewed>, AllocError>
    requires { IsUsable settings.now.cfg.preferred }
    ensures { let draw = words_from (W.seen words.now) 1024 in
        IfOk result (λ progress. steps_of (change_left draw) progress ≡ checked settings.now draw secret row password.now session fault) }
{
    match fault {
        Some(fault) => Ok(Progress::Ends(refused(alloc, words, secret, fault, session)?)),
        None => {
            let op = replacing_op(alloc, settings, words, row, password)?;
            Ok(Progress::Asks(op, ChangeStage::Replacing { secret, session }))
        }
    }
}

fn replacing_op<W: Words>(
    alloc: Global,
    settings: &Settings,
    words: &W,
    row: UserRow,
    password: &str,
) -> Result<Op, AllocError>
    requires { IsUsable settings.now.cfg.preferred }
    ensures { IfOk result (λ op. op ≡ replacing_op settings.now (words_from (W.seen words.now) 1024) row password.now) }
{
    let salt = new_salt(alloc, words)?;
    let fresh = make(alloc, settings.cfg.preferred, password, salt.as_str())?;
    Ok(Op::SetPassword {
        user: row.id,
        expected: row.password,
        fresh,
    })
}

fn form_fault(
    alloc: Global,
    settings: &Settings,
    row: &UserRow,
    fields: &[Field],
) -> Result<Option<ChangeFault>, AllocError>
    ensures { IfOk result (λ fault. fault ≡ form_fault settings.now row.now fields.now) }
{
    let old = last_value(fields, "old_password");
    if !verifies(old, &row.password, &settings.cfg) {
        return Ok(Some(ChangeFault::OldPassword));
    }
    let first = last_value(fields, "new_password1");
    let second = last_value(fields, "new_password2");
    Ok(fault_of(alloc, first, second, &settings.common)?.map(ChangeFault::NewPassword))
}

fn verifies(password: &str, text: &Text, cfg: &Cfg) -> bool
    ensures { result ≡ verifies password.now text.now cfg.now.installed }
{
    verify(password, text.as_str(), cfg.installed.items())
}

fn after_replacing<W: Words>(
    alloc: Global,
    words: &W,
    secret: Option<Secret>,
    session: SessionBox,
    hash: Option<Text>,
) -> Result<Viewed, AllocError>
    ensures { IfOk result (λ viewed. viewed ≡ after_replacing (words_from (W.seen words.now) 1024) secret session hash) }
{
    match hash {
        Some(hash) => changed(alloc, &hash, session),
        None => refused(alloc, words, secret, ChangeFault::RowChanged, session),
    }
}

// Whoever changes the password stays logged in.
fn changed(alloc: Global, hash: &Text, mut session: SessionBox) -> Result<Viewed, AllocError>
    ensures { IfOk result (λ viewed. viewed ≡ changed hash.now session) }
{
    rehash_change(&mut session, alloc, hash.as_str())?;
    let page = redirect_page(alloc, Text::of(alloc, "/whoami/")?, None);
    Ok(Viewed { page, session })
}

fn refused<W: Words>(
    alloc: Global,
    words: &W,
    secret: Option<Secret>,
    fault: ChangeFault,
    session: SessionBox,
) -> Result<Viewed, AllocError>
    ensures { IfOk result (λ viewed. viewed ≡ refused (words_from (W.seen words.now) 1024) secret fault session) }
{
    shown(alloc, words, secret, change_line(fault), session)
}

fn change_line(fault: ChangeFault) -> &'static str
    ensures { result.now ≡ change_line fault }
{
    match fault {
        ChangeFault::OldPassword => "error=old\n",
        ChangeFault::NewPassword(fault) => fault_line(fault),
        ChangeFault::RowChanged => "error=changed\n",
    }
}

fn shown<W: Words>(
    alloc: Global,
    words: &W,
    secret: Option<Secret>,
    lines: &str,
    session: SessionBox,
) -> Result<Viewed, AllocError>
    ensures { IfOk result (λ viewed. viewed ≡ shown (words_from (W.seen words.now) 1024) secret lines.now session) }
{
    let page = form_page(alloc, words, secret, lines)?;
    Ok(Viewed { page, session })
}

fn to_login(alloc: Global, session: SessionBox) -> Result<Viewed, AllocError>
    ensures { IfOk result (λ viewed. viewed ≡ to_login session) }
{
    let page = redirect_page(
        alloc,
        Text::of(alloc, "/login/?next=/password_change/")?,
        None,
    );
    Ok(Viewed { page, session })
}
