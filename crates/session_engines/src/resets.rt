//! The operations on password resets: `MakeReset`, `CheckReset` and `TakeMail`.

ghost use Rattle.std.specs.Prelude.{◌≡◌, ◌≤◌, ◌<◌, ◌+◌, ◌^◌, ◌↔◌, All, IfNone, IfOk, IfSome, IsTrue, filter, length};
ghost use Rattle.crypto_text.specs.Moment.{IsMoment};
ghost use Rattle.reset_tokens.specs.ResetToken.{row_of};
ghost use Rattle.reset_tokens.specs.TokenVerdict.{token_verdict};
ghost use Rattle.ledger_rows.specs.MailSteps.{is_mailed, is_unusable, reset_link, reset_mail, reset_mails, reset_row};
ghost use Rattle.ledger_rows.specs.Rows.{IsSoundUser};
ghost use Rattle.ledger_rows.specs.Step.{IsAsking, token_reply};
ghost use Rattle.ledger_rows.specs.declared.rows.Cfg.{Cfg as CfgView};
ghost use Rattle.keepers.specs.Keeper.{MayHold, OnlyReads};
ghost use Rattle.session_engines.specs.Ledger.{MayRunOut};
ghost use Rattle.session_engines.specs.Mailing.{IsMailing, IsTokenReply, put_changes};
ghost use Rattle.session_engines.specs.Taking.{IsAnswer};

use crate::answer::Answer;
use crate::ledger::NUMBERS_END;
use crate::users::user_read;
use crypto_text::Text;
use keepers::{Change, Keeper, KeeperFault};
use ledger_rows::{MailRow, Op, Reply, RowList, UserRow};
use reset_tokens::{ResetUser, ResetVerdict, judge_token, make_token, uid_text};
use signing_core::Keys;
use std::alloc::{AllocError, Global};

/// Writes a mail to each user of an address who may reset his password; none where the ids have run out.
pub fn make_reset<K: Keeper>(
    alloc: Global,
    keeper: &mut K,
    email: &Text,
    now: u64,
) -> Result<Option<Answer>, KeeperFault>
    requires holds { MayHold (K.seen keeper.old).report }
    requires asking { IsAsking email.now now }
    ensures some { (cfg : CfgView) → IfOk result (λ answer. IfSome answer (IsAnswer cfg (Op.MakeReset email.now now) (K.seen keeper.old))) }
    ensures none { IfOk result (λ answer. IfNone answer (MayRunOut (Op.MakeReset email.now now) (K.seen keeper.old).report)) }
    ensures reads { OnlyReads (K.seen keeper.old) (K.seen keeper.new) result }
{
    let users = keeper.users_by_email(alloc, email.as_str())?;
    let keys = keeper.keys(alloc)?;
    let first = keeper.next_ids()?.mail;
    let users = mailed_users(users);
    Ok(mailing(alloc, &keys, users.items(), first, now)?)
}

/// Finds out whether a reset token is valid for a user.
pub fn check_reset<K: Keeper>(
    alloc: Global,
    keeper: &mut K,
    user: u64,
    token: &Text,
    now: u64,
) -> Result<Answer, KeeperFault>
    requires holds { MayHold (K.seen keeper.old).report }
    requires now { IsMoment now }
    ensures ok { (cfg : CfgView) → IfOk result (IsAnswer cfg (Op.CheckReset user token.now now) (K.seen keeper.old)) }
    ensures reads { OnlyReads (K.seen keeper.old) (K.seen keeper.new) result }
{
    let Some(row) = keeper.user_by_id(alloc, user)? else {
        return Ok(Answer::unchanged(alloc, Reply::NoRow));
    };
    let keys = keeper.keys(alloc)?;
    let reply = token_reply(alloc, &keys, row, token.as_str(), now)?;
    Ok(Answer::unchanged(alloc, reply))
}

/// Takes the mail of the least id, where there is one.
pub fn take_mail<K: Keeper>(alloc: Global, keeper: &mut K) -> Result<Answer, KeeperFault>
    requires { MayHold (K.seen keeper.old).report }
    ensures ok { (cfg : CfgView) → IfOk result (IsAnswer cfg Op.TakeMail (K.seen keeper.old)) }
    ensures reads { OnlyReads (K.seen keeper.old) (K.seen keeper.new) result }
{
    let Some(mail) = keeper.oldest_mail(alloc)? else {
        return Ok(Answer::unchanged(alloc, Reply::Mail { mail: None }));
    };
    let dropped = Change::DropMail(mail.id);
    let reply = Reply::Mail { mail: Some(mail) };
    Ok(Answer::changed(alloc, reply, dropped)?)
}

fn mailed_users(users: RowList<UserRow>) -> RowList<UserRow>
    requires { All IsSoundUser users }
    ensures value { result ≡ filter is_mailed users }
    ensures sound { All IsSoundUser result }
{
    let mut rows = users.into_vec();
    rows.retain(|user| is_mailed(user));
    RowList::from_vec(rows)
}

// Whether a user of the address gets a mail.
fn is_mailed(user: &UserRow) -> bool
    ensures { result ≡ is_mailed user.now }
{
    user.active && !user.email.as_str().is_empty() && !is_unusable(user.password.as_str())
}

fn is_unusable(password: &str) -> bool
    ensures { result ≡ is_unusable password.now }
{
    password.as_bytes().first() == Some(&b'!')
}

fn mailing(
    alloc: Global,
    keys: &Keys,
    users: &[UserRow],
    first: u64,
    now: u64,
) -> Result<Option<Answer>, AllocError>
    requires sound { All IsSoundUser users.now }
    requires now { IsMoment now }
    ensures some { IfOk result (λ answer. IfSome answer (IsMailing keys.now users.now first now)) }
    ensures none { IfOk result (λ answer. IfNone answer (2 ^ 62 < first + length users.now)) }
{
    let count = users.len() as u64;
    if !are_left(first, count) {
        return Ok(None);
    }
    let changes = mail_changes(alloc, keys, users, first, now)?;
    let reply = Reply::Mailed { count };
    Ok(Some(Answer { reply, changes }))
}

// Whether there are so many ids from the first on.
fn are_left(first: u64, count: u64) -> bool
    ensures { IsTrue result ↔ (first + count ≤ 2 ^ 62) }
{
    count <= NUMBERS_END && first <= NUMBERS_END - count
}

fn mail_changes(
    alloc: Global,
    keys: &Keys,
    users: &[UserRow],
    first: u64,
    now: u64,
) -> Result<Vec<Change>, AllocError>
    requires sound { All IsSoundUser users.now }
    requires now { IsMoment now }
    requires fits { first + length users.now ≤ 2 ^ 62 }
    ensures { IfOk result (λ changes. changes.items ≡ put_changes (reset_mails keys.now now first users.now)) }
{
    let mut changes = Vec::with_capacity(alloc, users.len())?;
    let mut id = first;
    for user in users {
        let mail = reset_mail(alloc, keys, id, user, now)?;
        changes.push(Change::PutMail(mail))?;
        id += 1;
    }
    Ok(changes)
}

fn reset_mail(
    alloc: Global,
    keys: &Keys,
    id: u64,
    user: &UserRow,
    now: u64,
) -> Result<MailRow, AllocError>
    requires sound { IsSoundUser user.now }
    requires now { IsMoment now }
    ensures { IfOk result (λ mail. mail ≡ reset_mail keys.now now id user.now) }
{
    Ok(MailRow {
        id,
        to: user.email.copy(alloc)?,
        link: reset_link(alloc, keys, user, now)?,
    })
}

#[tactic(auto, unfolding(ledger_rows::specs::MailSteps::reset_link))]
fn reset_link(alloc: Global, keys: &Keys, user: &UserRow, now: u64) -> Result<Text, AllocError>
    requires sound { IsSoundUser user.now }
    requires now { IsMoment now }
    ensures { IfOk result (λ link. link ≡ reset_link keys.now now user.now) }
{
    let token = make_token(alloc, &reset_user(user), keys, now)?;
    let uid = uid_text(alloc, user.id)?;
    let link = format!(in alloc; "/reset/{}/{}/", uid.as_str(), token.as_str())?;
    Ok(Text::from_string(link))
}

fn token_reply(
    alloc: Global,
    keys: &Keys,
    row: UserRow,
    token: &str,
    now: u64,
) -> Result<Reply, AllocError>
    requires sound { IsSoundUser row }
    requires now { IsMoment now }
    ensures value { IfOk result (λ reply. reply ≡ token_reply keys.now row (token_verdict (reset_row row) keys.now token.now now)) }
    ensures kind { IfOk result IsTokenReply }
{
    match judge_token(alloc, &reset_user(&row), keys, token, now)? {
        ResetVerdict::Valid => Ok(Reply::Good {
            read: user_read(alloc, keys, row)?,
        }),
        verdict => Ok(Reply::BadToken { verdict }),
    }
}

fn reset_user<'a>(row: &'a UserRow) -> ResetUser<'a>
    ensures row { row_of result ≡ reset_row row.now }
    ensures last_login { result.last_login ≡ row.now.last_login }
{
    ResetUser {
        id: row.id,
        password: row.password.as_str(),
        last_login: row.last_login,
        email: row.email.as_str(),
    }
}
