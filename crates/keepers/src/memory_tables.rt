//! Tables in memory, each a vector in the order of its keys.

ghost use Rattle.std.specs.Prelude.{◌≡◌, ◌+◌, All, IfOk, IfSome, OnErr, OnOk, option_map};
ghost use Rattle.std.specs.List.Sorted.{IsStrictlyIncreasing};
ghost use Rattle.ledger_rows.specs.Opening.{IsOpening, ids_of_groups, ids_of_perms, ids_of_users};
ghost use Rattle.ledger_rows.specs.Rows.{AreInOrder, IsNumber, IsSoundGroup, IsSoundMail, IsSoundPerm, IsSoundSession, IsSoundUser};
ghost use Rattle.ledger_rows.specs.SessionSteps.{count_expired};
ghost use Rattle.ledger_rows.specs.Tables.{first_mail, greatest_id, has_email, opening_tables, session_of, sorted_sessions, user_named, user_of, users_of_email};
ghost use Rattle.keepers.specs.Keeper.{IsSoundChange, KeepsNamesOf, changed_by, next_ids_of};
ghost use Rattle.keepers.specs.MemoryTables.{tables_of};

use crate::change::Change;
use crate::keeper::NextIds;
use crate::memory_rows::Rows;
use crate::sorted_rows::put_row;
use ledger_rows::{MailRow, Opening, RowList, SessionRow, UserRow};
use permissions::{GroupRow, PermRow};
use signing_core::Keys;
use std::alloc::{AllocError, Global};
use std::collections::VecDeque;
use std::marker::Model;

/// The rows are sound and in order, and stay so.
#[derive(Drop)]
pub struct MemTables {
    rows: Rows,
}

impl Model for MemTables {
    ghost use Rattle.ledger_rows.specs.Rows.{AreInOrder, AreSound};
    ghost use Rattle.ledger_rows.specs.Tables.{Tables};

    ghost Value = { Tables };

    ghost use Rattle.keepers.specs.MemoryTables.{tables_of};

    ghost view = { λ t. tables_of t.rows };

    ghost invariant = { λ t. AreSound (tables_of t.rows) × AreInOrder (tables_of t.rows) };
}

impl MemTables {
    /// What a new store holds.
    pub fn of(alloc: Global, opening: &Opening) -> Result<MemTables, AllocError>
        requires { IsOpening opening.now }
        ensures { IfOk result (λ tables. tables ≡ opening_tables opening.now) }
    {
        let next_user = next_id(opening.users.items());
        let rows = Rows {
            keys: opening.keys.copy(alloc)?,
            users: opening.users.copy(alloc)?.into_vec(),
            groups: opening.groups.copy(alloc)?,
            perms: opening.perms.copy(alloc)?,
            sessions: sorted_sessions(alloc, opening.sessions.items())?,
            mails: Vec::new(alloc),
            boot: 0,
            next_user,
            next_mail: 1,
        };
        Ok(MemTables { rows })
    }

    /// How many starts there were.
    pub fn boots(&self) -> u64
        ensures value { result ≡ self.now.boot }
        ensures sound { IsNumber result }
    {
        self.rows.boot
    }

    pub fn keys(&self) -> &Keys
        ensures { result.now ≡ self.now.keys }
    {
        &self.rows.keys
    }

    pub fn user_by_id(&self, alloc: Global, id: u64) -> Result<Option<UserRow>, AllocError>
        ensures value { IfOk result (λ row. row ≡ user_of self.now.users id) }
        ensures asked { IfOk result (λ row. IfSome row (λ user. user.id ≡ id)) }
        ensures sound { IfOk result (λ row. IfSome row IsSoundUser) }
        ensures ordered { AreInOrder self.now }
    {
        match found_user(self.rows.users.as_slice(), id) {
            Some(user) => Ok(Some(user.copy(alloc)?)),
            None => Ok(None),
        }
    }

    pub fn user_by_name(&self, alloc: Global, name: &str) -> Result<Option<UserRow>, AllocError>
        ensures value { IfOk result (λ row. row ≡ user_named self.now.users name.now) }
        ensures asked { IfOk result (λ row. IfSome row (λ user. user.name ≡ name.now)) }
        ensures sound { IfOk result (λ row. IfSome row IsSoundUser) }
        ensures ordered { AreInOrder self.now }
    {
        match named_user(self.rows.users.as_slice(), name) {
            Some(user) => Ok(Some(user.copy(alloc)?)),
            None => Ok(None),
        }
    }

    pub fn users_by_email(&self, alloc: Global, email: &str) -> Result<RowList<UserRow>, AllocError>
        ensures value { IfOk result (λ rows. rows ≡ users_of_email self.now.users email.now) }
        ensures sound { IfOk result (λ rows. All IsSoundUser rows) }
        ensures order { IfOk result (λ rows. IsStrictlyIncreasing (ids_of_users rows)) }
    {
        let users = copies_by_email(alloc, self.rows.users.as_slice(), email)?;
        Ok(RowList::from_vec(users))
    }

    pub fn groups(&self, alloc: Global) -> Result<RowList<GroupRow>, AllocError>
        ensures value { IfOk result (λ rows. rows ≡ self.now.groups) }
        ensures sound { IfOk result (λ rows. All IsSoundGroup rows) }
        ensures order { IfOk result (λ rows. IsStrictlyIncreasing (ids_of_groups rows)) }
    {
        self.rows.groups.copy(alloc)
    }

    pub fn perms(&self, alloc: Global) -> Result<RowList<PermRow>, AllocError>
        ensures value { IfOk result (λ rows. rows ≡ self.now.perms) }
        ensures sound { IfOk result (λ rows. All IsSoundPerm rows) }
        ensures order { IfOk result (λ rows. IsStrictlyIncreasing (ids_of_perms rows)) }
    {
        self.rows.perms.copy(alloc)
    }

    pub fn session(&self, alloc: Global, key: &str) -> Result<Option<SessionRow>, AllocError>
        ensures value { IfOk result (λ row. row ≡ session_of self.now.sessions key.now) }
        ensures asked { IfOk result (λ row. IfSome row (λ session. session.key ≡ key.now)) }
        ensures sound { IfOk result (λ row. IfSome row IsSoundSession) }
    {
        match found_session(self.rows.sessions.as_slice(), key) {
            Some(session) => Ok(Some(session.copy(alloc)?)),
            None => Ok(None),
        }
    }

    /// How many sessions were over before a moment.
    pub fn count_expired(&self, now: u64) -> u64
        ensures { result ≡ count_expired self.now.sessions now }
    {
        let over = self.rows.sessions.iter().filter(|row| row.expire < now);
        over.count() as u64
    }

    pub fn oldest_mail(&self, alloc: Global) -> Result<Option<MailRow>, AllocError>
        ensures value { IfOk result (λ row. row ≡ first_mail self.now.mails) }
        ensures sound { IfOk result (λ row. IfSome row IsSoundMail) }
    {
        match self.rows.mails.as_slice() {
            [mail, ..] => Ok(Some(mail.copy(alloc)?)),
            [] => Ok(None),
        }
    }

    pub fn next_ids(&self) -> NextIds
        ensures value { result ≡ next_ids_of self.now }
        ensures ordered { AreInOrder self.now }
    {
        NextIds {
            user: self.rows.next_user,
            mail: self.rows.next_mail,
        }
    }

    /// Makes the changes in order, or none.
    pub fn change(&mut self, changes: VecDeque<Change>) -> Result<(), AllocError>
        requires sound { All IsSoundChange changes.items }
        requires names { KeepsNamesOf changes.items self.old }
        ensures ok { OnOk result (self.new ≡ changed_by changes.items self.old) }
        ensures err { OnErr result (self.new ≡ self.old) }
    {
        self.rows.reserve(changes.len())?;
        self.rows.change_all(changes);
        Ok(())
    }
}

// One above the greatest id.
fn next_id(users: &[UserRow]) -> u64
    requires { All IsSoundUser users.now }
    ensures { result ≡ greatest_id users.now + 1 }
{
    let mut greatest = 0;
    for user in users {
        greatest = greatest.max(user.id);
    }
    greatest + 1
}

fn found_user(users: &[UserRow], id: u64) -> Option<&UserRow>
    requires { All IsSoundUser users.now }
    ensures value { option_map (λ user. user.now) result ≡ user_of users.now id }
    ensures asked { IfSome result (λ user. user.now.id ≡ id) }
    ensures sound { IfSome result (λ user. IsSoundUser user.now) }
{
    for user in users {
        if user.id == id {
            return Some(user);
        }
    }
    None
}

fn named_user<'a>(users: &'a [UserRow], name: &str) -> Option<&'a UserRow>
    requires { All IsSoundUser users.now }
    ensures value { option_map (λ user. user.now) result ≡ user_named users.now name.now }
    ensures asked { IfSome result (λ user. user.now.name ≡ name.now) }
    ensures sound { IfSome result (λ user. IsSoundUser user.now) }
{
    for user in users {
        if user.name.as_str() == name {
            return Some(user);
        }
    }
    None
}

fn copies_by_email(
    alloc: Global,
    users: &[UserRow],
    email: &str,
) -> Result<Vec<UserRow>, AllocError>
    ensures { IfOk result (λ copies. copies.items ≡ users_of_email users.now email.now) }
{
    let mut copies = Vec::new(alloc);
    for user in users {
        if has_email(user, email) {
            copies.push(user.copy(alloc)?)?;
        }
    }
    Ok(copies)
}

fn has_email(user: &UserRow, email: &str) -> bool
    ensures { result ≡ has_email email.now user.now }
{
    user.email.as_str().eq_ignore_ascii_case(email)
}

fn found_session<'a>(sessions: &'a [SessionRow], key: &str) -> Option<&'a SessionRow>
    requires { All IsSoundSession sessions.now }
    ensures value { option_map (λ session. session.now) result ≡ session_of sessions.now key.now }
    ensures asked { IfSome result (λ session. session.now.key ≡ key.now) }
    ensures sound { IfSome result (λ session. IsSoundSession session.now) }
{
    for session in sessions {
        if session.key.as_str() == key {
            return Some(session);
        }
    }
    None
}

fn sorted_sessions(alloc: Global, rows: &[SessionRow]) -> Result<Vec<SessionRow>, AllocError>
    ensures { IfOk result (λ sessions. sessions.items ≡ sorted_sessions rows.now) }
{
    let mut sessions = Vec::new(alloc);
    for row in rows {
        let row = row.copy(alloc)?;
        sessions.reserve(1)?;
        put_row(&mut sessions, row);
    }
    Ok(sessions)
}
