//! The rows of tables in memory, and what changes do to them.

ghost use Rattle.std.specs.Prelude.{◌≡◌, ◌≤◌, ℕ, suc, vec_len, vec_capacity, All, OnOk, length};
ghost use Rattle.ledger_rows.specs.Rows.{IsNumber};
ghost use Rattle.ledger_rows.specs.SessionSteps.{without_expired};
ghost use Rattle.ledger_rows.specs.Tables.{without_mail, without_session};
ghost use Rattle.keepers.specs.Keeper.{IsSoundChange, changed, changed_by};
ghost use Rattle.keepers.specs.MemoryTables.{HasRoomFor, tables_of};

use crate::change::Change;
use crate::sorted_rows::put_row;
use ledger_rows::{MailRow, RowList, SessionRow, UserRow};
use permissions::{GroupRow, PermRow};
use signing_core::Keys;
use std::alloc::AllocError;
use std::collections::VecDeque;

/// What tables in memory hold.
#[derive(Drop)]
pub struct Rows {
    pub keys: Keys,
    pub users: Vec<UserRow>,
    pub groups: RowList<GroupRow>,
    pub perms: RowList<PermRow>,
    pub sessions: Vec<SessionRow>,
    pub mails: Vec<MailRow>,
    pub boot: u64,
    pub next_user: u64,
    pub next_mail: u64,
}

impl Rows {
    /// Makes room for the rows that so many changes may put into any table.
    pub fn reserve(&mut self, more: usize) -> Result<(), AllocError>
        ensures same { tables_of self.new ≡ tables_of self.old }
        ensures ok { OnOk result (HasRoomFor self.new more) }
    {
        self.users.reserve(more)?;
        self.sessions.reserve(more)?;
        self.mails.reserve(more)
    }

    /// Makes the changes in order. There is room for the rows that they put in.
    pub fn change_all(&mut self, changes: VecDeque<Change>)
        requires room { HasRoomFor self.old (length changes.items) }
        requires sound { All IsSoundChange changes.items }
        ensures { tables_of self.new ≡ changed_by changes.items (tables_of self.old) }
    {
        let mut changes = changes;
        while let Some(change) = changes.pop_front() {
            self.change_one(change);
        }
    }

    fn change_one(&mut self, change: Change)
        requires room { HasRoomFor self.old 1 }
        requires sound { IsSoundChange change }
        ensures tables { tables_of self.new ≡ changed (tables_of self.old) change }
        ensures room { (more : ℕ) → HasRoomFor self.old (suc more) → HasRoomFor self.new more }
    {
        match change {
            Change::PutSession(row) => put_row(&mut self.sessions, row),
            Change::DropSession(key) => drop_session(&mut self.sessions, key.as_str()),
            Change::DropExpired(now) => drop_expired(&mut self.sessions, now),
            Change::PutUser(row) => self.put_user(row),
            Change::PutMail(row) => self.put_mail(row),
            Change::DropMail(id) => drop_mail(&mut self.mails, id),
            Change::PutKeys(keys) => self.keys = keys,
            Change::PutBoot(boot) => self.boot = boot,
        }
    }

    fn put_user(&mut self, row: UserRow)
        requires room { HasRoomFor self.old 1 }
        requires id { IsNumber row.id }
        ensures tables { tables_of self.new ≡ changed (tables_of self.old) (Change.PutUser row) }
        ensures room { (more : ℕ) → HasRoomFor self.old (suc more) → HasRoomFor self.new more }
    {
        self.next_user = self.next_user.max(row.id + 1);
        put_row(&mut self.users, row);
    }

    fn put_mail(&mut self, row: MailRow)
        requires room { HasRoomFor self.old 1 }
        requires id { IsNumber row.id }
        ensures tables { tables_of self.new ≡ changed (tables_of self.old) (Change.PutMail row) }
        ensures room { (more : ℕ) → HasRoomFor self.old (suc more) → HasRoomFor self.new more }
    {
        self.next_mail = self.next_mail.max(row.id + 1);
        put_row(&mut self.mails, row);
    }
}

fn drop_session(sessions: &mut Vec<SessionRow>, key: &str)
    ensures value { sessions.new.items ≡ without_session sessions.old.items key.now }
    ensures len { vec_len sessions.new ≤ vec_len sessions.old }
    ensures capacity { vec_capacity sessions.new ≡ vec_capacity sessions.old }
{
    sessions.retain(|row| row.key.as_str() != key);
}

fn drop_expired(sessions: &mut Vec<SessionRow>, now: u64)
    ensures value { sessions.new.items ≡ without_expired sessions.old.items now }
    ensures len { vec_len sessions.new ≤ vec_len sessions.old }
    ensures capacity { vec_capacity sessions.new ≡ vec_capacity sessions.old }
{
    sessions.retain(|row| row.expire >= now);
}

fn drop_mail(mails: &mut Vec<MailRow>, id: u64)
    ensures value { mails.new.items ≡ without_mail mails.old.items id }
    ensures len { vec_len mails.new ≤ vec_len mails.old }
    ensures capacity { vec_capacity mails.new ≡ vec_capacity mails.old }
{
    mails.retain(|row| row.id != id);
}
