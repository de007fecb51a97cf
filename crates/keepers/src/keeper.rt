//! Where the tables and the audit list are kept.

ghost use Rattle.std.specs.Prelude.{◌≡◌, ◌≤◌, ◌<◌, ◌^◌, ◌↔◌, All, IfOk, IfSome, IsNone, IsTrue, MatchBool};
ghost use Rattle.std.specs.List.Sorted.{IsStrictlyIncreasing};
ghost use Rattle.ledger_rows.specs.History.{entry_at};
ghost use Rattle.ledger_rows.specs.Opening.{IsOpening, ids_of_groups, ids_of_perms, ids_of_users};
ghost use Rattle.ledger_rows.specs.Rows.{IsNumber, IsSoundGroup, IsSoundMail, IsSoundPerm, IsSoundSession, IsSoundUser};
ghost use Rattle.ledger_rows.specs.SessionSteps.{count_expired};
ghost use Rattle.ledger_rows.specs.Tables.{first_mail, session_of, user_named, user_of, users_of_email};
ghost use Rattle.keepers.specs.Keeper.{Answers, Commits, Installs, IsCounted, IsOrdered, IsSoundChange, KeepsNames, Kept, MayBeFresh, MayHold, OnHolding, OnlyReads, next_ids_of};

use crate::change::Change;
use ledger_rows::{Entry, MailRow, Opening, RowList, SessionRow, UserRow};
use permissions::{GroupRow, PermRow};
use signing_core::Keys;
use std::alloc::{AllocError, Global};
use thiserror::Error;

/// Why a call of a keeper was refused.
#[derive(Clone, Copy, Debug, Drop, Error, PartialEq, Eq)]
pub enum KeeperFault {
    /// The keeper's count of faults rose.
    #[error("the store failed")]
    Failed,
    #[error("out of memory")]
    Memory,
}

impl From<AllocError> for KeeperFault {
    ghost use Rattle.std.specs.Prelude.{◌≡◌};
    ghost use Rattle.keepers.specs.declared.keeper.KeeperFault.TheVariants.{Memory};

    ghost from_gives = { λ _ fault. fault ≡ Memory };

    fn from(_: AllocError) -> KeeperFault {
        KeeperFault::Memory
    }
}

/// The ids that the next user and the next mail get.
#[derive(Clone, Copy, Debug, PartialEq, Eq)]
pub struct NextIds {
    pub user: u64,
    pub mail: u64,
}

/// Keeps the tables and the audit list. A refused call leaves both as they were, and each step is kept
/// whole or not at all. A keeper may report what it holds; a real database doesn't. What it answers is sound
/// whether or not it reports.
pub trait Keeper: Drop {
    /// What it reports, how many entries its audit list has, and how many calls have failed.
    ghost seen: { Self → Kept };

    /// Whether nothing was installed yet.
    fn is_new(&mut self) -> Result<bool, KeeperFault>
        ensures value { IfOk result (λ is_new. MatchBool is_new (MayBeFresh (seen self.old).report) (MayHold (seen self.old).report)) }
        ensures reads { OnlyReads (seen self.old) (seen self.new) result };

    /// Puts in what a new store begins with.
    fn install(&mut self, alloc: Global, opening: &Opening) -> Result<(), KeeperFault>
        requires opening { IsOpening opening.now }
        requires new { MayBeFresh (seen self.old).report }
        ensures { Installs opening.now (seen self.old) (seen self.new) result };

    /// How many starts there were.
    fn boots(&mut self) -> Result<u64, KeeperFault>
        requires { MayHold (seen self.old).report }
        ensures value { Answers (seen self.old) result (λ tables. tables.boot) }
        ensures sound { IfOk result IsNumber }
        ensures reads { OnlyReads (seen self.old) (seen self.new) result };

    /// The signing keys.
    fn keys(&mut self, alloc: Global) -> Result<Keys, KeeperFault>
        requires { MayHold (seen self.old).report }
        ensures value { Answers (seen self.old) result (λ tables. tables.keys) }
        ensures reads { OnlyReads (seen self.old) (seen self.new) result };

    /// The user of an id.
    fn user_by_id(&mut self, alloc: Global, id: u64) -> Result<Option<UserRow>, KeeperFault>
        requires { MayHold (seen self.old).report }
        ensures value { Answers (seen self.old) result (λ tables. user_of tables.users id) }
        ensures asked { IfOk result (λ row. IfSome row (λ user. user.id ≡ id)) }
        ensures sound { IfOk result (λ row. IfSome row IsSoundUser) }
        ensures ordered { IfOk result (λ _. IsOrdered (seen self.old).report) }
        ensures reads { OnlyReads (seen self.old) (seen self.new) result };

    /// The user of a name.
    fn user_by_name(&mut self, alloc: Global, name: &str) -> Result<Option<UserRow>, KeeperFault>
        requires { MayHold (seen self.old).report }
        ensures value { Answers (seen self.old) result (λ tables. user_named tables.users name.now) }
        ensures asked { IfOk result (λ row. IfSome row (λ user. user.name ≡ name.now)) }
        ensures sound { IfOk result (λ row. IfSome row IsSoundUser) }
        ensures ordered { IfOk result (λ _. IsOrdered (seen self.old).report) }
        ensures reads { OnlyReads (seen self.old) (seen self.new) result };

    /// The users of an address in whatever case, in the order of their ids.
    fn users_by_email(
        &mut self,
        alloc: Global,
        email: &str,
    ) -> Result<RowList<UserRow>, KeeperFault>
        requires { MayHold (seen self.old).report }
        ensures value { Answers (seen self.old) result (λ tables. users_of_email tables.users email.now) }
        ensures sound { IfOk result (λ rows. All IsSoundUser rows) }
        ensures order { IfOk result (λ rows. IsStrictlyIncreasing (ids_of_users rows)) }
        ensures reads { OnlyReads (seen self.old) (seen self.new) result };

    /// All groups, in the order of their ids.
    fn groups(&mut self, alloc: Global) -> Result<RowList<GroupRow>, KeeperFault>
        requires { MayHold (seen self.old).report }
        ensures value { Answers (seen self.old) result (λ tables. tables.groups) }
        ensures sound { IfOk result (λ rows. All IsSoundGroup rows) }
        ensures order { IfOk result (λ rows. IsStrictlyIncreasing (ids_of_groups rows)) }
        ensures reads { OnlyReads (seen self.old) (seen self.new) result };

    /// All permissions, in the order of their ids.
    fn perms(&mut self, alloc: Global) -> Result<RowList<PermRow>, KeeperFault>
        requires { MayHold (seen self.old).report }
        ensures value { Answers (seen self.old) result (λ tables. tables.perms) }
        ensures sound { IfOk result (λ rows. All IsSoundPerm rows) }
        ensures order { IfOk result (λ rows. IsStrictlyIncreasing (ids_of_perms rows)) }
        ensures reads { OnlyReads (seen self.old) (seen self.new) result };

    /// The session of a key.
    fn session(&mut self, alloc: Global, key: &str) -> Result<Option<SessionRow>, KeeperFault>
        requires { MayHold (seen self.old).report }
        ensures value { Answers (seen self.old) result (λ tables. session_of tables.sessions key.now) }
        ensures asked { IfOk result (λ row. IfSome row (λ session. session.key ≡ key.now)) }
        ensures sound { IfOk result (λ row. IfSome row IsSoundSession) }
        ensures reads { OnlyReads (seen self.old) (seen self.new) result };

    /// How many sessions were over before a moment.
    fn count_expired(&mut self, now: u64) -> Result<u64, KeeperFault>
        requires { MayHold (seen self.old).report }
        ensures value { Answers (seen self.old) result (λ tables. count_expired tables.sessions now) }
        ensures reads { OnlyReads (seen self.old) (seen self.new) result };

    /// The first of the mails, which are in the order of their ids.
    fn oldest_mail(&mut self, alloc: Global) -> Result<Option<MailRow>, KeeperFault>
        requires { MayHold (seen self.old).report }
        ensures value { Answers (seen self.old) result (λ tables. first_mail tables.mails) }
        ensures sound { IfOk result (λ row. IfSome row IsSoundMail) }
        ensures reads { OnlyReads (seen self.old) (seen self.new) result };

    /// The ids that the next user and the next mail get.
    fn next_ids(&mut self) -> Result<NextIds, KeeperFault>
        requires { MayHold (seen self.old).report }
        ensures value { Answers (seen self.old) result next_ids_of }
        ensures ordered { IfOk result (λ _. IsOrdered (seen self.old).report) }
        ensures reads { OnlyReads (seen self.old) (seen self.new) result };

    /// The entry of the audit list at an index, counted from 0.
    fn entry_at(&mut self, alloc: Global, index: u64) -> Result<Option<Entry>, KeeperFault>
        requires { MayHold (seen self.old).report }
        ensures value { IfOk result (λ entry. OnHolding (seen self.old).report (λ contents. entry ≡ entry_at contents.entries index)) }
        ensures none { IfOk result (λ entry. IsNone entry ↔ ((seen self.old).entry_count ≤ index)) }
        ensures reads { OnlyReads (seen self.old) (seen self.new) result };

    /// Makes the changes in order and appends the entry to the audit list, all or nothing.
    fn commit(
        &mut self,
        alloc: Global,
        entry: &Entry,
        changes: &[Change],
    ) -> Result<(), KeeperFault>
        requires holds { MayHold (seen self.old).report }
        requires room { (seen self.old).entry_count < 2 ^ 62 }
        requires sound { All IsSoundChange changes.now }
        requires names { KeepsNames changes.now (seen self.old).report }
        ensures { Commits entry.now changes.now (seen self.old) (seen self.new) result };

    /// How many entries the audit list has.
    fn history_len(&self) -> u64
        ensures { result ≡ (seen self.now).entry_count };

    /// How many calls have failed; the count stays at 2^64 - 1 once it is there.
    fn faults(&self) -> u64
        ensures { result ≡ (seen self.now).faults };

    /// A new store has no entry, and one that is reported as many as its audit list.
    ghost counted: { (keeper : Self) → IsCounted (seen keeper).report (seen keeper).entry_count };
}
