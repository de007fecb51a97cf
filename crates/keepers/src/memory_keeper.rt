//! A keeper in memory, which reports all that it holds.

ghost use Rattle.std.specs.Prelude.{◌≡◌, ◌≤◌, ◌<◌, ◌^◌, ◌↔◌, All, ◌++◌, [], ◌∷◌, Contains, IfOk, IfSome, IsErr, IsErrOf, IsNone, IsTrue, MatchBool, None, OnErr, OnOk, length};
ghost use Rattle.std.specs.List.Sorted.{IsStrictlyIncreasing};
ghost use Rattle.outside.specs.Faults.{one_more};
ghost use Rattle.ledger_rows.specs.History.{entry_at};
ghost use Rattle.ledger_rows.specs.Opening.{IsOpening, ids_of_groups, ids_of_perms, ids_of_users};
ghost use Rattle.ledger_rows.specs.Rows.{IsNumber, IsSoundGroup, IsSoundMail, IsSoundPerm, IsSoundSession, IsSoundUser};
ghost use Rattle.ledger_rows.specs.SessionSteps.{count_expired};
ghost use Rattle.ledger_rows.specs.Tables.{first_mail, opening_tables, session_of, user_named, user_of, users_of_email};
ghost use Rattle.keepers.specs.Keeper.{Answers, Commits, Installs, IsOrdered, IsSoundChange, KeepsNames, KeepsNamesOf, MayBeFresh, MayHold, OnHolding, OnlyReads, changed_by, next_ids_of, unused};
ghost use Rattle.keepers.specs.MemoryKeeper.{HasCalled, entry_count_of, kept_of, report_of};

use crate::change::Change;
use crate::keeper::{Keeper, KeeperFault, NextIds};
use crate::memory_tables::MemTables;
use crypto_text::Ids;
use ledger_rows::{Entry, MailRow, Opening, RowList, SessionRow, UserRow};
use permissions::{GroupRow, PermRow};
use signing_core::Keys;
use std::alloc::{AllocError, Global};
use std::collections::VecDeque;
use std::marker::Model;

/// Tables and audit list in memory. The calls that can fail are numbered from 0, and chosen ones fail.
#[derive(Drop)]
pub struct MemKeeper {
    store: Option<Store>,
    calls: Calls,
}

/// What was installed, what has become of it, and the audit list.
#[derive(Drop)]
struct Store {
    opening: Opening,
    tables: MemTables,
    entries: Vec<Entry>,
}

/// The number of the next call, and which calls fail.
#[derive(Drop)]
struct Calls {
    fail_at: Ids,
    number: u64,
    faults: u64,
}

impl Model for MemKeeper {
    ghost use Rattle.std.specs.Prelude.{option_map};
    ghost use Rattle.keepers.specs.MemoryKeeper.{MemoryKeeper};

    ghost Value = { MemoryKeeper };

    ghost use Rattle.keepers.specs.MemoryStore.{contents_of};

    ghost view = { λ k. record {
      store = option_map contents_of k.store;
      fail_at = k.calls.fail_at;
      number = k.calls.number;
      faults = k.calls.faults;
    } };
}

impl MemKeeper {
    /// A new keeper. A call fails where its number is in `fail_at`.
    pub fn new(_alloc: Global, fail_at: Ids) -> MemKeeper
        ensures value { result ≡ record { store = None; fail_at = fail_at; number = 0; faults = 0 } }
        ensures seen { ⟦<MemKeeper as Keeper>⟧.seen result ≡ unused }
    {
        MemKeeper {
            store: None,
            calls: Calls {
                fail_at,
                number: 0,
                faults: 0,
            },
        }
    }

    /// The audit list; it is empty while the keeper is new.
    pub fn entries(&self) -> &[Entry]
        ensures value { OnHolding (kept_of self.now).report (λ contents. result.now ≡ contents.entries) }
        ensures len { length result.now ≡ entry_count_of self.now.store }
    {
        match &self.store {
            Some(store) => store.entries.as_slice(),
            None => &[],
        }
    }
}

impl Calls {
    // One more call, which may be one of those that fail.
    fn pass(&mut self) -> Result<(), KeeperFault>
        ensures failed { IsErrOf result KeeperFault.Failed ↔ Contains self.old.fail_at self.old.number }
        ensures no_memory { IsErrOf result KeeperFault.Memory → ⊥ }
        ensures ok { OnOk result (self.new.faults ≡ self.old.faults) }
        ensures err { OnErr result (self.new.faults ≡ one_more self.old.faults) }
        ensures number { self.new.number ≡ one_more self.old.number }
        ensures fail_at { self.new.fail_at ≡ self.old.fail_at }
    {
        let fails = self.fail_at.items().contains(&self.number);
        self.number = self.number.saturating_add(1);
        if fails {
            self.faults = self.faults.saturating_add(1);
            return Err(KeeperFault::Failed);
        }
        Ok(())
    }
}

impl Store {
    ghost use Rattle.keepers.specs.Keeper.{appended, opened};
    ghost use Rattle.keepers.specs.MemoryStore.{contents_of};

    fn of(alloc: Global, opening: &Opening) -> Result<Store, AllocError>
        requires { IsOpening opening.now }
        ensures { IfOk result (λ store. contents_of store ≡ opened opening.now) }
    {
        Ok(Store {
            opening: opening.copy(alloc)?,
            tables: MemTables::of(alloc, opening)?,
            entries: Vec::new(alloc),
        })
    }

    // The room for the entry comes first, so that a refusal changes nothing.
    fn commit(&mut self, entry: Entry, changes: VecDeque<Change>) -> Result<(), AllocError>
        requires sound { All IsSoundChange changes.items }
        requires names { KeepsNamesOf changes.items self.old.tables }
        ensures ok { OnOk result (contents_of self.new ≡ appended entry changes.items (contents_of self.old)) }
        ensures err { OnErr result (contents_of self.new ≡ contents_of self.old) }
    {
        self.entries.reserve(1)?;
        self.tables.change(changes)?;
        match self.entries.push(entry) {
            Ok(()) => Ok(()),
            Err(_) => unreachable!(),
        }
    }
}

impl Keeper for MemKeeper {
    ghost use Rattle.keepers.specs.MemoryKeeper.{kept_of, report_of-counted};

    ghost seen = { kept_of };

    ghost counted = { λ k. report_of-counted k.store };

    fn is_new(&mut self) -> Result<bool, KeeperFault>
        ensures value { IfOk result (λ is_new. MatchBool is_new (MayBeFresh (kept_of self.old).report) (MayHold (kept_of self.old).report)) }
        ensures reads { OnlyReads (kept_of self.old) (kept_of self.new) result }
        ensures call { HasCalled self.old self.new result }
    {
        self.calls.pass()?;
        Ok(self.store.is_none())
    }

    fn install(&mut self, alloc: Global, opening: &Opening) -> Result<(), KeeperFault>
        requires opening { IsOpening opening.now }
        requires new { MayBeFresh (kept_of self.old).report }
        ensures installs { Installs opening.now (kept_of self.old) (kept_of self.new) result }
        ensures call { HasCalled self.old self.new result }
    {
        self.calls.pass()?;
        let store = Store::of(alloc, opening)?;
        self.store = Some(store);
        Ok(())
    }

    fn boots(&mut self) -> Result<u64, KeeperFault>
        requires { MayHold (kept_of self.old).report }
        ensures value { Answers (kept_of self.old) result (λ tables. tables.boot) }
        ensures sound { IfOk result IsNumber }
        ensures reads { OnlyReads (kept_of self.old) (kept_of self.new) result }
        ensures call { HasCalled self.old self.new result }
    {
        self.calls.pass()?;
        match &self.store {
            Some(store) => Ok(store.tables.boots()),
            None => unreachable!(),
        }
    }

    fn keys(&mut self, alloc: Global) -> Result<Keys, KeeperFault>
        requires { MayHold (kept_of self.old).report }
        ensures value { Answers (kept_of self.old) result (λ tables. tables.keys) }
        ensures reads { OnlyReads (kept_of self.old) (kept_of self.new) result }
        ensures call { HasCalled self.old self.new result }
    {
        self.calls.pass()?;
        match &self.store {
            Some(store) => Ok(store.tables.keys().copy(alloc)?),
            None => unreachable!(),
        }
    }

    fn user_by_id(&mut self, alloc: Global, id: u64) -> Result<Option<UserRow>, KeeperFault>
        requires { MayHold (kept_of self.old).report }
        ensures value { Answers (kept_of self.old) result (λ tables. user_of tables.users id) }
        ensures asked { IfOk result (λ row. IfSome row (λ user. user.id ≡ id)) }
        ensures sound { IfOk result (λ row. IfSome row IsSoundUser) }
        ensures ordered { IfOk result (λ _. IsOrdered (kept_of self.old).report) }
        ensures reads { OnlyReads (kept_of self.old) (kept_of self.new) result }
        ensures call { HasCalled self.old self.new result }
    {
        self.calls.pass()?;
        match &self.store {
            Some(store) => Ok(store.tables.user_by_id(alloc, id)?),
            None => unreachable!(),
        }
    }

    fn user_by_name(&mut self, alloc: Global, name: &str) -> Result<Option<UserRow>, KeeperFault>
        requires { MayHold (kept_of self.old).report }
        ensures value { Answers (kept_of self.old) result (λ tables. user_named tables.users name.now) }
        ensures asked { IfOk result (λ row. IfSome row (λ user. user.name ≡ name.now)) }
        ensures sound { IfOk result (λ row. IfSome row IsSoundUser) }
        ensures ordered { IfOk result (λ _. IsOrdered (kept_of self.old).report) }
        ensures reads { OnlyReads (kept_of self.old) (kept_of self.new) result }
        ensures call { HasCalled self.old self.new result }
    {
        self.calls.pass()?;
        match &self.store {
            Some(store) => Ok(store.tables.user_by_name(alloc, name)?),
            None => unreachable!(),
        }
    }

    fn users_by_email(
        &mut self,
        alloc: Global,
        email: &str,
    ) -> Result<RowList<UserRow>, KeeperFault>
        requires { MayHold (kept_of self.old).report }
        ensures value { Answers (kept_of self.old) result (λ tables. users_of_email tables.users email.now) }
        ensures sound { IfOk result (λ rows. All IsSoundUser rows) }
        ensures order { IfOk result (λ rows. IsStrictlyIncreasing (ids_of_users rows)) }
        ensures reads { OnlyReads (kept_of self.old) (kept_of self.new) result }
        ensures call { HasCalled self.old self.new result }
    {
        self.calls.pass()?;
        match &self.store {
            Some(store) => Ok(store.tables.users_by_email(alloc, email)?),
            None => unreachable!(),
        }
    }

    fn groups(&mut self, alloc: Global) -> Result<RowList<GroupRow>, KeeperFault>
        requires { MayHold (kept_of self.old).report }
        ensures value { Answers (kept_of self.old) result (λ tables. tables.groups) }
        ensures sound { IfOk result (λ rows. All IsSoundGroup rows) }
        ensures order { IfOk result (λ rows. IsStrictlyIncreasing (ids_of_groups rows)) }
        ensures reads { OnlyReads (kept_of self.old) (kept_of self.new) result }
        ensures call { HasCalled self.old self.new result }
    {
        self.calls.pass()?;
        match &self.store {
            Some(store) => Ok(store.tables.groups(alloc)?),
            None => unreachable!(),
        }
    }

    fn perms(&mut self, alloc: Global) -> Result<RowList<PermRow>, KeeperFault>
        requires { MayHold (kept_of self.old).report }
        ensures value { Answers (kept_of self.old) result (λ tables. tables.perms) }
        ensures sound { IfOk result (λ rows. All IsSoundPerm rows) }
        ensures order { IfOk result (λ rows. IsStrictlyIncreasing (ids_of_perms rows)) }
        ensures reads { OnlyReads (kept_of self.old) (kept_of self.new) result }
        ensures call { HasCalled self.old self.new result }
    {
        self.calls.pass()?;
        match &self.store {
            Some(store) => Ok(store.tables.perms(alloc)?),
            None => unreachable!(),
        }
    }

    fn session(&mut self, alloc: Global, key: &str) -> Result<Option<SessionRow>, KeeperFault>
        requires { MayHold (kept_of self.old).report }
        ensures value { Answers (kept_of self.old) result (λ tables. session_of tables.sessions key.now) }
        ensures asked { IfOk result (λ row. IfSome row (λ session. session.key ≡ key.now)) }
        ensures sound { IfOk result (λ row. IfSome row IsSoundSession) }
        ensures reads { OnlyReads (kept_of self.old) (kept_of self.new) result }
        ensures call { HasCalled self.old self.new result }
    {
        self.calls.pass()?;
        match &self.store {
            Some(store) => Ok(store.tables.session(alloc, key)?),
            None => unreachable!(),
        }
    }

    fn count_expired(&mut self, now: u64) -> Result<u64, KeeperFault>
        requires { MayHold (kept_of self.old).report }
        ensures value { Answers (kept_of self.old) result (λ tables. count_expired tables.sessions now) }
        ensures reads { OnlyReads (kept_of self.old) (kept_of self.new) result }
        ensures call { HasCalled self.old self.new result }
    {
        self.calls.pass()?;
        match &self.store {
            Some(store) => Ok(store.tables.count_expired(now)),
            None => unreachable!(),
        }
    }

    fn oldest_mail(&mut self, alloc: Global) -> Result<Option<MailRow>, KeeperFault>
        requires { MayHold (kept_of self.old).report }
        ensures value { Answers (kept_of self.old) result (λ tables. first_mail tables.mails) }
        ensures sound { IfOk result (λ row. IfSome row IsSoundMail) }
        ensures reads { OnlyReads (kept_of self.old) (kept_of self.new) result }
        ensures call { HasCalled self.old self.new result }
    {
        self.calls.pass()?;
        match &self.store {
            Some(store) => Ok(store.tables.oldest_mail(alloc)?),
            None => unreachable!(),
        }
    }

    fn next_ids(&mut self) -> Result<NextIds, KeeperFault>
        requires { MayHold (kept_of self.old).report }
        ensures value { Answers (kept_of self.old) result next_ids_of }
        ensures ordered { IfOk result (λ _. IsOrdered (kept_of self.old).report) }
        ensures reads { OnlyReads (kept_of self.old) (kept_of self.new) result }
        ensures call { HasCalled self.old self.new result }
    {
        self.calls.pass()?;
        match &self.store {
            Some(store) => Ok(store.tables.next_ids()),
            None => unreachable!(),
        }
    }

    fn entry_at(&mut self, alloc: Global, index: u64) -> Result<Option<Entry>, KeeperFault>
        requires { MayHold (kept_of self.old).report }
        ensures value { IfOk result (λ entry. OnHolding (kept_of self.old).report (λ contents. entry ≡ entry_at contents.entries index)) }
        ensures none { IfOk result (λ entry. IsNone entry ↔ ((kept_of self.old).entry_count ≤ index)) }
        ensures reads { OnlyReads (kept_of self.old) (kept_of self.new) result }
        ensures call { HasCalled self.old self.new result }
    {
        self.calls.pass()?;
        match &self.store {
            Some(store) => Ok(copy_at(alloc, store.entries.as_slice(), index)?),
            None => unreachable!(),
        }
    }

    fn commit(
        &mut self,
        alloc: Global,
        entry: &Entry,
        changes: &[Change],
    ) -> Result<(), KeeperFault>
        requires holds { MayHold (kept_of self.old).report }
        requires room { (kept_of self.old).entry_count < 2 ^ 62 }
        requires sound { All IsSoundChange changes.now }
        requires names { KeepsNames changes.now (kept_of self.old).report }
        ensures commits { Commits entry.now changes.now (kept_of self.old) (kept_of self.new) result }
        ensures call { HasCalled self.old self.new result }
    {
        self.calls.pass()?;
        let entry = entry.copy(alloc)?;
        let changes = copies_of(alloc, changes)?;
        match &mut self.store {
            Some(store) => Ok(store.commit(entry, changes)?),
            None => unreachable!(),
        }
    }

    fn history_len(&self) -> u64 {
        match &self.store {
            Some(store) => store.entries.len() as u64,
            None => 0,
        }
    }

    fn faults(&self) -> u64 {
        self.calls.faults
    }
}

fn copy_at(alloc: Global, entries: &[Entry], index: u64) -> Result<Option<Entry>, AllocError>
    ensures value { IfOk result (λ entry. entry ≡ entry_at entries.now index) }
    ensures none { IfOk result (λ entry. IsNone entry ↔ (length entries.now ≤ index)) }
{
    if index >= entries.len() as u64 {
        return Ok(None);
    }
    let entry = entries[index as usize].copy(alloc)?;
    Ok(Some(entry))
}

fn copies_of(alloc: Global, changes: &[Change]) -> Result<VecDeque<Change>, AllocError>
    ensures { IfOk result (λ copies. copies.items ≡ changes.now) }
{
    let mut copies = VecDeque::new(alloc);
    for change in changes {
        copies.push_back(change.copy(alloc)?)?;
    }
    Ok(copies)
}
