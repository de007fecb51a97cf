//! The ledger: each step is one operation, done and entered in the audit list at once.

ghost use Rattle.std.specs.Prelude.{◌≡◌, ◌≢◌, ◌≤◌, ◌↔◌, IfErr, IfOk, IsNone};
ghost use Rattle.ledger_rows.specs.History.{entry_at};
ghost use Rattle.ledger_rows.specs.Opening.{IsOpening};
ghost use Rattle.ledger_rows.specs.Rows.{IsNumber};
ghost use Rattle.ledger_rows.specs.Step.{IsOperation};
ghost use Rattle.keepers.specs.Keeper.{OnHolding, OnlyReads};
ghost use Rattle.session_engines.specs.Ledger.{IsSoundLedger, Steps};
ghost use Rattle.session_engines.specs.OpenFault.{cause_of, keeper_of};
ghost use Rattle.session_engines.specs.Start.{HasOpened, IsRefusedStart, WasLegal};

use crate::open_fault::OpenFault;
use crate::start::start;
use crate::step::take;
use crate::step_fault::StepFault;
use keepers::{Keeper, KeeperFault};
use ledger_rows::{AuthKeys, Cfg, Entry, Op, Opening, Reply, Tag};
use std::alloc::Global;
use std::marker::Model;

/// The most entries that an audit list has.
pub const MOST_ENTRIES: u64 = 1 << 62;

/// Ids, and the numbers of starts, are below this.
pub const NUMBERS_END: u64 = 1 << 62;

/// The store under a site's configuration, from one start on.
#[derive(Drop)]
pub struct Ledger<K: Keeper> {
    keeper: K,
    cfg: Cfg,
    boot: u64,
    /// The keys that the last load made ready.
    ready: Option<AuthKeys>,
}

impl<K: Keeper> Model for Ledger<K> {
    ghost use Rattle.std.specs.Prelude.{[]};
    ghost use Rattle.ledger_rows.specs.Rows.{IsNumber};
    ghost use Rattle.keepers.specs.Keeper.{MayHold};
    ghost use Rattle.session_engines.specs.Ledger.{LedgerView};

    ghost Value = { LedgerView };

    ghost view = { λ l. record { kept = K.seen l.keeper; cfg = l.cfg; boot = l.boot; cache = [] } };

    ghost invariant = { λ l. MayHold (K.seen l.keeper).report × IsNumber l.boot };
}

impl<K: Keeper> Ledger<K> {
    /// Opens a store: puts in the opening rows where it is new, and enters this start.
    pub fn open_with(
        alloc: Global,
        keeper: K,
        cfg: Cfg,
        opening: &Opening,
    ) -> Result<Ledger<K>, OpenFault<K>>
        requires { IsOpening opening.now }
        ensures ok { IfOk result (HasOpened opening.now cfg (K.seen keeper)) }
        ensures err { IfErr result (λ fault. IsRefusedStart opening.now (K.seen keeper) (K.seen (keeper_of fault)) (cause_of fault)) }
        ensures sound { OnHolding (K.seen keeper).report (WasLegal cfg.engine) → IfOk result IsSoundLedger }
    {
        let mut keeper = keeper;
        match start(alloc, &mut keeper, cfg.engine, opening) {
            Ok(boot) => Ok(Ledger {
                keeper,
                cfg,
                boot,
                ready: None,
            }),
            Err(fault) => Err(fault.with_keeper(keeper)),
        }
    }

    /// The number of this start.
    pub fn boot(&self) -> u64
        ensures value { result ≡ self.now.boot }
        ensures number { IsNumber result }
    {
        self.boot
    }

    /// The configuration under which it was opened.
    pub fn cfg(&self) -> &Cfg
        ensures { result.now ≡ self.now.cfg }
    {
        &self.cfg
    }

    /// How many entries the audit list has.
    pub fn history_len(&self) -> u64
        ensures { result ≡ self.now.kept.entry_count }
    {
        self.keeper.history_len()
    }

    /// The entry of the audit list at an index, counted from 0.
    pub fn entry_at(&mut self, alloc: Global, index: u64) -> Result<Option<Entry>, KeeperFault>
        ensures value { IfOk result (λ entry. OnHolding self.old.kept.report (λ contents. entry ≡ entry_at contents.entries index)) }
        ensures none { IfOk result (λ entry. IsNone entry ↔ (self.old.kept.entry_count ≤ index)) }
        ensures reads { OnlyReads self.old.kept self.new.kept result }
        ensures same { self.new ≡ record self.old { kept = self.new.kept } }
    {
        self.keeper.entry_at(alloc, index)
    }

    /// Does one operation and enters it.
    pub fn step(&mut self, alloc: Global, tag: Tag, op: &Op) -> Result<Reply, StepFault>
        requires operation { IsOperation op.now }
        requires no_start { op.now ≢ Op.Boot }
        ensures steps { Steps self.old tag op.now result self.new }
        ensures sound { IsSoundLedger self.old → IsSoundLedger self.new }
    {
        if self.keeper.history_len() >= MOST_ENTRIES {
            return Err(StepFault::Full);
        }
        let before = self.keeper.faults();
        match take(alloc, &mut self.keeper, &mut self.ready, &self.cfg, tag, op) {
            Ok(Some(reply)) => Ok(reply),
            Ok(None) => Err(StepFault::Full),
            Err(KeeperFault::Memory) => Err(StepFault::Memory),
            Err(KeeperFault::Failed) => Err(StepFault::Keeper {
                before,
                after: self.keeper.faults(),
            }),
        }
    }

    /// Gives the keeper back.
    pub fn close(self) -> K
        ensures { K.seen result ≡ self.kept }
    {
        self.keeper
    }
}
