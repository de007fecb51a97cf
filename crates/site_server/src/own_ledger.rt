//! A ledger that one worker has for itself.

ghost use Rattle.std.specs.Prelude.{◌≡◌};

use crate::step_taker::StepTaker;
use keepers::Keeper;
use ledger_rows::{Op, Reply, Tag};
use session_engines::{Ledger, StepFault};
use std::alloc::Global;

impl<K: Keeper> StepTaker for Ledger<K> {
    ghost use Rattle.std.specs.Prelude.{◌≡◌};
    ghost use Rattle.site_server.specs.OwnLedger.{HaveTurned};
    ghost use Rattle.site_server.specs.OwnLedgerLaws.{turned-nothing, turned-adds, turned-keeps};

    ghost passed = { λ turns found left. HaveTurned turns found left };

    ghost may_enter = { λ ledger tag. tag.boot ≡ ledger.boot };

    fn step(&mut self, alloc: Global, tag: Tag, op: &Op) -> Result<Reply, StepFault> {
        Ledger::step(self, alloc, tag, op)
    }

    ghost stays = { λ ledger. turned-nothing ledger };

    ghost adds = { λ one other first next last. turned-adds one other first next last };

    ghost keeps = { λ turns first last tag. turned-keeps turns first last tag };
}
