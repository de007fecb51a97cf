//! Who takes the steps of a worker's requests.

ghost use Rattle.std.specs.Prelude.{◌≡◌, ◌≢◌, ◌++◌, [], List, IfOk};
ghost use Rattle.ledger_rows.specs.Replies.{IsReplyOf};
ghost use Rattle.ledger_rows.specs.Step.{IsOperation};
ghost use Rattle.ledger_rows.specs.declared.entry.Tag.{Tag};
ghost use Rattle.site_server.specs.Turns.{Turn, turns_of_step};

use ledger_rows::{Op, Reply, Tag};
use session_engines::StepFault;
use std::alloc::Global;

/// Takes the steps of one worker, one after another. `passed` says whether other workers take steps of the same
/// store in between, so the same loop serves one worker over a ledger and many over a shared one.
pub trait StepTaker: Drop {
    /// What these turns of the worker did to the store, whatever others did in between.
    ghost passed: { List Turn → Self → Self → Type 0 };

    /// The worker may enter steps with this tag.
    ghost may_enter: { Self → Tag → Type 0 };

    /// Takes one step. A refused one isn't entered.
    fn step(&mut self, alloc: Global, tag: Tag, op: &Op) -> Result<Reply, StepFault>
        requires operation { IsOperation op.now }
        requires no_start { op.now ≢ Op.Boot }
        requires own { may_enter self.old tag }
        ensures passed { passed (turns_of_step tag op.now result) self.old self.new }
        ensures kind { IfOk result (IsReplyOf op.now) };

    /// Without a turn nothing passed.
    ghost stays: { (taker : Self) → passed [] taker taker };

    /// Turns add up.
    ghost adds: { (one other : List Turn) (first next last : Self) → passed one first next → passed other next last → passed (one ++ other) first last };

    /// Who may enter steps with a tag may still do so after any turns.
    ghost keeps: { (turns : List Turn) (first last : Self) (tag : Tag) → passed turns first last → may_enter first tag → may_enter last tag };
}
