//! What an operation gives.

ghost use Rattle.std.specs.Prelude.{◌≡◌, [], ◌∷◌, IfOk};

use keepers::Change;
use ledger_rows::Reply;
use std::alloc::{AllocError, Global};

/// The reply to an operation, and the changes that it makes.
#[derive(Drop)]
pub struct Answer {
    pub reply: Reply,
    pub changes: Vec<Change>,
}

impl Answer {
    /// A reply that changes nothing.
    pub fn unchanged(alloc: Global, reply: Reply) -> Answer
        ensures reply { result.reply ≡ reply }
        ensures changes { result.changes.items ≡ [] }
    {
        Answer {
            reply,
            changes: Vec::new(alloc),
        }
    }

    /// A reply with one change.
    pub fn changed(alloc: Global, reply: Reply, change: Change) -> Result<Answer, AllocError>
        ensures reply { IfOk result (λ answer. answer.reply ≡ reply) }
        ensures changes { IfOk result (λ answer. answer.changes.items ≡ change ∷ []) }
    {
        let mut changes = Vec::new(alloc);
        changes.push(change)?;
        Ok(Answer { reply, changes })
    }

    /// A reply with two changes, made in this order.
    pub fn changed_twice(
        alloc: Global,
        reply: Reply,
        first: Change,
        second: Change,
    ) -> Result<Answer, AllocError>
        ensures reply { IfOk result (λ answer. answer.reply ≡ reply) }
        ensures changes { IfOk result (λ answer. answer.changes.items ≡ first ∷ second ∷ []) }
    {
        let mut changes = Vec::new(alloc);
        changes.push(first)?;
        changes.push(second)?;
        Ok(Answer { reply, changes })
    }
}
