//! The audit list: each step that was done, in order.

ghost use Rattle.std.specs.Prelude.{◌≡◌, IfOk};

use crate::operation::Op;
use std::alloc::{AllocError, Global};

/// Who did a step: the start of the program, the worker, its request and the step within it. Starts,
/// workers and requests are counted from 1, steps from 0; a start itself has zeros after its number.
#[derive(Clone, Copy, Debug, PartialEq, Eq)]
pub struct Tag {
    pub boot: u64,
    pub worker: u64,
    pub request: u64,
    pub step: u64,
}

/// A step that was done.
#[derive(Drop, PartialEq, Eq)]
pub struct Entry {
    pub tag: Tag,
    pub op: Op,
}

impl Entry {
    /// The same entry once more.
    pub fn copy(&self, alloc: Global) -> Result<Entry, AllocError>
        ensures { IfOk result (λ entry. entry ≡ self.now) }
    {
        Ok(Entry {
            tag: self.tag,
            op: self.op.copy(alloc)?,
        })
    }
}
