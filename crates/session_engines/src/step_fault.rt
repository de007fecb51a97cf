//! Why a step was refused.

use thiserror::Error;

/// Why a step was refused; nothing has changed then but the keeper's count of faults.
#[derive(Clone, Copy, Debug, Drop, Error, PartialEq, Eq)]
pub enum StepFault {
    /// The keeper's counts of faults before the step and after it.
    #[error("the store failed")]
    Keeper { before: u64, after: u64 },
    /// There are 2^62 entries, or the operation would give an id of 2^62 or above.
    #[error("the audit list is full, or the ids have run out")]
    Full,
    #[error("out of memory")]
    Memory,
}
