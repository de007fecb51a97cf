//! Where bytes come from: a file, a stream, a connection, or memory.

ghost use Rattle.std.specs.Prelude.{◌≡◌, ◌≤◌, ◌<◌, ℕ, List, Some, true, length, take, drop, IfOk, OnOk, OnErr, IfSome, IsErrOf};
ghost use Rattle.outside.specs.Devices.{Input, HasRead, IsFailedRead, HasEnded};
ghost use Rattle.outside.specs.Faults.{Rose};
ghost use Rattle.outside.specs.declared.source.InputFault.TheVariants.{Memory};
ghost use Rattle.outside.specs.declared.source.InputFault.TheVariants.{Failed as SourceFailed};

use std::alloc::{AllocError, Global};
use thiserror::Error;

const PIECE: usize = 4096;

/// A device failed, and its count of faults rose.
#[derive(Clone, Copy, Debug, Error, PartialEq, Eq)]
#[error("a device failed")]
pub struct Failed;

/// Bytes that are read from front to back.
pub trait Source: Drop {
    /// What it reports: the bytes that are still to be read, how many reads have failed, whether none ever fails.
    ghost seen: { Self → Input };

    /// Reads the next bytes to the front of `buf`, and says how many: 0 for a `buf` that has room is the end.
    fn read(&mut self, buf: &mut [u8]) -> Result<usize, Failed>
        ensures bound { IfOk result (λ n. n ≤ length buf.new) }
        ensures ok { IfOk result (λ n. HasRead (seen self.old) (seen self.new) (take n buf.new)) }
        ensures end { IfOk result (λ n. n ≡ 0 → 0 < length buf.new → HasEnded (seen self.new)) }
        ensures err { OnErr result (IsFailedRead (seen self.old) (seen self.new)) };

    /// How many reads have failed; the count stays at 2^64 - 1 once it is there.
    fn read_faults(&self) -> u64
        ensures { result ≡ (seen self.now).faults };

    /// A source that never fails hasn't failed, so no read of it fails.
    ghost never_failed: { (source : Self) → (seen source).never_fails ≡ true → (seen source).faults ≡ 0 };
}

/// Why a whole input couldn't be read.
#[derive(Clone, Copy, Debug, Drop, Error, PartialEq, Eq)]
pub enum InputFault {
    #[error("the input failed")]
    Failed,
    #[error("out of memory")]
    Memory,
}

impl From<Failed> for InputFault {
    ghost from_gives = { λ _ fault. fault ≡ SourceFailed };

    fn from(_: Failed) -> InputFault {
        InputFault::Failed
    }
}

impl From<AllocError> for InputFault {
    ghost from_gives = { λ _ fault. fault ≡ Memory };

    fn from(_: AllocError) -> InputFault {
        InputFault::Memory
    }
}

/// Reads a source to its end, at most so many bytes: give a limit of one more than is allowed to see that an
/// input is too long. After a refusal the source may have been read.
pub fn read_up_to<S: Source>(
    alloc: Global,
    source: &mut S,
    most: usize,
) -> Result<Vec<u8>, InputFault>
    ensures bound { IfOk result (λ bytes. length bytes.items ≤ most) }
    ensures value { IfOk result (λ bytes. IfSome (S.seen source.old).left (λ left. bytes.items ≡ take most left)) }
    ensures rest { OnOk result (IfSome (S.seen source.old).left (λ left. (S.seen source.new).left ≡ Some (drop most left))) }
    ensures ok { IfOk result (λ bytes. HasRead (S.seen source.old) (S.seen source.new) bytes.items) }
    ensures err { OnErr result ((taken : List ℕ) × HasRead (S.seen source.old) (S.seen source.new) taken) }
    ensures failed { IsErrOf result InputFault.Failed → Rose (S.seen source.old).faults (S.seen source.new).faults }
{
    let mut bytes = Vec::new(alloc);
    let mut piece = [0u8; PIECE];
    while bytes.len() < most {
        let room = PIECE.min(most - bytes.len());
        let count = source.read(&mut piece[..room])?;
        if count == 0 {
            break;
        }
        bytes.extend_from_slice(&piece[..count])?;
    }
    Ok(bytes)
}
