//! Where bytes go to: a stream, a connection, or memory.

ghost use Rattle.std.specs.Prelude.{◌≡◌, ◌≤◌, ◌<◌, length, take, IfOk, OnOk, OnErr};
ghost use Rattle.outside.specs.Devices.{Output, HasWritten, IsFailedWrite, IsCut};

use crate::source::Failed;

/// Bytes that are written one after another.
pub trait Sink: Drop {
    /// What it reports: the bytes that were written, and how many writes have failed.
    ghost seen: { Self → Output };

    /// Writes the first bytes of a piece, and says how many. Taking nothing of a nonempty piece is a fault.
    fn write(&mut self, piece: &[u8]) -> Result<usize, Failed>
        ensures bound { IfOk result (λ n. n ≤ length piece.now) }
        ensures some { IfOk result (λ n. 0 < length piece.now → 0 < n) }
        ensures ok { IfOk result (λ n. HasWritten (seen self.old) (seen self.new) (take n piece.now)) }
        ensures err { OnErr result (IsFailedWrite (seen self.old) (seen self.new)) };

    /// How many writes have failed; the count stays at 2^64 - 1 once it is there.
    fn write_faults(&self) -> u64
        ensures { result ≡ (seen self.now).faults };
}

/// Writes a whole piece, in as many calls as the sink needs.
pub fn write_whole<T: Sink>(sink: &mut T, piece: &[u8]) -> Result<(), Failed>
    ensures ok { OnOk result (HasWritten (T.seen sink.old) (T.seen sink.new) piece.now) }
    ensures err { OnErr result (IsCut (T.seen sink.old) (T.seen sink.new) piece.now) }
{
    let mut done = 0;
    while done < piece.len() {
        done += sink.write(&piece[done..])?;
    }
    Ok(())
}
