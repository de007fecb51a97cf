//! Requests, one after another from a stream.

ghost use Rattle.std.specs.Prelude.{◌≡◌, ◌<◌, [], IfOk, IfSome, IsErrOf, length, true};
ghost use Rattle.outside.specs.Devices.{with_front};
ghost use Rattle.outside.specs.Faults.{Rose};
ghost use Rattle.http_edge.specs.Reader.{IsFramingOf};
ghost use Rattle.http_edge.specs.Stream.{AnswersTaken};

use crate::pieces::{fill_to, find_head};
use crate::plan::{finish, make_plan};
use crate::request_head::first_bytes;
use crate::{EdgeFault, Request};
use httparse::spans::{EMPTY_HEADER_SPAN, HeaderSpan};
use outside::Source;
use std::alloc::{AllocError, Global};
use std::marker::Model;

/// Serves one connection. It is seen as the bytes that it keeps: those that it has read and not yet given.
#[derive(Drop)]
pub struct Reader {
    bytes: Vec<u8>,
    spans: Vec<HeaderSpan>,
    piece: Vec<u8>,
}

impl Model for Reader {
    ghost use Rattle.std.specs.Prelude.{◌≡◌, ◌<◌, ℕ, List, length};

    ghost Value = { List ℕ };

    ghost view = { λ r. r.bytes.items };

    ghost invariant = { λ r. (0 < length r.piece.items) × (length r.spans.items ≡ 5461) };
}

impl Reader {
    /// A reader that keeps nothing yet. Its buffers are made once for all requests, with room for more fields than
    /// a head within the limit has.
    pub fn new(alloc: Global) -> Result<Reader, AllocError>
        ensures { IfOk result (λ reader. reader ≡ []) }
    {
        Ok(Reader {
            bytes: Vec::with_capacity(alloc, 32768)?,
            spans: vec![in alloc; EMPTY_HEADER_SPAN; 5461]?,
            piece: vec![in alloc; 0u8; 4096]?,
        })
    }

    // Takes the next request off what is kept and what the source has left.
    fn take<S: Source>(
        &mut self,
        alloc: Global,
        source: &mut S,
    ) -> Result<Option<Request>, EdgeFault>
        ensures answer { AnswersTaken self.old (S.seen source.old) result self.new (S.seen source.new) }
        ensures cause { IsErrOf result EdgeFault.ReadFault → Rose (S.seen source.old).faults (S.seen source.new).faults }
    {
        take_request(
            alloc,
            &mut self.bytes,
            &mut self.spans,
            &mut self.piece,
            source,
        )
    }
}

/// Reads the next request of what is left: what the reader keeps, and then what its source has left. `None` is
/// the end. One reader serves one source, and neither is used again after a refusal.
pub fn read_request<S: Source>(
    alloc: Global,
    reader: &mut Reader,
    source: &mut S,
) -> Result<Option<Request>, EdgeFault>
    // It is what the bytes that were left begin with, in whatever pieces they come, and the bytes after it are left.
    ensures value { IfSome (with_front reader.old (S.seen source.old).left)
        (λ left. IsFramingOf left result (with_front reader.new (S.seen source.new).left)) }
    // The same of the bytes that were taken, where the source doesn't report. Before a failed read no request is there.
    ensures reads { AnswersTaken reader.old (S.seen source.old) result reader.new (S.seen source.new) }
    // A source that never fails gives no such fault.
    ensures never_fails { (S.seen source.old).never_fails ≡ true → IsErrOf result EdgeFault.ReadFault → ⊥ }
    ensures read_fault { IsErrOf result EdgeFault.ReadFault → Rose (S.seen source.old).faults (S.seen source.new).faults }
{
    reader.take(alloc, source)
}

// Takes the next request off the bytes, and reads on for it where they are too few.
fn take_request<S: Source>(
    alloc: Global,
    bytes: &mut Vec<u8>,
    spans: &mut [HeaderSpan],
    piece: &mut [u8],
    source: &mut S,
) -> Result<Option<Request>, EdgeFault>
    requires room { length spans.old ≡ 5461 }
    requires piece { 0 < length piece.old }
    ensures answer { AnswersTaken bytes.old.items (S.seen source.old) result bytes.new.items (S.seen source.new) }
    ensures cause { IsErrOf result EdgeFault.ReadFault → Rose (S.seen source.old).faults (S.seen source.new).faults }
{
    let Some(found) = find_head(bytes, spans, piece, source)? else {
        return Ok(None);
    };
    let plan = make_plan(alloc, first_bytes(bytes), spans, found)?;
    if !fill_to(bytes, plan.total, piece, source)? {
        return Err(EdgeFault::CutShort);
    }
    Ok(Some(finish(alloc, bytes, plan)?))
}

#[cfg(test)]
mod tests;
