//! What is written, and how a run or a connection ends with it.

ghost use Rattle.std.specs.Prelude.{◌≡◌, ◌≤◌, length, take, IfSome, Some, None, option_copied};
ghost use Rattle.http_edge.specs.ResponseText.{IsStatus};
ghost use Rattle.site_server.specs.Saying.{IsPut, IsSaidOf};
ghost use Rattle.site_server.specs.Sending.{IsSent};
ghost use Rattle.site_server.specs.Transcript.{end_after};

use crate::connection::End;
use crate::status::Status;
use http_edge::{Response, response_text};
use middleware_chain::memory_response;
use outside::{Sink, write_whole};
use std::alloc::{AllocError, Global};

/// Writes what is due, whole, and ends so; where the output fails, a proper part was written.
pub(crate) fn send<O: Sink>(output: &mut O, due: &[u8], end: Status) -> Status
    ensures { IsSent due.now end (O.seen output.old) (O.seen output.new) result }
{
    match write_whole(output, due) {
        Ok(()) => end,
        Err(_) => Status::WriteFault,
    }
}

/// Writes an answer, or without one the response for being out of memory, and says how the connection ends with it,
/// where it does.
pub(crate) fn say<O: Sink>(alloc: Global, output: &mut O, answer: Option<&Response>) -> Option<End>
    requires { IfSome (option_copied answer) (λ page. IsStatus page.status) }
    ensures { IsSaidOf (option_copied answer.entry) (O.seen output.old) (O.seen output.new) result }
{
    let Some(response) = answer else {
        return put(output, memory_response(), Some(End::Memory));
    };
    match response_text(alloc, response) {
        Ok(text) => put(output, text.items(), end_after(response)),
        Err(AllocError) => put(output, memory_response(), Some(End::Memory)),
    }
}

fn end_after(response: &Response) -> Option<End>
    ensures { result ≡ end_after (Some response.now) }
{
    if response.keep {
        None
    } else {
        Some(End::Closed)
    }
}

fn put<O: Sink>(output: &mut O, text: &[u8], then: Option<End>) -> Option<End>
    ensures { IsPut text.now then (O.seen output.old) (O.seen output.new) result }
{
    match write_whole(output, text) {
        Ok(()) => then,
        Err(_) => Some(End::WriteFault),
    }
}
