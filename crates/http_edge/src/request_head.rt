//! The next head among the first bytes of a stream.

ghost use Rattle.std.specs.Prelude.{◌≡◌, ◌⊎◌, ◌≤◌, ◌<◌, ◌^◌, ◌↔◌, ℕ, IsTrue, length, drop};
ghost use Rattle.httparse.specs.Grammar.{HasNoRequest, print_request, RequestHead};
ghost use Rattle.httparse.specs.Spans.{IsRequestAt, IsRequestWithin};
ghost use Rattle.http_edge.specs.Head.{front, MayBeginHead, StopsInTarget, stays_in_target};
ghost use Rattle.std.specs.List.{list_all};
ghost use Rattle.http_edge.specs.RequestLine.{after_line_ends, after_token, begins_token, is_space_and_target};
ghost use Rattle.http_edge.specs.Sight.{IsSight};
ghost use Rattle.http_edge.specs.Stream.{IsLook};

use crate::EdgeFault;
use httparse::spans::{HeaderSpan, RequestSpans, parse_request};
use httparse::{Status, is_method_token};

/// The bytes among which a head has to end.
pub(crate) const HEAD_LIMIT: usize = 16384;

/// What the first bytes of a stream say of its head.
#[derive(Clone, Copy)]
pub(crate) enum Sight {
    Head(RequestSpans),
    /// There is none, and there may be one with more bytes.
    Begun,
    /// There is none, and there will be none.
    Never,
}

// The bytes after the line ends at the front.
fn skip_line_ends(bytes: &[u8]) -> &[u8]
    ensures { result.now ≡ after_line_ends bytes.now }
{
    let mut rest = bytes;
    'ends: loop {
        rest = match rest {
            [b'\n', after @ ..] => after,
            [b'\r', b'\n', after @ ..] => after,
            _ => return rest,
        };
    }
}

// The bytes after those of a token at the front.
fn skip_token(bytes: &[u8]) -> &[u8]
    ensures { result.now ≡ after_token bytes.now }
{
    let mut rest = bytes;
    'token: while let [b, after @ ..] = rest {
        if !is_method_token(*b) {
            break;
        }
        rest = after;
    }
    rest
}

fn stay_in_target(bytes: &[u8]) -> bool
    ensures { result ≡ list_all stays_in_target bytes.now }
{
    bytes.iter().all(|b| !(*b == b' ' || *b == b'\n'))
}

// Whether these are a space, and then no space and no line feed.
fn is_space_and_target(bytes: &[u8]) -> bool
    ensures { result ≡ is_space_and_target bytes.now }
{
    match bytes {
        [b' ', target @ ..] => stay_in_target(target),
        _ => false,
    }
}

fn begins_token(bytes: &[u8]) -> bool
    ensures { result ≡ begins_token bytes.now }
{
    match bytes {
        [b, ..] => is_method_token(*b),
        [] => false,
    }
}

/// Whether the bytes end inside the target of a request line.
pub(crate) fn stops_in_target(bytes: &[u8]) -> bool
    ensures { IsTrue result ↔ StopsInTarget bytes.now }
{
    let line = skip_line_ends(bytes);
    begins_token(line) && is_space_and_target(skip_token(line))
}

/// Looks for a head at the front of at most 16,384 bytes.
fn look_for_head(first: &[u8], spans: &mut [HeaderSpan]) -> Sight
    requires short { length first.now ≤ 16384 }
    requires room { length spans.old ≡ 5461 }
    ensures { IsSight first.now spans.new result }
{
    match parse_request(first, spans) {
        Ok(Status::Complete(found)) => Sight::Head(found),
        Ok(Status::Partial) => Sight::Begun,
        Err(_) => {
            if stops_in_target(first) {
                Sight::Begun
            } else {
                Sight::Never
            }
        }
    }
}

/// The bytes among which a head has to end.
pub(crate) fn first_bytes(bytes: &[u8]) -> &[u8]
    ensures front { result.now ≡ front bytes.now }
    ensures short { length result.now ≤ 16384 }
{
    &bytes[..bytes.len().min(HEAD_LIMIT)]
}

/// The head at the front of the bytes, `None` where more bytes are wanted for one, or the bytes' fault.
pub(crate) fn head_among(
    bytes: &[u8],
    spans: &mut [HeaderSpan],
) -> Result<Option<RequestSpans>, EdgeFault>
    requires { length spans.old ≡ 5461 }
    ensures { IsLook bytes.now spans.new result }
{
    match look_for_head(first_bytes(bytes), spans) {
        Sight::Head(found) => Ok(Some(found)),
        Sight::Never => Err(EdgeFault::BadHead),
        Sight::Begun => {
            if bytes.len() >= HEAD_LIMIT {
                return Err(EdgeFault::HeadTooLong);
            }
            Ok(None)
        }
    }
}
