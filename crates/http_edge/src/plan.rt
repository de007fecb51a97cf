//! What is known of a request once its head is read.

ghost use Rattle.std.specs.Prelude.{◌≡◌, ◌≤◌, [], length, map, drop, take, IfOk, MatchResult, All, IsUtf8, is_some, position};
ghost use Rattle.std.specs.List.{before_first, after_first};
ghost use Rattle.httparse.specs.Spans.{IsRequestWithin, IsRequestOf, IsHeaderWithin, header_bytes};
ghost use Rattle.http_edge.specs.HeaderFields.{method_of, is_question_mark, request_by};
ghost use Rattle.http_edge.specs.Plan.{IsPlan, RefusesHead};

use crate::body_length::length_behind;
use crate::header_fields::{cookies_of, has_close, has_form, text_named};
use crate::{EdgeFault, Method, Request};
use crypto_text::{Bytes, Text};
use httparse::spans::{HeaderSpan, RequestSpans};
use std::alloc::{AllocError, Global};
use std::str::from_utf8;

/// A request without its body.
#[derive(Drop)]
pub(crate) struct Plan {
    pub request: Request,
    /// Where the body begins.
    pub len: usize,
    /// Where it ends.
    pub total: usize,
}

fn method_of(name: &[u8]) -> Method
    ensures { result ≡ method_of name.now }
{
    if name == b"GET".as_slice() {
        Method::Get
    } else if name == b"HEAD".as_slice() {
        Method::Head
    } else if name == b"POST".as_slice() {
        Method::Post
    } else {
        Method::Other
    }
}

// The target up to its first question mark, what follows it, and whether there is one.
fn cut_target(target: &[u8]) -> (&str, &str, bool)
    requires { IsUtf8 target.now }
    ensures path { result.0.now ≡ before_first is_question_mark target.now }
    ensures query { result.1.now ≡ after_first is_question_mark target.now }
    ensures has_query { result.2 ≡ is_some (position is_question_mark target.now) }
{
    let Ok(text) = from_utf8(target) else {
        unreachable!()
    };
    match text.split_once('?') {
        Some((path, query)) => (path, query, true),
        None => (text, "", false),
    }
}

// The request of a head, without its body.
#[tactic(auto, unfolding(crate::specs::HeaderFields::request_by))]
fn request_without_body(
    alloc: Global,
    head: &[u8],
    method: &[u8],
    target: &[u8],
    minor: u8,
    fields: &[HeaderSpan],
) -> Result<Request, AllocError>
    requires text { IsUtf8 target.now }
    requires within { All (IsHeaderWithin (length head.now)) fields.now }
    ensures { IfOk result (λ r. r ≡ request_by method.now target.now minor (map (header_bytes head.now) fields.now) []) }
{
    let (path, query, has_query) = cut_target(target);
    Ok(Request {
        method: method_of(method),
        path: Text::of(alloc, path)?,
        query: Text::of(alloc, query)?,
        has_query,
        host: text_named(alloc, head, fields, b"host")?,
        cookie: cookies_of(alloc, head, fields)?,
        origin: text_named(alloc, head, fields, b"origin")?,
        referer: text_named(alloc, head, fields, b"referer")?,
        csrf: text_named(alloc, head, fields, b"x-csrftoken")?,
        proto: text_named(alloc, head, fields, b"x-forwarded-proto")?,
        form: has_form(head, fields),
        body: Bytes::from_vec(Vec::new(alloc)),
        keep: minor == 1 && !has_close(head, fields),
    })
}

/// What the head says, or its fault.
pub(crate) fn make_plan(
    alloc: Global,
    first: &[u8],
    spans: &[HeaderSpan],
    found: RequestSpans,
) -> Result<Plan, EdgeFault>
    requires short { length first.now ≤ 16384 }
    requires within { IsRequestWithin first.now spans.now found }
    requires found { IsRequestOf first.now spans.now found }
    ensures { MatchResult result (IsPlan first.now) (RefusesHead first.now) }
{
    let length = length_behind(first, spans, found)?;
    let request = request_without_body(
        alloc,
        first,
        found.method.of(first),
        found.path.of(first),
        found.version,
        &spans[..found.headers],
    )?;
    Ok(Plan {
        request,
        len: found.len,
        total: found.len + length,
    })
}

// Takes the first bytes away.
fn cut_front(bytes: &mut Vec<u8>, n: usize)
    requires { n ≤ length bytes.old.items }
    ensures { bytes.new.items ≡ drop n bytes.old.items }
{
    let len = bytes.len();
    bytes.copy_within(n.., 0);
    bytes.truncate(len - n);
}

/// Takes the request's bytes away and makes it, once its body is there.
pub(crate) fn finish(alloc: Global, bytes: &mut Vec<u8>, plan: Plan) -> Result<Request, AllocError>
    requires ordered { plan.len ≤ plan.total }
    requires whole { plan.total ≤ length bytes.old.items }
    ensures rest { IfOk result (λ r. bytes.new.items ≡ drop plan.total bytes.old.items) }
    ensures request { IfOk result (λ r. r ≡ record plan.request { body = drop plan.len (take plan.total bytes.old.items) }) }
{
    let body = bytes[plan.len..plan.total].to_vec(alloc)?;
    cut_front(bytes, plan.total);
    let mut request = plan.request;
    request.body = Bytes::from_vec(body);
    Ok(request)
}
