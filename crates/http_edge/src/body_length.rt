//! The length that a head gives its body, or the head's fault.

ghost use Rattle.std.specs.Prelude.{◌≡◌, ◌≤◌, ◌<◌, true, false, None, Some, MatchResult, length, map, take, not, All};
ghost use Rattle.std.specs.List.{list_all};
ghost use Rattle.std.specs.Char.{is_ascii_digit};
ghost use Rattle.std.specs.Str.Parse.{digits_value};
ghost use Rattle.httparse.specs.Spans.{IsRequestWithin, IsHeaderWithin, span_bytes, header_bytes};
ghost use Rattle.http_edge.specs.HeadFault.{fault_of, body_length, stated_length, stated_coding, is_length, fits_length, is_uncoded};
ghost use Rattle.http_edge.specs.Stream.{IsHeadFault};

use crate::EdgeFault;
use crate::header_fields::{count_named, first_named};
use httparse::spans::{HeaderSpan, RequestSpans};

const MOST_HEADER_FIELDS: usize = 100;

const LONGEST_BODY: usize = 2_621_440;

fn are_digits(text: &[u8]) -> bool
    ensures { result ≡ list_all is_ascii_digit text.now }
{
    text.iter().all(|b| b.is_ascii_digit())
}

// Whether the text is one to fifteen digits.
fn is_length(text: &[u8]) -> bool
    ensures { result ≡ is_length text.now }
{
    !text.is_empty() && text.len() <= 15 && are_digits(text)
}

// The number that the digits give.
fn number(text: &[u8]) -> usize
    requires { is_length text.now ≡ true }
    ensures { result ≡ digits_value 10 text.now }
{
    let mut value = 0;
    let mut rest = text;
    'digits: while let [digit, after @ ..] = rest {
        value = value * 10 + (*digit - b'0') as usize;
        rest = after;
    }
    value
}

// The length that the fields state, where it is one.
fn length_stated(head: &[u8], fields: &[HeaderSpan]) -> Result<usize, EdgeFault>
    requires { All (IsHeaderWithin (length head.now)) fields.now }
    ensures { let stated = stated_length (map (header_bytes head.now) fields.now) in
        MatchResult result (λ n. (fits_length stated ≡ true) × (n ≡ body_length stated)) (λ fault. (fits_length stated ≡ false) × (fault ≡ EdgeFault.BadHead)) }
{
    match first_named(head, fields, b"content-length") {
        None => Ok(0),
        Some(text) if is_length(text) => Ok(number(text)),
        Some(_) => Err(EdgeFault::BadHead),
    }
}

fn has_coding(head: &[u8], fields: &[HeaderSpan]) -> bool
    requires { All (IsHeaderWithin (length head.now)) fields.now }
    ensures { result ≡ not (is_uncoded (stated_coding (map (header_bytes head.now) fields.now))) }
{
    match first_named(head, fields, b"content-encoding") {
        Some(coding) => coding != b"identity".as_slice(),
        None => false,
    }
}

// The length of the body, or the first fault of a head with this method and these fields.
#[tactic(auto, unfolding(crate::specs::HeadFault::fault_of))]
fn body_length_or_fault(
    method: &[u8],
    head: &[u8],
    fields: &[HeaderSpan],
) -> Result<usize, EdgeFault>
    requires { All (IsHeaderWithin (length head.now)) fields.now }
    ensures fault { let all = map (header_bytes head.now) fields.now in
        MatchResult result (λ n. fault_of method.now all ≡ None) (λ f. fault_of method.now all ≡ Some f) }
    ensures length { let all = map (header_bytes head.now) fields.now in
        MatchResult result (λ n. (n ≡ body_length (stated_length all)) × (n ≤ 2621440)) IsHeadFault }
{
    let lengths = count_named(head, fields, b"content-length");
    if count_named(head, fields, b"host") > 1 || lengths > 1 {
        return Err(EdgeFault::BadHead);
    }
    let length = length_stated(head, fields)?;
    if fields.len() > MOST_HEADER_FIELDS {
        return Err(EdgeFault::HeadTooLong);
    }
    if count_named(head, fields, b"transfer-encoding") > 0 {
        return Err(EdgeFault::TransferCoding);
    }
    if has_coding(head, fields) {
        return Err(EdgeFault::ContentCoding);
    }
    if method == b"POST".as_slice() && lengths == 0 {
        return Err(EdgeFault::NoLength);
    }
    if length > LONGEST_BODY {
        return Err(EdgeFault::BodyTooLong);
    }
    Ok(length)
}

/// The length of the body, or the first fault of the head.
pub(crate) fn length_behind(
    head: &[u8],
    spans: &[HeaderSpan],
    found: RequestSpans,
) -> Result<usize, EdgeFault>
    requires { IsRequestWithin head.now spans.now found }
    ensures fault { let fields = map (header_bytes head.now) (take found.headers spans.now) in
        MatchResult result (λ n. fault_of (span_bytes head.now found.method) fields ≡ None)
        (λ f. fault_of (span_bytes head.now found.method) fields ≡ Some f) }
    ensures length { let fields = map (header_bytes head.now) (take found.headers spans.now) in
        MatchResult result (λ n. (n ≡ body_length (stated_length fields)) × (n ≤ 2621440)) IsHeadFault }
{
    body_length_or_fault(found.method.of(head), head, &spans[..found.headers])
}
