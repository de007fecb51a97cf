//! What a request takes of its header fields.

ghost use Rattle.std.specs.Prelude.{◌≡◌, ◌≤◌, ◌==◌, ◌++◌, IfOk, OnOk, All, length, map, drop, codes, option_copied};
ghost use Rattle.std.specs.List.{flat_map, before_first};
ghost use Rattle.httparse.specs.Spans.{IsHeaderWithin, header_bytes};
ghost use Rattle.http_edge.specs.HeaderFields.{values_of, same_but_case, first_value, as_text, first_text, behind_others, cookie_text, is_form, closes};

use crypto_text::Text;
use httparse::spans::HeaderSpan;
use std::alloc::{AllocError, Global};
use std::str::from_utf8;

/// Whether the texts are the same but for the case of ASCII letters.
pub(crate) fn same_text(a: &[u8], b: &[u8]) -> bool
    ensures { result ≡ same_but_case a.now b.now }
{
    let mut a = a;
    let mut b = b;
    'letters: while let [x, xs @ ..] = a {
        let [y, ys @ ..] = b else {
            return false;
        };
        if x.to_ascii_lowercase() != y.to_ascii_lowercase() {
            return false;
        }
        a = xs;
        b = ys;
    }
    b.is_empty()
}

/// How many fields have this name.
pub(crate) fn count_named(head: &[u8], fields: &[HeaderSpan], name: &[u8]) -> usize
    requires { All (IsHeaderWithin (length head.now)) fields.now }
    ensures count { result ≡ length (values_of name.now (map (header_bytes head.now) fields.now)) }
    ensures few { result ≤ length fields.now }
{
    let mut count = 0;
    let mut rest = fields;
    'fields: while let [field, after @ ..] = rest {
        if same_text(field.name.of(head), name) {
            count += 1;
        }
        rest = after;
    }
    count
}

/// The value of the first field with this name.
pub(crate) fn first_named<'a>(
    head: &'a [u8],
    fields: &[HeaderSpan],
    name: &[u8],
) -> Option<&'a [u8]>
    requires { All (IsHeaderWithin (length head.now)) fields.now }
    ensures { option_copied result ≡ first_value (values_of name.now (map (header_bytes head.now) fields.now)) }
{
    let mut rest = fields;
    'fields: while let [field, after @ ..] = rest {
        if same_text(field.name.of(head), name) {
            return Some(field.value.of(head));
        }
        rest = after;
    }
    None
}

// The fields after the first with this name.
fn behind_first<'a>(head: &[u8], fields: &'a [HeaderSpan], name: &[u8]) -> &'a [HeaderSpan]
    requires { All (IsHeaderWithin (length head.now)) fields.now }
    ensures values { values_of name.now (map (header_bytes head.now) result.now) ≡ drop 1 (values_of name.now (map (header_bytes head.now) fields.now)) }
    ensures within { All (IsHeaderWithin (length head.now)) result.now }
{
    let mut rest = fields;
    'fields: while let [field, after @ ..] = rest {
        if same_text(field.name.of(head), name) {
            return after;
        }
        rest = after;
    }
    rest
}

// Appends the values of the fields with this name, one after another.
fn push_others(
    values: &mut Vec<u8>,
    head: &[u8],
    fields: &[HeaderSpan],
    name: &[u8],
) -> Result<(), AllocError>
    requires { All (IsHeaderWithin (length head.now)) fields.now }
    ensures { OnOk result (values.new.items ≡ values.old.items ++ flat_map behind_others (values_of name.now (map (header_bytes head.now) fields.now))) }
{
    let mut rest = fields;
    'fields: while let [field, after @ ..] = rest {
        if same_text(field.name.of(head), name) {
            push_other(values, field.value.of(head))?;
        }
        rest = after;
    }
    Ok(())
}

fn push_other(values: &mut Vec<u8>, value: &[u8]) -> Result<(), AllocError>
    ensures { OnOk result (values.new.items ≡ values.old.items ++ behind_others value.now) }
{
    values.extend_from_slice(b"; ")?;
    values.extend_from_slice(value)
}

/// The cookies of all lines as one, where that is UTF-8.
pub(crate) fn cookies_of(
    alloc: Global,
    head: &[u8],
    fields: &[HeaderSpan],
) -> Result<Option<Text>, AllocError>
    requires { All (IsHeaderWithin (length head.now)) fields.now }
    ensures { IfOk result (λ text. text ≡ cookie_text (values_of (codes "cookie") (map (header_bytes head.now) fields.now))) }
{
    let Some(first) = first_named(head, fields, b"cookie") else {
        return Ok(None);
    };
    let mut cookies = first.to_vec(alloc)?;
    let others = behind_first(head, fields, b"cookie");
    push_others(&mut cookies, head, others, b"cookie")?;
    match String::from_utf8(cookies) {
        Ok(text) => Ok(Some(Text::from_string(text))),
        Err(_) => Ok(None),
    }
}

// A copy of the bytes, where they are UTF-8.
fn text_of(alloc: Global, bytes: &[u8]) -> Result<Option<Text>, AllocError>
    ensures { IfOk result (λ text. text ≡ as_text bytes.now) }
{
    match from_utf8(bytes) {
        Ok(text) => Ok(Some(Text::of(alloc, text)?)),
        Err(_) => Ok(None),
    }
}

/// The value of the first field with this name, where it is UTF-8.
pub(crate) fn text_named(
    alloc: Global,
    head: &[u8],
    fields: &[HeaderSpan],
    name: &[u8],
) -> Result<Option<Text>, AllocError>
    requires { All (IsHeaderWithin (length head.now)) fields.now }
    ensures { IfOk result (λ text. text ≡ first_text (values_of name.now (map (header_bytes head.now) fields.now))) }
{
    match first_named(head, fields, name) {
        Some(value) => text_of(alloc, value),
        None => Ok(None),
    }
}

fn up_to_semicolon(text: &str) -> &str
    ensures { result.now ≡ before_first (λ b. b == 59) text.now }
{
    match text.split_once(';') {
        Some((front, _)) => front,
        None => text,
    }
}

/// Whether the type of the body is that of a form.
pub(crate) fn has_form(head: &[u8], fields: &[HeaderSpan]) -> bool
    requires { All (IsHeaderWithin (length head.now)) fields.now }
    ensures { result ≡ is_form (first_text (values_of (codes "content-type") (map (header_bytes head.now) fields.now))) }
{
    match first_named(head, fields, b"content-type") {
        Some(value) => is_form_type(value),
        None => false,
    }
}

fn is_form_type(value: &[u8]) -> bool
    ensures { result ≡ is_form (as_text value.now) }
{
    match from_utf8(value) {
        Ok(text) => same_text(
            up_to_semicolon(text).as_bytes(),
            b"application/x-www-form-urlencoded",
        ),
        Err(_) => false,
    }
}

/// Whether the connection is to be closed.
pub(crate) fn has_close(head: &[u8], fields: &[HeaderSpan]) -> bool
    requires { All (IsHeaderWithin (length head.now)) fields.now }
    ensures { result ≡ closes (first_value (values_of (codes "connection") (map (header_bytes head.now) fields.now))) }
{
    match first_named(head, fields, b"connection") {
        Some(value) => same_text(value, b"close"),
        None => false,
    }
}
