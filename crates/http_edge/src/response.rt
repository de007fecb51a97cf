//! Responses, and their text.

ghost use Rattle.std.specs.Prelude.{◌≡◌, ◌++◌, ◌↔◌, IfOk, OnOk, IsTrue, string_bytes, decimal, codes, length};
ghost use Rattle.std.specs.Option.{option_copied};
ghost use Rattle.http_edge.specs.ResponseText.{IsStatus, reason_phrase, status_line, field_line, optional_line, cookie_lines, vary_line, security_lines, connection_line, content_lines, content_type_line, context_lines, control_lines, response_text};

use crypto_text::{Bytes, Text, TextList};
use std::alloc::{AllocError, Global};

/// What is answered to a request.
#[derive(Debug, Drop, PartialEq, Eq)]
pub struct Response {
    /// One of the statuses that `is_status` names.
    pub status: u16,
    /// The page, in UTF-8.
    pub body: Text,
    /// Where a redirect leads.
    pub location: Option<Text>,
    /// The methods that a route knows, where the request had another one.
    pub allow: Option<Text>,
    /// Whether the answer depends on the request's cookies.
    pub vary: bool,
    /// The texts of `Set-Cookie`, in order.
    pub cookies: TextList,
    /// Whether the connection stays open.
    pub keep: bool,
    /// Whether the body is left out, as in the answer to a HEAD request.
    pub head_only: bool,
}

/// Whether a response may have this status.
pub fn is_status(status: u16) -> bool
    ensures { IsTrue result ↔ IsStatus status }
{
    !reason_phrase(status).is_empty()
}

/// The bytes to write, by RFC 9112. The fields and their order are this project's own.
#[tactic(auto, unfolding(crate::specs::ResponseText::response_text))]
pub fn response_text(alloc: Global, response: &Response) -> Result<Bytes, AllocError>
    requires { IsStatus response.now.status }
    ensures { IfOk result (λ bytes. bytes ≡ response_text response.now) }
{
    let mut text = String::with_capacity(alloc, 512)?;
    push_content_lines(alloc, &mut text, response)?;
    push_context_lines(&mut text, response)?;
    push_control_lines(&mut text, response)?;
    text.push_str("\r\n")?;
    if !response.head_only {
        text.push_str(response.body.as_str())?;
    }
    Ok(Bytes::from_vec(text.into_bytes()))
}

#[tactic(auto, unfolding(crate::specs::ResponseText::content_lines))]
fn push_content_lines(
    alloc: Global,
    text: &mut String,
    response: &Response,
) -> Result<(), AllocError>
    ensures { OnOk result (string_bytes text.new ≡ string_bytes text.old ++ content_lines response.now) }
{
    push_status_line(alloc, text, response.status)?;
    push_content_type(text)?;
    push_length(alloc, text, &response.body)
}

#[tactic(auto, unfolding(crate::specs::ResponseText::context_lines))]
fn push_context_lines(text: &mut String, response: &Response) -> Result<(), AllocError>
    ensures { OnOk result (string_bytes text.new ≡ string_bytes text.old ++ context_lines response.now) }
{
    push_optional(text, "Location", response.location.as_ref())?;
    push_optional(text, "Allow", response.allow.as_ref())
}

#[tactic(auto, unfolding(crate::specs::ResponseText::control_lines))]
fn push_control_lines(text: &mut String, response: &Response) -> Result<(), AllocError>
    ensures { OnOk result (string_bytes text.new ≡ string_bytes text.old ++ control_lines response.now) }
{
    push_vary(text, response.vary)?;
    push_cookies(text, response.cookies.items())?;
    push_security(text)?;
    push_connection(text, response.keep)
}

#[tactic(auto, unfolding(crate::specs::ResponseText::reason_phrase))]
fn reason_phrase(status: u16) -> &'static str
    ensures { result.now ≡ reason_phrase status }
{
    match status {
        200 => "OK",
        301 => "Moved Permanently",
        302 => "Found",
        400 => "Bad Request",
        403 => "Forbidden",
        404 => "Not Found",
        405 => "Method Not Allowed",
        411 => "Length Required",
        415 => "Unsupported Media Type",
        431 => "Request Header Fields Too Large",
        500 => "Internal Server Error",
        501 => "Not Implemented",
        503 => "Service Unavailable",
        _ => "",
    }
}

#[tactic(auto, unfolding(crate::specs::ResponseText::status_line))]
fn push_status_line(alloc: Global, text: &mut String, status: u16) -> Result<(), AllocError>
    ensures { OnOk result (string_bytes text.new ≡ string_bytes text.old ++ status_line status) }
{
    let number = status.to_string(alloc)?;
    text.push_str("HTTP/1.1 ")?;
    text.push_str(number.as_str())?;
    text.push_str(" ")?;
    text.push_str(reason_phrase(status))?;
    text.push_str("\r\n")
}

#[tactic(auto, unfolding(crate::specs::ResponseText::field_line))]
fn push_field(text: &mut String, name: &str, value: &str) -> Result<(), AllocError>
    ensures { OnOk result (string_bytes text.new ≡ string_bytes text.old ++ field_line name.now value.now) }
{
    text.push_str(name)?;
    text.push_str(": ")?;
    text.push_str(value)?;
    text.push_str("\r\n")
}

#[tactic(auto, unfolding(crate::specs::ResponseText::content_type_line))]
fn push_content_type(text: &mut String) -> Result<(), AllocError>
    ensures { OnOk result (string_bytes text.new ≡ string_bytes text.old ++ content_type_line) }
{
    push_field(text, "Content-Type", "text/plain; charset=utf-8")
}

fn push_length(alloc: Global, text: &mut String, body: &Text) -> Result<(), AllocError>
    ensures { OnOk result (string_bytes text.new ≡ string_bytes text.old ++ field_line (codes "Content-Length") (decimal (length body.now))) }
{
    let number = body.as_str().len().to_string(alloc)?;
    push_field(text, "Content-Length", number.as_str())
}

fn push_optional(text: &mut String, name: &str, value: Option<&Text>) -> Result<(), AllocError>
    ensures { OnOk result (string_bytes text.new ≡ string_bytes text.old ++ optional_line name.now (option_copied value.entry)) }
{
    match value {
        Some(value) => push_field(text, name, value.as_str()),
        None => Ok(()),
    }
}

fn push_vary(text: &mut String, vary: bool) -> Result<(), AllocError>
    ensures { OnOk result (string_bytes text.new ≡ string_bytes text.old ++ vary_line vary) }
{
    if vary {
        push_field(text, "Vary", "Cookie")
    } else {
        Ok(())
    }
}

fn push_cookies(text: &mut String, cookies: &[Text]) -> Result<(), AllocError>
    ensures { OnOk result (string_bytes text.new ≡ string_bytes text.old ++ cookie_lines cookies.now) }
{
    for cookie in cookies {
        push_field(text, "Set-Cookie", cookie.as_str())?;
    }
    Ok(())
}

#[tactic(auto, unfolding(crate::specs::ResponseText::security_lines, crate::specs::ResponseText::field_line))]
fn push_security(text: &mut String) -> Result<(), AllocError>
    ensures { OnOk result (string_bytes text.new ≡ string_bytes text.old ++ security_lines) }
{
    text.push_str(
        "X-Content-Type-Options: nosniff\r\nReferrer-Policy: same-origin\r\nCross-Origin-Opener-Policy: same-origin\r\nX-Frame-Options: DENY\r\n",
    )
}

fn push_connection(text: &mut String, keep: bool) -> Result<(), AllocError>
    ensures { OnOk result (string_bytes text.new ≡ string_bytes text.old ++ connection_line keep) }
{
    push_field(
        text,
        "Connection",
        if keep { "keep-alive" } else { "close" },
    )
}
