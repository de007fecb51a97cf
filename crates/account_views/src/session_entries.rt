//! `/session/`: the entries of one's own session.

ghost use Rattle.std.specs.Prelude.{◌≡◌, ◌++◌, IfOk, OnOk, string_bytes};
ghost use Rattle.std.specs.List.{list_all};
ghost use Rattle.serde_json.specs.View.{members_view, view};
ghost use Rattle.ascii_json.specs.Profile.{IsProfile, MembersFitWithin};
ghost use Rattle.outside.specs.RandomWords.{words_from};
ghost use Rattle.account_views.specs.SessionEntries.{entered, entered_form, entry_count, entry_line, entry_lines, has_room, is_entry, is_entry_name, is_expiry, is_name_byte, is_private, listed, seconds_of, session_entries, with_entry, with_expiry};

use crate::call::Call;
use crate::page::{Viewed, form_page, text_page};
use ascii_json::json_ascii;
use auth_backends::SessionBox;
use crypto_text::positive_decode;
use http_edge::Field;
use middleware_chain::{Secret, last_value};
use outside::Words;
use serde_json::{Map, Value};
use session_codec::SessionMap;
use std::alloc::{AllocError, Global};

const EXPIRY_NAME: &str = "_session_expiry";

const MOST_NAME_BYTES: usize = 100;

const MOST_VALUE_BYTES: usize = 4096;

/// A number of seconds has at most so many digits.
const MOST_DIGITS: usize = 10;

/// A session has at most so many entries beside the server's.
const MOST_ENTRIES: usize = 64;

/// GET and HEAD list the entries; POST sets one.
pub fn session_entries<W: Words>(
    alloc: Global,
    words: &W,
    call: Call,
    session: SessionBox,
) -> Result<Viewed, AllocError>
    ensures { IfOk result (λ viewed. viewed ≡ session_entries (words_from (W.seen words.now) 1024) call session) }
{
    if call.post {
        enter_form(alloc, call.fields.items(), session)
    } else {
        list(alloc, words, call.secret, session)
    }
}

fn list<W: Words>(
    alloc: Global,
    words: &W,
    secret: Option<Secret>,
    session: SessionBox,
) -> Result<Viewed, AllocError>
    ensures { IfOk result (λ viewed. viewed ≡ listed (words_from (W.seen words.now) 1024) secret session) }
{
    let lines = entry_lines(alloc, &session.map)?;
    let page = form_page(alloc, words, secret, lines.as_str())?;
    Ok(Viewed { page, session })
}

fn entry_lines(alloc: Global, map: &SessionMap) -> Result<String, AllocError>
    ensures { IfOk result (λ text. string_bytes text ≡ entry_lines map.now) }
{
    match map.as_value() {
        Value::Object(members) => member_lines(alloc, members),
        _ => unreachable!(),
    }
}

fn member_lines(alloc: Global, members: &Map<String, Value>) -> Result<String, AllocError>
    requires { MembersFitWithin 99 (members_view members.now.entries) }
    ensures { IfOk result (λ text. string_bytes text ≡ entry_lines (members_view members.now.entries)) }
{
    let mut text = String::new(alloc);
    for (name, value) in members.iter() {
        push_entry(alloc, &mut text, name.as_str(), value)?;
    }
    Ok(text)
}

fn push_entry(alloc: Global, text: &mut String, name: &str, value: &Value) -> Result<(), AllocError>
    requires { IsProfile (view value.now) }
    ensures { OnOk result (string_bytes text.new ≡ string_bytes text.old ++ entry_line name.now (view value.now)) }
{
    if is_private(name) {
        return Ok(());
    }
    let json = json_ascii(alloc, value)?;
    text.push_str(name)?;
    text.push_str("=")?;
    text.push_str(json.as_str())?;
    text.push_str("\n")
}

fn is_private(name: &str) -> bool
    ensures { result ≡ is_private name.now }
{
    match name.as_bytes() {
        [first, ..] => *first == b'_',
        [] => false,
    }
}

fn enter_form(alloc: Global, fields: &[Field], session: SessionBox) -> Result<Viewed, AllocError>
    ensures { IfOk result (λ viewed. viewed ≡ entered_form fields.now session) }
{
    let name = last_value(fields, "name");
    let value = last_value(fields, "value");
    let expiry = last_value(fields, "expiry");
    enter(alloc, name, value, expiry, session)
}

fn enter(
    alloc: Global,
    name: &str,
    value: &str,
    expiry: &str,
    mut session: SessionBox,
) -> Result<Viewed, AllocError>
    ensures { IfOk result (λ viewed. viewed ≡ entered name.now value.now expiry.now session) }
{
    if !is_entry(name, value, expiry, &session.map) {
        let page = text_page(alloc, 400, "error=bad-entry\n")?;
        return Ok(Viewed { page, session });
    }
    set_entry(alloc, &mut session, name, value, expiry)?;
    let page = text_page(alloc, 200, "set\n")?;
    Ok(Viewed { page, session })
}

fn set_entry(
    alloc: Global,
    session: &mut SessionBox,
    name: &str,
    value: &str,
    expiry: &str,
) -> Result<(), AllocError>
    ensures { OnOk result (session.new ≡ with_entry name.now value.now expiry.now session.old) }
{
    let value = Value::try_from_str(alloc, value)?;
    session.map.set(alloc, name, value)?;
    set_expiry(alloc, &mut session.map, seconds_of(expiry))?;
    session.modified = true;
    Ok(())
}

#[tactic(auto, unfolding(session_codec::specs::SessionMap::expiry_name))]
fn set_expiry(alloc: Global, map: &mut SessionMap, seconds: Option<u64>) -> Result<(), AllocError>
    ensures { OnOk result (map.new ≡ with_expiry seconds map.old) }
{
    match seconds {
        Some(seconds) => map.set(alloc, EXPIRY_NAME, Value::from(seconds)),
        None => Ok(()),
    }
}

fn is_entry(name: &str, value: &str, expiry: &str, map: &SessionMap) -> bool
    ensures { result ≡ is_entry name.now value.now expiry.now map.now }
{
    is_entry_name(name)
        && value.len() <= MOST_VALUE_BYTES
        && has_room(name, map)
        && is_expiry(expiry)
}

#[tactic(auto, unfolding(crate::specs::SessionEntries::is_entry_name))]
fn is_entry_name(name: &str) -> bool
    ensures { result ≡ is_entry_name name.now }
{
    !name.is_empty()
        && name.len() <= MOST_NAME_BYTES
        && !is_private(name)
        && are_name_bytes(name.as_bytes())
}

fn are_name_bytes(bytes: &[u8]) -> bool
    ensures { result ≡ list_all is_name_byte bytes.now }
{
    bytes.iter().all(|&byte| is_name_byte(byte))
}

fn is_name_byte(byte: u8) -> bool
    ensures { result ≡ is_name_byte byte }
{
    byte.is_ascii_graphic() && byte != b'='
}

#[tactic(auto, unfolding(crate::specs::SessionEntries::has_room))]
fn has_room(name: &str, map: &SessionMap) -> bool
    ensures { result ≡ has_room name.now map.now }
{
    map.get(name).is_some() || entry_count(map) < MOST_ENTRIES
}

fn entry_count(map: &SessionMap) -> usize
    ensures { result ≡ entry_count map.now }
{
    match map.as_value() {
        Value::Object(members) => member_count(members),
        _ => unreachable!(),
    }
}

fn member_count(members: &Map<String, Value>) -> usize
    ensures { result ≡ entry_count (members_view members.now.entries) }
{
    members
        .keys()
        .filter(|name| !is_private(name.as_str()))
        .count()
}

#[tactic(auto, unfolding(crate::specs::SessionEntries::is_expiry))]
fn is_expiry(text: &str) -> bool
    ensures { result ≡ is_expiry text.now }
{
    text.is_empty() || seconds_of(text).is_some()
}

#[tactic(auto, unfolding(crate::specs::SessionEntries::seconds_of))]
fn seconds_of(text: &str) -> Option<u64>
    ensures { result ≡ seconds_of text.now }
{
    if text == "0" {
        Some(0)
    } else if text.len() > MOST_DIGITS {
        None
    } else {
        positive_decode(text)
    }
}
