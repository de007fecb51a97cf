//! The items of an entry's array, as they are written and as they are read by their index.

ghost use Rattle.std.specs.Prelude.{◌≡◌, IfOk, OnOk, option_map};
ghost use Rattle.hex.specs.Hex.{IsBytes};
ghost use Rattle.serde_json.specs.Data.{string};
ghost use Rattle.serde_json.specs.View.{view};
ghost use Rattle.entry_texts.specs.EntryFaults.{Gives};
ghost use Rattle.entry_texts.specs.EntryReading.{bytes_in, cookie_at, flag_at, key_bytes_at, number_at, text_at};
ghost use Rattle.entry_texts.specs.EntryText.{cookie_data, key_data};

use crate::reading::EntryFault;
use crypto_text::{Bytes, Text};
use hex::FromHexError;
use serde_json::Value;
use std::alloc::{AllocError, Global};

pub(crate) fn text_value(alloc: Global, text: &str) -> Result<Value, AllocError>
    ensures { IfOk result (λ value. view value ≡ string text.now) }
{
    Value::try_from_str(alloc, text)
}

pub(crate) fn cookie_value(alloc: Global, cookie: &Option<Text>) -> Result<Value, AllocError>
    ensures { IfOk result (λ value. view value ≡ cookie_data cookie.now) }
{
    match cookie {
        Some(cookie) => text_value(alloc, cookie.as_str()),
        None => Ok(Value::Null),
    }
}

pub(crate) fn key_value(alloc: Global, key: &[u8]) -> Result<Value, AllocError>
    ensures ok { IfOk result (λ value. view value ≡ key_data key.now) }
    ensures bytes { OnOk result (IsBytes key.now) }
{
    Ok(Value::from(hex::encode(alloc, key)?))
}

pub(crate) fn number_at(entry: &Value, index: usize) -> Result<u64, EntryFault>
    ensures { Gives result (number_at index (view entry.now)) }
{
    match entry.get(index) {
        Some(item) => item.as_u64().ok_or(EntryFault::Shape),
        None => Err(EntryFault::Shape),
    }
}

pub(crate) fn flag_at(entry: &Value, index: usize) -> Result<bool, EntryFault>
    ensures { Gives result (flag_at index (view entry.now)) }
{
    match entry.get(index) {
        Some(item) => item.as_bool().ok_or(EntryFault::Shape),
        None => Err(EntryFault::Shape),
    }
}

pub(crate) fn text_at(alloc: Global, entry: &Value, index: usize) -> Result<Text, EntryFault>
    ensures { Gives result (text_at index (view entry.now)) }
{
    match str_at(entry, index) {
        Some(text) => Ok(Text::of(alloc, text)?),
        None => Err(EntryFault::Shape),
    }
}

pub(crate) fn cookie_at(
    alloc: Global,
    entry: &Value,
    index: usize,
) -> Result<Option<Text>, EntryFault>
    ensures { Gives result (cookie_at index (view entry.now)) }
{
    match entry.get(index) {
        Some(Value::Null) => Ok(None),
        _ => Ok(Some(text_at(alloc, entry, index)?)),
    }
}

pub(crate) fn key_bytes_at(alloc: Global, entry: &Value, index: usize) -> Result<Bytes, EntryFault>
    ensures { Gives result (key_bytes_at index (view entry.now)) }
{
    match str_at(entry, index) {
        Some(text) => bytes_in(alloc, text),
        None => Err(EntryFault::Shape),
    }
}

/// A text, not copied.
pub(crate) fn str_at(entry: &Value, index: usize) -> Option<&str>
    ensures { option_map (λ text. text.now) result ≡ text_at index (view entry.now) }
{
    match entry.get(index) {
        Some(item) => item.as_str(),
        None => None,
    }
}

fn bytes_in(alloc: Global, text: &str) -> Result<Bytes, EntryFault>
    ensures { Gives result (bytes_in text.now) }
{
    match hex::decode(alloc, text) {
        Ok(bytes) => Ok(Bytes::from_vec(bytes)),
        Err(FromHexError::OutOfMemory) => Err(EntryFault::Memory),
        Err(_) => Err(EntryFault::Shape),
    }
}
