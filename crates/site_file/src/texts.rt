//! The fields that are lists of texts: `keys`, `allowed_hosts` and `common`.

ghost use Rattle.std.specs.Prelude.{◌≡◌, ◌∷◌, ◌↔◌, ℕ, List, None, IfOk, IsErrOf, IsTrue, option_map};
ghost use Rattle.std.specs.List.{All};
ghost use Rattle.serde_json.specs.View.{view};
ghost use Rattle.signing_core.specs.Keys.{IsKeys};
ghost use Rattle.site_file.specs.SiteFile.{AreCommonOf, AreHostsOf, AreKeysOf, IsLowerCase};

use crate::fields::{FieldFault, list_of, list_or_empty};
use crypto_text::{Bytes, Text, TextList};
use serde_json::Value;
use signing_core::{Keys, KeysFault};
use std::alloc::{AllocError, Global};

/// The keys: they must be there.
pub(crate) fn keys_of(alloc: Global, value: Option<&Value>) -> Result<Keys, FieldFault>
    ensures ok { IfOk result (AreKeysOf (option_map (λ v. view v.now) value.entry)) }
    ensures form { IsErrOf result FieldFault.Form → (keys : List (List ℕ)) → ¬ AreKeysOf (option_map (λ v. view v.now) value.entry) keys }
{
    match value {
        Some(value) => {
            let texts: Vec<Text> = list_of(alloc, value)?;
            keys_from(alloc, texts.as_slice())
        }
        None => Err(FieldFault::Form),
    }
}

fn keys_from(alloc: Global, texts: &[Text]) -> Result<Keys, FieldFault>
    ensures ok { IfOk result (λ keys. keys ≡ texts.now) }
    ensures keys { IfOk result IsKeys }
    ensures form { IsErrOf result FieldFault.Form → ¬ IsKeys texts.now }
{
    match texts.split_first() {
        Some((first, fallbacks)) => key_list(alloc, first, fallbacks),
        None => Err(FieldFault::Form),
    }
}

fn key_list(alloc: Global, first: &Text, fallbacks: &[Text]) -> Result<Keys, FieldFault>
    ensures ok { IfOk result (λ keys. keys ≡ first.now ∷ fallbacks.now) }
    ensures keys { IfOk result IsKeys }
    ensures form { IsErrOf result FieldFault.Form → ¬ IsKeys (first.now ∷ fallbacks.now) }
{
    let first = Bytes::of(alloc, first.as_str().as_bytes())?;
    let fallbacks = bytes_of(alloc, fallbacks)?;
    list_of_bytes(alloc, first, fallbacks)
}

/// The key list of these keys.
pub(crate) fn list_of_bytes(
    alloc: Global,
    first: Bytes,
    fallbacks: Vec<Bytes>,
) -> Result<Keys, FieldFault>
    ensures ok { IfOk result (λ keys. keys ≡ first ∷ fallbacks.items) }
    ensures keys { IfOk result IsKeys }
    ensures form { IsErrOf result FieldFault.Form → ¬ IsKeys (first ∷ fallbacks.items) }
{
    match Keys::new(alloc, first, fallbacks) {
        Ok(keys) => Ok(keys),
        Err(KeysFault::TooMany) => Err(FieldFault::Form),
        Err(KeysFault::Length { .. }) => Err(FieldFault::Form),
        Err(KeysFault::Twice { .. }) => Err(FieldFault::Form),
        Err(KeysFault::Memory) => Err(FieldFault::Memory),
    }
}

fn bytes_of(alloc: Global, texts: &[Text]) -> Result<Vec<Bytes>, AllocError>
    ensures { IfOk result (λ bytes. bytes.items ≡ texts.now) }
{
    let mut bytes = Vec::with_capacity(alloc, texts.len())?;
    for text in texts {
        bytes.push(Bytes::of(alloc, text.as_str().as_bytes())?)?;
    }
    Ok(bytes)
}

/// The hosts that the site answers to.
pub(crate) fn hosts_of(alloc: Global, value: Option<&Value>) -> Result<TextList, FieldFault>
    ensures ok { IfOk result (AreHostsOf (option_map (λ v. view v.now) value.entry)) }
    ensures form { IsErrOf result FieldFault.Form → (hosts : List (List ℕ)) → ¬ AreHostsOf (option_map (λ v. view v.now) value.entry) hosts }
{
    Ok(TextList::from_vec(list_or_empty(alloc, value)?))
}

/// The passwords that are too common.
pub(crate) fn common_of(alloc: Global, value: Option<&Value>) -> Result<TextList, FieldFault>
    ensures ok { IfOk result (AreCommonOf (option_map (λ v. view v.now) value.entry)) }
    ensures form { IsErrOf result FieldFault.Form → (common : List (List ℕ)) → ¬ AreCommonOf (option_map (λ v. view v.now) value.entry) common }
{
    let common: Vec<Text> = list_or_empty(alloc, value)?;
    if are_lower_case(common.as_slice()) {
        Ok(TextList::from_vec(common))
    } else {
        Err(FieldFault::Form)
    }
}

fn are_lower_case(texts: &[Text]) -> bool
    ensures { IsTrue result ↔ All IsLowerCase texts.now }
{
    texts.iter().all(|text| is_lower_case(text.as_str()))
}

fn is_lower_case(text: &str) -> bool
    ensures { IsTrue result ↔ IsLowerCase text.now }
{
    text.as_bytes()
        .iter()
        .all(|byte| !byte.is_ascii_uppercase())
}
