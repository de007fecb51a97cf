//! From an entry to its text.

ghost use Rattle.std.specs.Prelude.{◌≡◌, All, IfOk, OnOk};
ghost use Rattle.ascii_json.specs.AsciiJson.{IsPrintable};
ghost use Rattle.entry_texts.specs.EntryText.{IsWritable, text_of_entry};

use crate::entry_value::entry_value;
use ascii_json::json_ascii;
use crypto_text::Text;
use ledger_rows::Entry;
use std::alloc::{AllocError, Global};

/// The text of an entry: one line without its end.
#[tactic(auto, using(crate::proofs::EntryLemmas::data_of_profile))]
pub fn entry_text(alloc: Global, entry: &Entry) -> Result<Text, AllocError>
    ensures ok { IfOk result (λ text. text ≡ text_of_entry entry.now) }
    ensures printable { IfOk result (λ text. All IsPrintable text) }
    ensures writable { OnOk result (IsWritable entry.now) }
{
    let value = entry_value(alloc, entry)?;
    json_ascii(alloc, &value)
}
