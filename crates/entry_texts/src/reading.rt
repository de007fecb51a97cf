//! From a text to its entry.

ghost use Rattle.std.specs.Prelude.{◌↔◌, IfOk, IsErrOf, IsTrue};
ghost use Rattle.ledger_rows.specs.declared.entry.Entry.{Entry};
ghost use Rattle.entry_texts.specs.EntryText.{IsEntryText};

use crate::value_entry::value_entry;
use crate::writing::entry_text;
use ascii_json::{JsonFault, json_read};
use ledger_rows::{Entry, op_ok};
use std::alloc::{AllocError, Global};
use thiserror::Error;

/// Why a text is not read.
#[derive(Clone, Copy, Debug, Drop, PartialEq, Eq, Error)]
pub enum EntryFault {
    /// It is not the text of an entry whose operation may be done.
    #[error("no text of an entry")]
    Shape,
    #[error("out of memory")]
    Memory,
}

impl From<AllocError> for EntryFault {
    ghost use Rattle.std.specs.Prelude.{◌≡◌};
    ghost use Rattle.entry_texts.specs.declared.reading.EntryFault.TheVariants.{Memory};

    ghost from_gives = { λ _ fault. fault ≡ Memory };

    fn from(_error: AllocError) -> EntryFault {
        EntryFault::Memory
    }
}

impl From<JsonFault> for EntryFault {
    ghost use Rattle.entry_texts.specs.EntryFaults.{IsEntryFaultOfJson};

    ghost from_gives = { IsEntryFaultOfJson };

    fn from(fault: JsonFault) -> EntryFault {
        match fault {
            JsonFault::NotJson => EntryFault::Shape,
            JsonFault::Memory => EntryFault::Memory,
        }
    }
}

/// Reads what `entry_text` wrote of an entry whose operation may be done, and no other text.
pub fn entry_read(alloc: Global, text: &str) -> Result<Entry, EntryFault>
    ensures ok { IfOk result (λ entry. IsEntryText text.now entry) }
    ensures shape { (¬ IsErrOf result EntryFault.Memory) → (IsErrOf result EntryFault.Shape ↔ ((entry : Entry) → ¬ IsEntryText text.now entry)) }
{
    let value = json_read(alloc, text.as_bytes())?;
    let entry = value_entry(alloc, &value)?;
    if is_text_of(alloc, text, &entry)? {
        Ok(entry)
    } else {
        Err(EntryFault::Shape)
    }
}

// Of the many texts that JSON has for one value, one alone is the entry's own.
fn is_text_of(alloc: Global, text: &str, entry: &Entry) -> Result<bool, AllocError>
    ensures { IfOk result (λ is. IsTrue is ↔ IsEntryText text.now entry.now) }
{
    let written = entry_text(alloc, entry)?;
    if written.as_str() == text {
        op_ok(alloc, &entry.op)
    } else {
        Ok(false)
    }
}
