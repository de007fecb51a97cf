//! The text of an entry of the audit list, and reading it back.
//!
//! `entry_text` writes an entry as one line of compact JSON in ASCII: an array of the version 1, the tag's boot,
//! worker, request and step, the operation's name, and its fields in the order in which `Op` declares them. So
//! `[1,1,0,0,0,"Boot"]` is a first start. An absent cookie is `null`, and the bytes of a key are a text in lower case
//! hexadecimal. `entry_read` reads such a line, if its operation may be done, and nothing else. Lines are as
//! secret as the store: they have its keys, password texts and payloads unhidden.
//!
//! The definitions are `EntryText.text_of_entry` and `EntryText.IsEntryText`. The laws say that what was written is
//! read back, and that a text is that of one entry at most.
#![tactic(auto)]

mod entry_value;
mod items;
pub mod laws;
mod reading;
#[cfg(test)]
mod tests;
mod value_entry;
mod writing;

pub use crate::reading::{EntryFault, entry_read};
pub use crate::writing::entry_text;
