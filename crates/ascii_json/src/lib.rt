//! JSON text in ASCII, and reading it back.
//!
//! `json_ascii` writes a value as Python's `json.dumps(value, sort_keys=True, separators=(",", ":"))`
//! does: keys in byte order, no spaces, and no byte outside `0x20` to `0x7e`. `json_read` reads any
//! JSON text. Both know only *profile values*: no float, and nested at most 100 deep. `is_profile`
//! asks whether a value is one, and `fits_within` the same of another depth.
//!
//! The definitions are `AsciiJson.json_of` (the text of a value) and `Profile.Reads` (the bytes are
//! JSON text of a profile value), over the `view` of a value in `serde_json`. The laws say that what
//! was written is read back, and that bytes are the text of one value at most.
#![tactic(auto)]

pub mod laws;
mod profile;
mod reading;
#[cfg(test)]
mod tests;
mod writing;

pub use crate::profile::{fits_within, is_profile};
pub use crate::reading::{JsonFault, json_read};
pub use crate::writing::json_ascii;
