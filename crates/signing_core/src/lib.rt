//! Signed texts, as Django 4.2's `django.core.signing` makes and reads them.
//!
//! A text is read only where its signature is that of its value under a listed key. Nothing is hidden.
//! Make a `Keys` first: the key that signs, then the fallbacks whose signatures are still read. To
//! change keys, take `rotated` and, once no text of the old keys is wanted any more, `retired`.
//!
//! - `Signer` signs a text for one use, which its salt names. `sign` and `unsign` know no time;
//!   `sign_timed` and `unsign_timed` sign a moment with it, so that old texts can be refused;
//!   `current_value` reads such a text where the moment itself isn't wanted.
//! - `dumps` and `loads` sign a JSON value, and `sign_cookie` and `unsign_cookie` the value of a
//!   cookie for its name.
//! - `is_profile`, `json_ascii` and `json_read` are those of `ascii_json`: the values that can be
//!   signed have no float and are nested at most 100 deep.
//!
//! Moments and ages are in seconds. What reads answers exactly where the definition holds:
//! `Signature.IsSigned` and `IsTimestamped`, `SignedJson.IsDumped`, `TimedText.IsCurrent`. The laws
//! say that a signed text has one value, and that what was written is read while its key is listed.
#![tactic(auto)]

mod colon;
mod keys;
pub mod laws;
mod signature;
mod signed_cookie;
mod signed_json;
mod signer;
#[cfg(test)]
mod tests;
mod timed_text;

pub use crate::keys::{Keys, KeysFault, RotateFault};
pub use crate::signed_cookie::{CookieFault, sign_cookie, unsign_cookie};
pub use crate::signed_json::{LoadFault, dumps, loads};
pub use crate::signer::{SignFault, Signer, TimedFault};
pub use crate::timed_text::current_value;
pub use ascii_json::{JsonFault, is_profile, json_ascii, json_read};
