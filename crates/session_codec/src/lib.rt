//! Sessions of users: the map that a session is, and the texts that it is kept as, as Django 4.2
//! writes them.
//!
//! `SessionMap` holds JSON values under names; `auth_part` and `expiry` read the names that
//! `django.contrib.auth` puts into it. `encode` and `decode` go to the signed text that a store or a
//! cookie keeps and back, `payload` and `from_payload` to the same JSON without a signature.
//!
//! The definitions are `SessionMap.auth_of` and `expiry_of`, and `SessionText.Encodes`: the text is
//! this map, signed at this moment under one of the keys. `SessionText.decoded` is that definition
//! read as a function; the laws say so, and that what was encoded is decoded.
#![tactic(auto)]

mod auth_part;
mod expiry;
pub mod laws;
mod object;
mod session_map;
mod session_text;
#[cfg(test)]
mod tests;

pub use crate::auth_part::AuthPart;
pub use crate::expiry::Expiry;
pub use crate::session_map::{SessionMap, is_session_value};
pub use crate::session_text::{DecodeFault, SessionKind, decode, encode, from_payload, payload};
