//! Texts, bytes and digests for every other crate. The small types `Text`, `TextList`,
//! `Ids` and `Bytes` are what rows, requests and replies are made of: contracts see a list of bytes,
//! of byte lists, of numbers, of bytes.
#![tactic(auto)]

mod alphabet;
mod base64url;
mod compare;
mod cut;
mod hash_state;
mod hexadecimal;
mod hmac;
mod ids;
mod keyed;
pub mod laws;
mod md5_digest;
mod moment;
mod numeral;
mod octets;
mod pbkdf2;
#[cfg(test)]
mod tests;
mod text;
mod text_list;
mod white_space;

pub use crate::alphabet::{Alphabet, pick, text_of};
pub use crate::base64url::{
    B64Fault, b64url_decode, b64url_decode_slice, b64url_encode, b64url_of_mac,
};
pub use crate::compare::same;
pub use crate::cut::{cut_at_first, cut_at_last};
pub use crate::hexadecimal::hex_of;
pub use crate::hmac::{Hmac256, Salted, hmac_sha1, hmac_sha256, salted_hmac};
pub use crate::ids::Ids;
pub use crate::md5_digest::md5_hex;
pub use crate::moment::{FIRST_MOMENT, LAST_MOMENT, is_moment, nearest_moment};
pub use crate::numeral::{
    b36_decode, b36_encode, b62_decode, b62_encode, decimal_decode, positive_decode,
};
pub use crate::octets::Bytes;
pub use crate::pbkdf2::{pbkdf2_sha1, pbkdf2_sha256};
pub use crate::text::Text;
pub use crate::text_list::{TextList, are_different, is_among};
pub use crate::white_space::trimmed;
