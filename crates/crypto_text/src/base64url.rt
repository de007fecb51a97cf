//! base64url without padding (RFC 4648, section 5), as signatures and signed values are written.

ghost use Rattle.std.specs.Prelude.{◌≡◌, IfNone, IfOk, IfSome, IsErrOf, length};
ghost use Rattle.crypto_text.specs.Rfc4648.{IsBase64url, IsBase64urlWithin, IsBytes, IsDecodedInto, base64url};

#[cfg(test)]
mod tests;

use crate::octets::Bytes;
use crate::text::Text;
use base64::DecodeAllocError;
use base64::engine::general_purpose::URL_SAFE_NO_PAD;
use std::alloc::{AllocError, Global};
use thiserror::Error;

/// Why a text is not read as base64url.
#[derive(Clone, Copy, Debug, Drop, PartialEq, Eq, Error)]
pub enum B64Fault {
    /// No bytes are written so: a character, a length, or bits at the end that are not zero.
    #[error("not base64url")]
    NotBase64,
    #[error("out of memory")]
    Memory,
}

/// Writes bytes as base64url without padding.
pub fn b64url_encode(alloc: Global, bytes: &[u8]) -> Result<Text, AllocError>
    ensures { IfOk result (λ text. text ≡ base64url bytes.now) }
{
    Ok(Text::from_string(URL_SAFE_NO_PAD.encode(alloc, bytes)?))
}

/// The 43 characters of a MAC of 32 bytes, for callers that take no memory.
pub fn b64url_of_mac(mac: &[u8; 32]) -> [u8; 43]
    ensures { result ≡ base64url mac.now }
{
    let mut text = [0; 43];
    match URL_SAFE_NO_PAD.encode_slice(mac, &mut text) {
        Ok(_) => text,
        Err(_) => unreachable!(),
    }
}

/// Reads what `b64url_encode` writes, and nothing else: no padding, and no bits left over that
/// are not zero.
pub fn b64url_decode(alloc: Global, text: &str) -> Result<Bytes, B64Fault>
    ensures ok { IfOk result (λ bytes. text.now ≡ base64url bytes) }
    ensures bytes { IfOk result IsBytes }
    ensures not_base64 { IsErrOf result B64Fault.NotBase64 → ¬ (IsBase64url text.now) }
{
    match URL_SAFE_NO_PAD.decode(alloc, text.as_bytes()) {
        Ok(bytes) => Ok(Bytes::from_vec(bytes)),
        Err(DecodeAllocError::DecodeError(_)) => Err(B64Fault::NotBase64),
        Err(DecodeAllocError::OutOfMemory) => Err(B64Fault::Memory),
    }
}

/// Reads into a slice and answers how many bytes it wrote at its front, for callers that take no
/// memory. `None` also where the bytes have no room; the slice may then hold anything.
pub fn b64url_decode_slice(text: &str, out: &mut [u8]) -> Option<usize>
    ensures some { IfSome result (λ n. IsDecodedInto text.now n out.old out.new) }
    ensures none { IfNone result (¬ (IsBase64urlWithin (length out.old) text.now)) }
{
    URL_SAFE_NO_PAD.decode_slice(text.as_bytes(), out).ok()
}
