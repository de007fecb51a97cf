//! Hexadecimal text, as digests are written.

ghost use Rattle.std.specs.Prelude.{◌≡◌};
ghost use Rattle.crypto_text.specs.Hexadecimal.{hex_text};

#[cfg(test)]
mod tests;

use hex::encode_to_slice;

/// A digest of 32 bytes in lower case hexadecimal.
pub fn hex_of(mac: &[u8; 32]) -> [u8; 64]
    ensures { result ≡ hex_text mac.now }
{
    let mut text = [0; 64];
    match encode_to_slice(mac.as_slice(), &mut text) {
        Ok(()) => text,
        Err(_) => unreachable!(),
    }
}
