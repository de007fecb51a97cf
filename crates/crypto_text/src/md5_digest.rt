//! MD5 digests as text, for the oldest password texts. MD5 is broken as a cryptographic hash.

ghost use Rattle.std.specs.Prelude.{◌≡◌, ◌++◌};
ghost use Rattle.crypto_text.specs.Md5Hex.{md5_hex};

use md5::{Digest, Md5};

/// The lower case hex digits of the MD5 digest of both parts put together.
pub fn md5_hex(first: &[u8], second: &[u8]) -> [u8; 32]
    ensures { result ≡ md5_hex (first.now ++ second.now) }
{
    let mut hasher = Md5::new();
    hasher.update(first);
    hasher.update(second);
    let digest = hasher.finalize();
    let mut text = [0; 32];
    match hex::encode_to_slice(digest, &mut text) {
        Ok(()) => text,
        Err(_) => unreachable!(),
    }
}
