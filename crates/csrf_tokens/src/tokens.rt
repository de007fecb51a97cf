//! Tokens: 32 letters of mask, and then 32 that are the sums of the secret's letters and the mask's.

ghost use Rattle.std.specs.Prelude.{◌≡◌, take};
ghost use Rattle.csrf_tokens.specs.Letters.{AreLetters};
ghost use Rattle.csrf_tokens.specs.Tokens.{Masks, masked, unmasked};

use crate::letters::{difference_of, sum_of};

/// The token that carries the secret under the mask, as Django's `_mask_cipher_secret`.
pub fn mask(secret: &[u8; 32], mask: &[u8; 32]) -> [u8; 64]
    requires secret_letters { AreLetters secret.now }
    requires mask_letters { AreLetters mask.now }
    ensures begins { take 32 result ≡ mask.now }
    ensures masks { Masks secret.now result }
    ensures value { result ≡ masked secret.now mask.now }
{
    let mut token = [0; 64];
    token[..32].copy_from_slice(mask);
    for i in 0..32 {
        token[32 + i] = sum_of(secret[i], mask[i]);
    }
    token
}

/// The secret that the token carries, as Django's `_unmask_cipher_token`.
pub fn unmask(token: &[u8; 64]) -> [u8; 32]
    requires { AreLetters token.now }
    ensures letters { AreLetters result }
    ensures masks { Masks result token.now }
    ensures value { result ≡ unmasked token.now }
{
    let mut secret = [0; 32];
    for i in 0..32 {
        secret[i] = difference_of(token[32 + i], token[i]);
    }
    secret
}
