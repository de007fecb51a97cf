//! CSRF secrets.

ghost use Rattle.std.specs.Prelude.{◌≡◌, IfOk};
ghost use Rattle.csrf_tokens.specs.Letters.{AreLetters};
ghost use Rattle.csrf_tokens.specs.Tokens.{masked};

use crypto_text::Text;
use csrf_tokens::mask;
use std::alloc::{AllocError, Global};
use std::marker::Model;
use std::str::from_utf8;

/// A CSRF secret: 32 letters or digits. It has no `Debug`, so that it isn't printed.
#[derive(Drop)]
pub struct Secret {
    letters: [u8; 32],
}

impl Model for Secret {
    ghost use Rattle.std.specs.Prelude.{List, ℕ};
    ghost use Rattle.csrf_tokens.specs.Letters.{AreLetters};

    ghost Value = { List ℕ };

    ghost view = { λ s. s.letters };

    ghost invariant = { λ s. AreLetters s.letters };
}

impl Secret {
    /// The secret of these letters. Takes no memory.
    pub fn of_letters(letters: [u8; 32]) -> Secret
        requires { AreLetters letters }
        ensures { result ≡ letters }
    {
        Secret { letters }
    }

    /// The token that carries it under a mask, as Django's `_mask_cipher_secret`.
    pub fn token(&self, alloc: Global, letters: &[u8; 32]) -> Result<Text, AllocError>
        requires { AreLetters letters.now }
        ensures { IfOk result (λ token. token ≡ masked self.now letters.now) }
    {
        Text::of(alloc, letters_text(&mask(&self.letters, letters)))
    }

    /// Its letters as a text, as its cookie has them.
    pub fn as_str(&self) -> &str
        ensures { result.now ≡ self.now }
    {
        letters_text(&self.letters)
    }
}

fn letters_text(letters: &[u8]) -> &str
    requires { AreLetters letters.now }
    ensures { result.now ≡ letters.now }
{
    match from_utf8(letters) {
        Ok(text) => text,
        Err(_) => unreachable!(),
    }
}
