//! Random texts: each random word picks one letter of an alphabet.

ghost use Rattle.std.specs.Prelude.{◌≡◌, ◌<◌, ◌≤◌, IfOk, length, slice_index};
ghost use Rattle.crypto_text.specs.Alphabet.{letter_for, letters_of, place_of, random_text};

#[cfg(test)]
mod tests;

use crate::text::Text;
use std::alloc::{AllocError, Global};

const SESSION36: &[u8; 36] = b"abcdefghijklmnopqrstuvwxyz0123456789";

const LETTERS62: &[u8; 62] = b"abcdefghijklmnopqrstuvwxyzABCDEFGHIJKLMNOPQRSTUVWXYZ0123456789";

/// The letters of a random text.
#[derive(Clone, Copy, Debug, PartialEq, Eq)]
pub enum Alphabet {
    /// `a-z0-9`, of session keys.
    Session36,
    /// `a-zA-Z0-9`, of salts and secrets.
    Letters62,
}

/// The place among `size` that a random word picks: the high 32 bits of their product, so that
/// the places are as alike as 32 bits allow.
pub fn pick(word: u32, size: u32) -> u32
    requires { 1 ≤ size }
    ensures value { result ≡ place_of word size }
    ensures within { result < size }
{
    ((u64::from(word) * u64::from(size)) >> 32) as u32
}

/// A text of one letter a word.
pub fn text_of(alloc: Global, words: &[u32], alphabet: Alphabet) -> Result<Text, AllocError>
    ensures { IfOk result (λ text. text ≡ random_text (letters_of alphabet) words.now) }
{
    let mut text = String::with_capacity(alloc, words.len())?;
    for &word in words {
        text.push(char::from(alphabet.letter_for(word)))?;
    }
    Ok(Text::from_string(text))
}

impl Alphabet {
    fn letter_for(self, word: u32) -> u8
        ensures letter { result ≡ letter_for (letters_of self) word }
        ensures ascii { result < 128 }
    {
        self.letter_at(pick(word, self.size()))
    }

    fn size(self) -> u32
        ensures value { result ≡ length (letters_of self) }
        ensures some { 1 ≤ result }
    {
        match self {
            Alphabet::Session36 => 36,
            Alphabet::Letters62 => 62,
        }
    }

    fn letter_at(self, place: u32) -> u8
        requires { place < length (letters_of self) }
        ensures letter { result ≡ slice_index (letters_of self) place }
        ensures ascii { result < 128 }
    {
        match self {
            Alphabet::Session36 => SESSION36[place as usize],
            Alphabet::Letters62 => LETTERS62[place as usize],
        }
    }
}
