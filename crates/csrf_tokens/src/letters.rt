//! The 62 letters of secrets and tokens, and their sums counted in a circle.

ghost use Rattle.std.specs.Prelude.{◌≡◌, ◌+◌, ◌%◌, ◌<◌, ◌↔◌, IsTrue};
ghost use Rattle.csrf_tokens.specs.Letters.{AreLetters, IsLetter, are_letters, difference_of, index_of, is_letter, letter_at, sum_of};

const LETTERS: &[u8; 62] = b"abcdefghijklmnopqrstuvwxyzABCDEFGHIJKLMNOPQRSTUVWXYZ0123456789";

/// Whether every byte is one of the letters, `a-z A-Z 0-9`.
#[tactic(auto, unfolding(crate::specs::Letters::are_letters))]
pub fn are_letters(bytes: &[u8]) -> bool
    ensures letters { IsTrue result ↔ AreLetters bytes.now }
    ensures value { result ≡ are_letters bytes.now }
{
    bytes.iter().all(|&byte| is_letter(byte))
}

fn is_letter(byte: u8) -> bool
    ensures letter { IsTrue result ↔ IsLetter byte }
    ensures value { result ≡ is_letter byte }
{
    byte.is_ascii_alphanumeric()
}

/// The letter at `a` and `b` places from the start.
#[tactic(auto, unfolding(crate::specs::Letters::sum_of))]
pub fn sum_of(a: u8, b: u8) -> u8
    requires a_letter { IsLetter a }
    requires b_letter { IsLetter b }
    ensures letter { IsLetter result }
    ensures sum { index_of result ≡ (index_of a + index_of b) % 62 }
    ensures value { result ≡ sum_of a b }
{
    letter_at((index_of(a) + index_of(b)) % 62)
}

/// The letter to which `b` was added where the sum is `sum`.
#[tactic(auto, unfolding(crate::specs::Letters::difference_of))]
pub fn difference_of(sum: u8, b: u8) -> u8
    requires sum_letter { IsLetter sum }
    requires b_letter { IsLetter b }
    ensures letter { IsLetter result }
    ensures sum { index_of sum ≡ (index_of result + index_of b) % 62 }
    ensures value { result ≡ difference_of sum b }
{
    letter_at((index_of(sum) + 62 - index_of(b)) % 62)
}

fn letter_at(index: u8) -> u8
    requires { index < 62 }
    ensures letter { IsLetter result }
    ensures index { index_of result ≡ index }
    ensures value { result ≡ letter_at index }
{
    LETTERS[usize::from(index)]
}

fn index_of(letter: u8) -> u8
    requires { IsLetter letter }
    ensures index { result ≡ index_of letter }
    ensures within { result < 62 }
{
    match letter {
        b'0'..=b'9' => letter - b'0' + 52,
        b'A'..=b'Z' => letter - b'A' + 26,
        _ => letter - b'a',
    }
}
