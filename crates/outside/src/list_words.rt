//! Words that are listed, for tests and for worked examples.

ghost use Rattle.std.specs.Prelude.{◌≡◌, ◌<◌, ◌^◌, ◌↔◌, ℕ, length, slice_index, IsTrue};
ghost use Rattle.outside.specs.RandomWords.{FitWords, listed_word};

use crate::random_words::Words;
use crypto_text::Ids;

const POSITIONS: u128 = 1 << 68;

/// Words of a list, and after them one word at each position.
#[derive(Drop)]
pub struct ListWords {
    words: Ids,
    rest: u32,
    position: u128,
    ghost fit: { FitWords words },
    ghost rest_fits: { rest < 2 ^ 32 },
    ghost below: { position < 2 ^ 68 },
}

impl ListWords {
    /// Whether each number is below 2^32, as the words of a list have to be.
    pub fn fits(words: &Ids) -> bool
        ensures { IsTrue result ↔ FitWords words.now }
    {
        words.items().iter().all(|word| *word < 1 << 32)
    }

    /// The words of a list from position 0 on, and `rest` after them.
    pub fn new(words: Ids, rest: u32) -> ListWords
        requires { FitWords words }
        ensures { ⟦<ListWords as Words>⟧.seen result ≡ record { position = 0; word_at = listed_word words rest } }
    {
        ListWords {
            words,
            rest,
            position: 0,
        }
    }
}

impl Words for ListWords {
    ghost use Rattle.outside.specs.RandomWords.{listed_word};
    ghost use Rattle.outside.specs.RandomWordLaws.{listed-below};

    ghost seen = { λ w. record { position = w.position; word_at = listed_word w.words w.rest } };

    fn ahead(&self, offset: u64) -> [u32; 32] {
        let mut shown = [0; 32];
        for at in 0..32 {
            let position = (self.position + u128::from(offset) + at as u128) % POSITIONS;
            shown[at] = word_of(self.words.items(), self.rest, position);
        }
        shown
    }

    fn pass(&mut self, count: u64) {
        self.position = (self.position + u128::from(count)) % POSITIONS;
    }

    ghost words_are_below = { λ w position. listed-below w.words w.rest position w.fit w.rest_fits };
}

fn word_of(words: &[u64], rest: u32, position: u128) -> u32
    requires { FitWords words.now }
    ensures { result ≡ listed_word words.now rest position }
{
    match usize::try_from(position) {
        Ok(at) if at < words.len() => words[at] as u32,
        _ => rest,
    }
}
