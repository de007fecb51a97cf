//! Random words, which keys, tokens and salts are made of.

ghost use Rattle.std.specs.Prelude.{◌≡◌, ◌<◌, ◌≤◌, ◌+◌, ◌^◌, ℕ, slice_range};
ghost use Rattle.outside.specs.RandomWords.{RandomWords, after_words, words_from};

/// As many words for each request, so that the words of a request don't depend on what the requests before it did with
/// theirs.
pub const REQUEST_WORDS: u64 = 1024;

/// Words at positions of a circle of 2^68. They are shown from any position on without being made before, and passed
/// over in one step.
pub trait Words: Drop {
    /// The position of the next word, and the word at each position.
    ghost seen: { Self → RandomWords };

    /// Shows 32 words, the first of them so many positions after the next word.
    fn ahead(&self, offset: u64) -> [u32; 32]
        ensures { result ≡ words_from (after_words (seen self.now) offset) 32 };

    /// Goes on by so many words.
    fn pass(&mut self, count: u64)
        ensures { seen self.new ≡ after_words (seen self.old) count };

    /// A word is the value of a `u32`.
    ghost words_are_below: { (words : Self) (position : ℕ) → (seen words).word_at position < 2 ^ 32 };
}

/// The 32 words of a request from this index on, of the 1,024 that are the next ones. None is passed over.
pub fn request_words<W: Words>(words: &W, first: u64) -> [u32; 32]
    requires { first + 32 ≤ REQUEST_WORDS }
    ensures { result ≡ slice_range (words_from (W.seen words.now) 1024) first (first + 32) }
{
    words.ahead(first)
}
