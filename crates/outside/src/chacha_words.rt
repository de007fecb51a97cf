//! Words of a ChaCha generator, from a seed.

ghost use Rattle.std.specs.Prelude.{◌≡◌, ◌<◌, ◌^◌};
ghost use Rattle.rand_chacha.specs.ChaCha.{word_at as chacha_word_at, key_of};

use crate::random_words::Words;
use rand_chacha::ChaCha20Rng;
use rand_core::SeedableRng;
use rand_core::utils::NextWord;

const POSITIONS: u128 = 1 << 68;

/// The words of one stream of ChaCha with twenty rounds (RFC 8439, with a number of 64 bits for the stream
/// instead of the nonce). It has no `Debug`, so that no seed is printed.
#[derive(Drop)]
pub struct ChaChaWords {
    seed: [u8; 32],
    stream: u64,
    position: u128,
    ghost below: { position < 2 ^ 68 },
}

impl ChaChaWords {
    /// A stream of a seed, from its first word on. Takes no memory.
    pub fn new(seed: [u8; 32], stream: u64) -> ChaChaWords
        ensures { ⟦<ChaChaWords as Words>⟧.seen result ≡ record { position = 0; word_at = chacha_word_at 10 (key_of seed) stream } }
    {
        ChaChaWords {
            seed,
            stream,
            position: 0,
        }
    }
}

impl Words for ChaChaWords {
    ghost use Rattle.rand_chacha.specs.ChaCha.{word_at as chacha_word_at, key_of};
    ghost use Rattle.outside.specs.RandomWordLaws.{chacha-below};

    ghost seen = { λ w. record { position = w.position; word_at = chacha_word_at 10 (key_of w.seed) w.stream } };

    fn ahead(&self, offset: u64) -> [u32; 32] {
        let mut rng = ChaCha20Rng::from_seed(self.seed);
        rng.set_stream(self.stream);
        rng.set_word_pos(self.position + u128::from(offset));
        let mut shown = [0; 32];
        for at in 0..32 {
            shown[at] = rng.next_word();
        }
        shown
    }

    fn pass(&mut self, count: u64) {
        self.position = (self.position + u128::from(count)) % POSITIONS;
    }

    ghost words_are_below = { λ w position. chacha-below 10 (key_of w.seed) w.stream position };
}
