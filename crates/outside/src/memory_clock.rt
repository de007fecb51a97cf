//! A clock in memory, for tests and for worked examples.

ghost use Rattle.std.specs.Prelude.{◌≡◌, Some};
ghost use Rattle.outside.specs.Clock.{repeating};

use crate::clock::Clock;
use crypto_text::Ids;
use std::marker::Model;

/// A clock whose readings are listed.
#[derive(Drop)]
pub struct MemClock {
    readings: Ids,
    at: usize,
}

impl Model for MemClock {
    ghost use Rattle.std.specs.Prelude.{◌≤◌, ℕ, List, length, drop};

    ghost Value = { List ℕ };

    ghost view = { λ m. drop m.at m.readings };

    ghost invariant = { λ m. m.at ≤ length m.readings };
}

impl MemClock {
    /// A clock that gives these readings. The last one repeats, and without any the clock reads 0.
    pub fn new(readings: Ids) -> MemClock
        ensures { result ≡ readings }
    {
        MemClock { readings, at: 0 }
    }
}

impl Clock for MemClock {
    ghost seen = { λ m. Some (repeating m) };

    fn now(&mut self) -> u64 {
        match &self.readings.items()[self.at..] {
            [] => 0,
            [last] => *last,
            [now, ..] => {
                self.at += 1;
                *now
            }
        }
    }
}
