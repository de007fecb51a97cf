//! What time it is.

ghost use Rattle.std.specs.Prelude.{◌≡◌, ℕ, [], ◌∷◌, Option};
ghost use Rattle.crypto_text.specs.Moment.{IsMoment, moment};
ghost use Rattle.outside.specs.Clock.{GivesNext};

use crypto_text::nearest_moment;

/// A clock in whole seconds since 1970-01-01 00:00 UTC.
pub trait Clock: Drop {
    /// The readings to come, counted from 0, where the clock reports them.
    ghost seen: { Self → Option (ℕ → ℕ) };

    /// Reads the clock. Nothing says that it doesn't go back.
    fn now(&mut self) -> u64
        ensures { GivesNext (seen self.old) (seen self.new) (result ∷ []) };
}

/// The moment of a request, in seconds since 1970: a clock that is far off is taken for the nearest moment.
pub fn moment_of(now: u64) -> u64
    ensures value { result ≡ moment now }
    ensures moment { IsMoment result }
{
    nearest_moment(now)
}
