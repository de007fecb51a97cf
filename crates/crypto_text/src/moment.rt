//! Moments: the bounds of the times that requests, rows and tokens have.

ghost use Rattle.std.specs.Prelude.{◌≡◌, ◌↔◌, IsTrue};
ghost use Rattle.crypto_text.specs.Moment.{IsMoment, moment};

/// In September 2001, in seconds since 1970.
pub const FIRST_MOMENT: u64 = 1_000_000_000;

/// In the year 9892, in seconds since 1970.
pub const LAST_MOMENT: u64 = 250_000_000_000;

/// Whether a number of seconds since 1970 is a moment.
pub fn is_moment(seconds: u64) -> bool
    ensures { IsTrue result ↔ IsMoment seconds }
{
    FIRST_MOMENT <= seconds && seconds <= LAST_MOMENT
}

/// The moment of a clock's reading, in seconds since 1970.
pub fn nearest_moment(now: u64) -> u64
    ensures value { result ≡ moment now }
    ensures moment { IsMoment result }
    ensures same { IsMoment now → result ≡ now }
{
    now.min(LAST_MOMENT).max(FIRST_MOMENT)
}
