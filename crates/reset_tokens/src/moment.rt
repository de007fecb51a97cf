//! The text of a moment, as a login's time is written.

ghost use Rattle.std.specs.Prelude.{◌≡◌, pos, ◌*ℤ◌, IfOk, string_bytes};
ghost use Rattle.jiff.specs.Words.{civil_nanos};
ghost use Rattle.crypto_text.specs.Moment.{IsMoment};
ghost use Rattle.reset_tokens.specs.Moment.{moment_text};

use jiff::Timestamp;
use jiff::civil::DateTime;
use jiff::tz::Offset;
use std::alloc::{AllocError, Global};

/// The date and time of day of a moment in UTC.
pub(crate) fn moment_text(alloc: Global, moment: u64) -> Result<String, AllocError>
    requires { IsMoment moment }
    ensures { IfOk result (λ text. string_bytes text ≡ moment_text moment) }
{
    let shown = shown_at(moment);
    format!(in alloc; "{} {}", shown.date(), shown.time())
}

// What a clock in UTC shows.
fn shown_at(moment: u64) -> DateTime
    requires { IsMoment moment }
    ensures { civil_nanos result ≡ pos moment *ℤ pos 1_000_000_000 }
{
    match Timestamp::from_second(moment as i64) {
        Ok(instant) => Offset::UTC.to_datetime(instant),
        Err(_) => unreachable!(),
    }
}
