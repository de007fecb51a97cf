//! What a machine remembers of its request.

ghost use Rattle.std.specs.Prelude.{◌≡◌};
ghost use Rattle.crypto_text.specs.Moment.{IsMoment};

use middleware_chain::Delivery;
use std::marker::Model;

/// A moment from 2001 to 9892, in seconds since 1970.
#[derive(Drop)]
pub struct Moment {
    seconds: u64,
}

impl Model for Moment {
    ghost use Rattle.std.specs.Prelude.{ℕ};
    ghost use Rattle.crypto_text.specs.Moment.{IsMoment};

    ghost Value = { ℕ };

    ghost view = { λ m. m.seconds };

    ghost invariant = { λ m. IsMoment m.seconds };
}

impl Moment {
    pub fn of_seconds(seconds: u64) -> Moment
        requires { IsMoment seconds }
        ensures { result ≡ seconds }
    {
        Moment { seconds }
    }

    pub fn seconds(&self) -> u64
        ensures value { result ≡ self.now }
        ensures moment { IsMoment result }
    {
        self.seconds
    }
}

#[derive(Drop)]
pub struct Facts {
    pub moment: Moment,
    pub delivery: Delivery,
}
