//! How long a session lasts.

ghost use Rattle.std.specs.Prelude.{◌≡◌, Option};
ghost use Rattle.session_codec.specs.SessionMap.{expiry_from, expiry_of};

use crate::session_map::SessionMap;

const EXPIRY_NAME: &str = "_session_expiry";

const USUAL_SECONDS: u64 = 1_209_600;

const MOST_SECONDS: u64 = 3_153_600_000;

/// How long a session lasts from now on, and whether its cookie lasts only until the browser is closed.
#[derive(Clone, Copy, Debug, PartialEq, Eq)]
pub struct Expiry {
    pub seconds: u64,
    pub at_close: bool,
}

impl SessionMap {
    /// What `_session_expiry` says, as Django's `set_expiry` writes it. What is no whole number from 0
    /// on is as if it weren't there; a duration above a hundred years is cut to that.
    #[tactic(auto, unfolding(crate::specs::SessionMap::expiry_name))]
    pub fn expiry(&self) -> Expiry
        ensures { result ≡ expiry_of self.now }
    {
        match self.get(EXPIRY_NAME) {
            Some(value) => expiry_from_number(value.as_u64()),
            None => expiry_from_number(None),
        }
    }
}

fn expiry_from_number(seconds: Option<u64>) -> Expiry
    ensures { result ≡ expiry_from seconds }
{
    match seconds {
        Some(0) => Expiry {
            seconds: USUAL_SECONDS,
            at_close: true,
        },
        Some(seconds) => Expiry {
            seconds: seconds.min(MOST_SECONDS),
            at_close: false,
        },
        None => Expiry {
            seconds: USUAL_SECONDS,
            at_close: false,
        },
    }
}
