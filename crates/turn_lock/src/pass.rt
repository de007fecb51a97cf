//! What one thread takes turns with.

ghost use Rattle.std.specs.Prelude.{◌≡◌, IsSome};
ghost use Rattle.turn_lock.specs.Known.{IsIdle, known_of};

use crate::board::SeatOf;
use crate::booked::Booked;
use std::marker::Model;

/// The right of one thread to take turns, and what it knows of the log. While a pass is out its lock can't be closed,
/// and one that was dropped stays out.
pub struct Pass<B: Booked> {
    pub(crate) seat: SeatOf<B>,
    pub(crate) number: u64,
    pub(crate) known: u64,
    pub(crate) count: u64,
}

impl<B: Booked> Model for Pass<B> {
    ghost use Rattle.turn_lock.specs.Known.{Known, IsIdle, known_of};

    ghost Value = { Known B B.Entry };

    ghost view = { λ p. known_of p.seat.table_id p.seat.me.0 };

    ghost invariant = { λ p. IsIdle p.seat.me p.number p.known p.count };
}

/// A pass, taken apart.
pub(crate) struct Parts<B: Booked> {
    pub(crate) seat: SeatOf<B>,
    pub(crate) number: u64,
    pub(crate) known: u64,
    pub(crate) count: u64,
}

impl<B: Booked> Pass<B> {
    /// The number of the pass, which owns the entries of its turns. No other pass of its lock has it.
    pub fn number(&self) -> u64
        ensures value { result ≡ self.now.number }
        ensures first { IsSome self.now.first }
    {
        self.number
    }

    pub(crate) fn into_parts(self) -> Parts<B>
        ensures table { result.seat.table_id ≡ self.table }
        ensures same { known_of result.seat.table_id result.seat.me.0 ≡ self }
        ensures idle { IsIdle result.seat.me result.number result.known result.count }
    {
        let Self {
            seat,
            number,
            known,
            count,
        } = self;
        Parts {
            seat,
            number,
            known,
            count,
        }
    }
}

impl<B: Booked> Drop for Pass<B> {
    fn drop(self) {
        let Self {
            seat: _,
            number: _,
            known: _,
            count: _,
        } = self;
    }
}
