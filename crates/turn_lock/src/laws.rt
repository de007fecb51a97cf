//! A law about the definitions of this crate. It is a function that does nothing: its clause is the law, so the check of
//! the crate proves it.

ghost use Rattle.turn_lock.specs.Laws.{EntriesOfTwoInterleave};

use crate::booked::Booked;

/// Entries that two passes made are an interleaving of those of the one and those of the other.
pub fn entries_of_two_interleave<B: Booked>()
    ensures { EntriesOfTwoInterleave (B.means).owner }
{}
