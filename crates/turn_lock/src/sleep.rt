//! How a thread sleeps until its ticket is served, and how it is woken.

ghost use Rattle.std.specs.Prelude.{◌≡◌, ◌<◌, ◌≤◌, ◌+◌, false, []};

use crate::board::{Board, FIRST_FLAG, SeatOf, TICKET};
use crate::booked::Booked;
use crate::rule::Wake;
use std::sync::Wait;

/// How many words there are to sleep on, after the flags. Tickets that wait are numbered in a row, and there are at
/// most as many as seats, 65. So no two threads sleep on one word.
pub(crate) const SLEEP_WORDS: usize = 65;

impl<B: Booked> Board<B> {
    // The word on which a ticket sleeps.
    fn sleep_word(&self, ticket: u64) -> usize
        ensures { (self.now.seats + 4 ≤ result) × (result < self.now.seats + 69) }
    {
        (ticket % SLEEP_WORDS as u64) as usize + self.seats as usize + FIRST_FLAG
    }

    /// What the ticket's word is before a sleep.
    pub(crate) fn sleep_mark(&self, ticket: u64) -> u64 {
        self.table.shared.peek(self.sleep_word(ticket))
    }

    /// Sleeps while the ticket's word is the mark. It may also return for no reason.
    pub(crate) fn sleep<R: Wait>(&self, rt: &R, ticket: u64, mark: u64) {
        self.table.shared.park(
            rt,
            self.sleep_word(ticket),
            (mark & u64::from(u32::MAX)) as u32,
        );
    }

    /// Wakes the thread whose ticket comes after the one that was served, where that ticket is drawn.
    pub(crate) fn wake(&self, seat: &mut SeatOf<B>, served: u64)
        requires same { seat.old.table_id ≡ self.now.table.shared.table_id }
        requires idle { (seat.old.me.1 ≡ []) × (seat.old.me.0.has_turn ≡ false) }
        ensures same { (seat.new.table_id ≡ seat.old.table_id) × (seat.new.me ≡ seat.old.me) }
    {
        let next = served.wrapping_add(1);
        // Whoever draws the next ticket after this load finds it served at its first look.
        if self.table.shared.peek(TICKET) == next {
            return;
        }
        let word = self.sleep_word(next);
        self.table.shared.fetch_add::<Wake>(seat, word, 1);
        self.table.shared.wake_all(word);
    }
}
