//! One whole turn of a seat.

ghost use Rattle.std.specs.Prelude.{◌≡◌, ℕ, ◌==◌, MatchBool, [], ◌∷◌, true, Some, None};
ghost use Rattle.turn_lock.specs.Steps.{waiter, holder, noter, Rests, Waits, Found};
ghost use Rattle.turn_lock.specs.Known.{known_of};
ghost use Rattle.turn_lock.specs.Turn.{Ran};

use crate::board::{Board, SeatOf};
use crate::booked::{Booked, Turn};
use std::hint::spin_loop;
use std::sync::Wait;

// How many loads come before a sleep. A short turn ends sooner than a sleep begins.
const LOOKS: u32 = 100;

impl<B: Booked> Board<B> {
    // Looks for the turn for a while.
    fn look_often(&self, seat: &mut SeatOf<B>, ticket: u64) -> u64
        requires same { seat.old.table_id ≡ self.now.table.shared.table_id }
        requires waits { Waits seat.old.me ticket }
        ensures same { seat.new.table_id ≡ seat.old.table_id }
        ensures looked { MatchBool (result == ticket) ((b : B) × Found B.means seat.old.me.0 b × (seat.new.me ≡ (holder B.means seat.old.me.0 b, (0, Some b) ∷ []))) (seat.new.me ≡ seat.old.me) }
    {
        for _ in 0..LOOKS {
            let found = self.look(seat, ticket);
            if found == ticket {
                return found;
            }
            spin_loop();
        }
        self.look(seat, ticket)
    }

    // Waits until the ticket is served.
    fn wait<R: Wait>(&self, rt: &R, seat: &mut SeatOf<B>, ticket: u64)
        requires same { seat.old.table_id ≡ self.now.table.shared.table_id }
        requires waits { Waits seat.old.me ticket }
        ensures same { seat.new.table_id ≡ seat.old.table_id }
        ensures served { (b : B) × Found B.means seat.old.me.0 b × (seat.new.me ≡ (holder B.means seat.old.me.0 b, (0, Some b) ∷ [])) }
    {
        for _ in rt.forever() {
            if self.look_often(seat, ticket) == ticket {
                return;
            }
            // No wake-up is lost. Whoever hands the turn on to this ticket first serves it, then changes its word, then
            // wakes. Where the look below still finds another ticket served, the word changes only after the mark was
            // loaded: so the sleep either finds it changed and returns, or begins before the wake.
            let mark = self.sleep_mark(ticket);
            if self.look(seat, ticket) == ticket {
                return;
            }
            self.sleep(rt, ticket, mark);
        }
        unreachable!()
    }

    // Waits for the turn, notes the word of faults, and takes the book out.
    fn enter<R: Wait>(&self, rt: &R, seat: &mut SeatOf<B>) -> (B, u64)
        requires same { seat.old.table_id ≡ self.now.table.shared.table_id }
        requires rests { Rests seat.old.me }
        ensures same { seat.new.table_id ≡ seat.old.table_id }
        ensures found { Found B.means seat.old.me.0 result.0 }
        ensures holds { (t : ℕ) × (seat.new.me ≡ (noter (holder B.means (waiter seat.old.me.0 t) result.0) result.1, (0, None) ∷ [])) }
    {
        let ticket = self.draw(seat);
        self.wait(rt, seat, ticket);
        let noted = self.note(seat);
        (self.take_out(seat), noted)
    }

    /// Waits for the turn, takes it, and hands it on.
    pub(crate) fn take_turn<R: Wait, O: Turn<B>>(
        &self,
        rt: &R,
        seat: &mut SeatOf<B>,
        turn: O,
    ) -> O::Reply
        requires same { seat.old.table_id ≡ self.now.table.shared.table_id }
        requires rests { Rests seat.old.me }
        requires owned { (B.means).owner (O.asks turn) ≡ seat.old.me.0.number }
        ensures same { seat.new.table_id ≡ seat.old.table_id }
        ensures ran { Ran B.means (O.changes turn) O.grows O.fails (O.asks turn) (known_of seat.old.table_id seat.old.me.0) result (known_of seat.new.table_id seat.new.me.0) }
        ensures rests { Rests seat.new.me }
        ensures numbers { (seat.new.me.0.reserved ≡ seat.old.me.0.reserved) × (seat.new.me.0.sealed ≡ seat.old.me.0.sealed) }
    {
        let (mut book, noted) = self.enter(rt, seat);
        let reply = turn.take(&mut book);
        // Back in its slot before the counts are raised: a step sees the new log there.
        self.put_in(seat, book);
        self.raise(seat, O::grew(&reply));
        self.fail(seat, O::failed(&reply), noted);
        self.hand_on(seat);
        reply
    }
}
