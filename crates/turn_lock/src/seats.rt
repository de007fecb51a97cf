//! The steps that split, join and end seats.

ghost use Rattle.std.specs.Prelude.{◌≡◌, ℕ, ◌<◌, ◌≤◌, ◌+◌, true, false, [], IfSome, IfNone, max, length, IsSome, MatchBool, Some, None};
ghost use Rattle.turn_lock.specs.Views.{numbers_in, left_with, split_to, joined_view, joining};
ghost use Rattle.turn_lock.specs.Known.{known_of};
ghost use Rattle.turn_lock.specs.Steps.{reserver, knower, sealer, Rests, compared};
ghost use Rattle.turn_lock.specs.Close.{Closes, IsLonger};

use crate::board::{Board, FIRST_FLAG, SeatOf};
use crate::booked::Booked;
use crate::rule::{Compare, Number, OneOff, Seal, TakenIn};

// A load of any word reports what the rule says of the seat.
const SOME_WORD: usize = 0;

impl<B: Booked> Board<B> {
    // Draws a number, where nobody did.
    fn draw_number(&self, seat: &mut SeatOf<B>, number: u64) -> bool
        requires same { seat.old.table_id ≡ self.now.table.shared.table_id }
        requires next { Rests seat.old.me × (seat.old.me.0.reserved ≡ None) × (seat.old.me.0.known ≡ number) × (number < self.now.seats) }
        ensures same { seat.new.table_id ≡ seat.old.table_id }
        ensures numbered { MatchBool result (seat.new.me ≡ (reserver seat.old.me.0 number, [])) (seat.new.me ≡ (knower seat.old.me.0 (number + 1), [])) }
    {
        self.table
            .shared
            .fetch_or::<Number>(seat, number as usize + FIRST_FLAG, 1)
            == 0
    }

    // Reserves the next number that was not drawn.
    pub(crate) fn reserve(&self, seat: &mut SeatOf<B>, known: u64) -> Option<u64>
        requires same { seat.old.table_id ≡ self.now.table.shared.table_id }
        requires next { Rests seat.old.me × (seat.old.me.0.reserved ≡ None) × (seat.old.me.0.known ≡ known) }
        ensures same { seat.new.table_id ≡ seat.old.table_id }
        ensures some { IfSome result (λ n. (known ≤ n) × (n < self.now.seats) × (seat.new.me ≡ (reserver seat.old.me.0 n, []))) }
        ensures none { IfNone result (seat.new.me ≡ (knower seat.old.me.0 (max known self.now.seats), [])) }
    {
        for number in known..self.seats {
            if self.draw_number(seat, number) {
                return Some(number);
            }
        }
        None
    }

    // Splits off a seat with the number that was reserved.
    pub(crate) fn split_off(&self, seat: &mut SeatOf<B>) -> SeatOf<B>
        requires same { seat.old.table_id ≡ self.now.table.shared.table_id }
        requires reserved { Rests seat.old.me × IsSome seat.old.me.0.reserved × (seat.old.me.0.sealed ≡ false) }
        ensures same { seat.new.table_id ≡ seat.old.table_id }
        ensures left { seat.new.me ≡ (left_with seat.old.me.0, []) }
        ensures right { (result.table_id ≡ seat.old.table_id) × (result.me ≡ (split_to seat.old.me.0, [])) }
    {
        self.table.shared.split_seat::<OneOff>(seat)
    }

    // Takes in another seat, and keeps both logs that were seen, to be compared.
    fn merge(&self, seat: &mut SeatOf<B>, other: SeatOf<B>)
        requires same { (seat.old.table_id ≡ self.now.table.shared.table_id) × (other.table_id ≡ self.now.table.shared.table_id) }
        requires rest { Rests seat.old.me × Rests other.me × (other.me.0.reserved ≡ None) }
        ensures same { seat.new.table_id ≡ seat.old.table_id }
        ensures joining { seat.new.me ≡ (joining seat.old.me.0 other.me.0, []) }
    {
        self.table.shared.join_seat::<TakenIn>(seat, other);
    }

    // Reports that the longer log begins with the shorter one, and how many numbers are gathered at most.
    fn compare(&self, seat: &mut SeatOf<B>)
        requires same { seat.old.table_id ≡ self.now.table.shared.table_id }
        requires rests { Rests seat.old.me }
        ensures same { seat.new.table_id ≡ seat.old.table_id }
        ensures compared { compared B.means seat.old.me seat.new.me }
    {
        self.table.shared.load::<Compare>(seat, SOME_WORD);
    }

    /// Takes in another seat.
    pub(crate) fn take_in(&self, seat: &mut SeatOf<B>, other: SeatOf<B>)
        requires same { (seat.old.table_id ≡ self.now.table.shared.table_id) × (other.table_id ≡ self.now.table.shared.table_id) }
        requires rest { Rests seat.old.me × Rests other.me × (other.me.0.reserved ≡ None) }
        ensures same { seat.new.table_id ≡ seat.old.table_id }
        ensures joined { seat.new.me ≡ (joined_view seat.old.me.0 other.me.0, []) }
        ensures few { length (numbers_in (joined_view seat.old.me.0 other.me.0)) ≤ 65 }
        ensures longer { IsLonger B.means (known_of seat.old.table_id seat.old.me.0) (known_of other.table_id other.me.0) (known_of seat.new.table_id seat.new.me.0) }
    {
        self.merge(seat, other);
        self.compare(seat);
    }

    /// Seals the seat where it has gathered every number that was drawn: no other seat is left.
    pub(crate) fn seal(&self, seat: &mut SeatOf<B>, count: u64) -> bool
        requires same { seat.old.table_id ≡ self.now.table.shared.table_id }
        requires next { Rests seat.old.me × (seat.old.me.0.reserved ≡ None) × (length (numbers_in seat.old.me.0) ≡ count) }
        ensures same { seat.new.table_id ≡ seat.old.table_id }
        ensures all { MatchBool result (seat.old.me.0.known ≤ count) (count < self.now.seats) }
        ensures sealed { MatchBool result (seat.new.me ≡ (sealer seat.old.me.0, [])) (seat.new.me ≡ (knower seat.old.me.0 (max seat.old.me.0.known (count + 1)), [])) }
    {
        let last = self.seats - 1;
        let index = count.min(last);
        let flag = self
            .table
            .shared
            .load::<Seal>(seat, index as usize + FIRST_FLAG);
        flag == 0 || count > last
    }

    // Ends the table by its sealed seat.
    pub(crate) fn finish(self, seat: SeatOf<B>) -> B
        requires same { seat.table_id ≡ self.table.shared.table_id }
        requires rests { Rests seat.me × (seat.me.0.sealed ≡ true) }
        ensures { Closes B.means (known_of seat.table_id seat.me.0) result }
    {
        let Self { table, seats: _ } = self;
        let mut closed = table.close_with(seat);
        let slot = closed.take(0);
        closed.free();
        match slot {
            Some(book) => book,
            None => unreachable!(),
        }
    }
}
