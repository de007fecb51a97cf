//! The table of one book: its words, its slot, and the steps of one turn.

ghost use Rattle.std.specs.Prelude.{◌≡◌, ℕ, ◌<◌, ◌≤◌, ◌+◌, ◌%◌, ◌^◌, ◌==◌, true, false, [], ◌∷◌, IfOk, IfErr, MatchBool, IsSome, Some, None};
ghost use Rattle.turn_lock.specs.Views.{new_view};
ghost use Rattle.turn_lock.specs.Steps.{waiter, holder, noter, resting, Rests, Waits, Found, Adds, raised, Fails, counted_failure, IsReady, IsOwn};

use crate::booked::Booked;
use crate::rule::{Draw, Fail, HandOn, InTurns, Look, NoteFaults, Raise, TableKey};
use crate::sleep::SLEEP_WORDS;
use crate::view::View;
use atomic_table::{Seat, Table};
use std::alloc::Global;
use std::snapshot::Snapshot;

// The next ticket to draw.
pub(crate) const TICKET: usize = 0;

// The ticket that has the turn, or is next to have it.
const SERVING: usize = 1;

// How many entries were appended.
const COUNT: usize = 2;

// How many turns failed.
const FAULTS: usize = 3;

// From here on, a flag for each number that was drawn. The words to sleep on come after the flags.
pub(crate) const FIRST_FLAG: usize = 4;

type Slots<B> = Table<Option<B>, View<B, <B as Booked>::Entry>, TableKey<B>, InTurns, Global>;

/// What one thread steps with. Clauses see what it knows as `me.0`, and what it holds as `me.1`.
pub(crate) type SeatOf<B> = Seat<Option<B>, View<B, <B as Booked>::Entry>>;

/// Words and slot of one book.
#[derive(Drop)]
pub(crate) struct Board<B: Booked> {
    pub(crate) table: Slots<B>,
    pub(crate) seats: u64,
    ghost sized: { (table.shared.table_id.words ≡ seats + 69) × (table.shared.table_id.slots ≡ 1) },
    ghost some_seats: { (1 ≤ seats) × (seats ≤ 65) × (table.shared.key.seats ≡ seats) },
}

impl<B: Booked> Board<B> {
    /// Lays out the words and the slot. Out of memory, the book comes back.
    pub(crate) fn new(alloc: Global, book: B, seats: u32) -> Result<(Board<B>, SeatOf<B>), B>
        requires { (1 ≤ seats) × (seats ≤ 65) }
        ensures ok { IfOk result (λ r. (r.1.table_id ≡ r.0.table.shared.table_id) × (r.0.seats ≡ seats) × (r.1.me ≡ (new_view 0 (Some book) ((B.means).log book), []))) }
        ensures err { IfErr result (λ b. b ≡ book) }
    {
        let about = TableKey {
            book: Snapshot::of(&book),
            seats: u64::from(seats),
        };
        let Ok(mut words) = Vec::from_elem(alloc, 0u64, seats as usize + FIRST_FLAG + SLEEP_WORDS)
        else {
            return Err(book);
        };
        words[FIRST_FLAG] = 1;
        let mut slots = Vec::new(alloc);
        if let Err(failed) = slots.push(Some(book)) {
            slots.destroy_empty();
            return Err(book_of(failed.value));
        }
        match Table::new(alloc, words.as_slice(), slots, &about) {
            Ok((table, seat)) => Ok((
                Board {
                    table,
                    seats: u64::from(seats),
                },
                seat,
            )),
            Err(back) => {
                let mut slots = back.slots;
                let first = slots.pop();
                slots.destroy_empty();
                match first {
                    Some(slot) => Err(book_of(slot)),
                    None => unreachable!(),
                }
            }
        }
    }

    // Draws a ticket.
    pub(crate) fn draw(&self, seat: &mut SeatOf<B>) -> u64
        requires same { seat.old.table_id ≡ self.now.table.shared.table_id }
        requires rests { Rests seat.old.me }
        ensures same { seat.new.table_id ≡ seat.old.table_id }
        ensures drawn { (t : ℕ) × (result ≡ t % 2 ^ 64) × (seat.new.me ≡ (waiter seat.old.me.0 t, [])) }
    {
        self.table.shared.fetch_add::<Draw>(seat, TICKET, 1)
    }

    // Loads which ticket is served. Where it is the seat's own, the seat then has the turn.
    pub(crate) fn look(&self, seat: &mut SeatOf<B>, ticket: u64) -> u64
        requires same { seat.old.table_id ≡ self.now.table.shared.table_id }
        requires waits { Waits seat.old.me ticket }
        ensures same { seat.new.table_id ≡ seat.old.table_id }
        ensures looked { MatchBool (result == ticket) ((b : B) × Found B.means seat.old.me.0 b × (seat.new.me ≡ (holder B.means seat.old.me.0 b, (0, Some b) ∷ []))) (seat.new.me ≡ seat.old.me) }
    {
        self.table.shared.load::<Look>(seat, SERVING)
    }

    // Notes the word of faults.
    pub(crate) fn note(&self, seat: &mut SeatOf<B>) -> u64
        requires same { seat.old.table_id ≡ self.now.table.shared.table_id }
        requires turn { seat.old.me.0.has_turn ≡ true }
        ensures same { seat.new.table_id ≡ seat.old.table_id }
        ensures noted { seat.new.me ≡ (noter seat.old.me.0 result, seat.old.me.1) }
    {
        self.table.shared.load::<NoteFaults>(seat, FAULTS)
    }

    // Takes the book out of the slot that the seat holds.
    pub(crate) fn take_out(&self, seat: &mut SeatOf<B>) -> B
        requires same { seat.old.table_id ≡ self.now.table.shared.table_id }
        requires full { (b : B) × (seat.old.me.1 ≡ (0, Some b) ∷ []) }
        ensures same { seat.new.table_id ≡ seat.old.table_id }
        ensures taken { seat.old.me.1 ≡ (0, Some result) ∷ [] }
        ensures left { seat.new.me ≡ (seat.old.me.0, (0, None) ∷ []) }
    {
        match self.table.shared.exchange(seat, 0, None) {
            Some(book) => book,
            None => unreachable!(),
        }
    }

    // Puts the book back into the slot, which the seat still holds.
    pub(crate) fn put_in(&self, seat: &mut SeatOf<B>, book: B)
        requires same { seat.old.table_id ≡ self.now.table.shared.table_id }
        requires out { seat.old.me.1 ≡ (0, None) ∷ [] }
        ensures same { seat.new.table_id ≡ seat.old.table_id }
        ensures put { seat.new.me ≡ (seat.old.me.0, (0, Some book) ∷ []) }
    {
        match self.table.shared.exchange(seat, 0, Some(book)) {
            None => {}
            Some(_) => unreachable!(),
        }
    }

    // Where the log grew, raises the count. The seat then knows the new log.
    pub(crate) fn raise(&self, seat: &mut SeatOf<B>, grew: bool)
        requires same { seat.old.table_id ≡ self.now.table.shared.table_id }
        requires adds { grew ≡ true → Adds B.means seat.old.me }
        ensures same { seat.new.table_id ≡ seat.old.table_id }
        ensures raised { MatchBool grew (raised B.means seat.old.me seat.new.me) (seat.new.me ≡ seat.old.me) }
    {
        if grew {
            self.table.shared.fetch_add::<Raise>(seat, COUNT, 1);
        }
    }

    // Where the turn failed, raises the word of faults to one more than was noted, or to its end.
    pub(crate) fn fail(&self, seat: &mut SeatOf<B>, failed: bool, noted: u64)
        requires same { seat.old.table_id ≡ self.now.table.shared.table_id }
        requires fails { failed ≡ true → Fails B.means seat.old.me noted }
        ensures same { seat.new.table_id ≡ seat.old.table_id }
        ensures counted_failure { MatchBool failed (counted_failure B.means seat.old.me seat.new.me) (seat.new.me ≡ seat.old.me) }
    {
        if failed {
            let up = noted.saturating_add(1);
            self.table.shared.fetch_max::<Fail>(seat, FAULTS, up);
        }
    }

    // Serves the next ticket. The result is the one that was served.
    fn serve_next(&self, seat: &mut SeatOf<B>) -> u64
        requires same { seat.old.table_id ≡ self.now.table.shared.table_id }
        requires ready { IsReady B.means seat.old.me }
        ensures same { seat.new.table_id ≡ seat.old.table_id }
        ensures rests { seat.new.me ≡ (resting seat.old.me.0, []) }
        ensures own { IsOwn B.means seat.old.me.0 }
    {
        self.table.shared.fetch_add::<HandOn>(seat, SERVING, 1)
    }

    /// Hands the turn on.
    pub(crate) fn hand_on(&self, seat: &mut SeatOf<B>)
        requires same { seat.old.table_id ≡ self.now.table.shared.table_id }
        requires ready { IsReady B.means seat.old.me }
        ensures same { seat.new.table_id ≡ seat.old.table_id }
        ensures rests { seat.new.me ≡ (resting seat.old.me.0, []) }
        ensures own { IsOwn B.means seat.old.me.0 }
    {
        let served = self.serve_next(seat);
        self.wake(seat, served);
    }
}

fn book_of<B>(slot: Option<B>) -> B
    requires { IsSome slot }
    ensures { slot ≡ Some result }
{
    match slot {
        Some(book) => book,
        None => unreachable!(),
    }
}
