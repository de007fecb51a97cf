//! The lock as threads share it.

ghost use Rattle.std.specs.Prelude.{◌≡◌, ℕ, ◌<◌, ◌≤◌, ◌+◌, true, IfOk, IfErr, IfSome, IfNone, max, length, Some, None};
ghost use Rattle.turn_lock.specs.Known.{new_pass, numbers, joined};
ghost use Rattle.turn_lock.specs.Turn.{Ran};
ghost use Rattle.turn_lock.specs.Close.{Closes, IsLonger};

use crate::board::Board;
use crate::booked::{Booked, Turn};
use crate::pass::{Parts, Pass};
use std::alloc::Global;
use std::fmt::{self, Debug, Formatter, Write};
use std::marker::Model;
use std::sync::Wait;
use thiserror::Error;

/// A book with its lock. Threads share it by reference, each with a pass of its own.
#[derive(Drop)]
pub struct Shared<B: Booked> {
    board: Board<B>,
}

impl<B: Booked> Model for Shared<B> {
    ghost use Rattle.turn_lock.specs.Known.{Lock};

    ghost Value = { Lock };

    ghost view = { λ s. record { table = s.board.table.shared.table_id; seats = s.board.seats } };
}

/// Why there is no lock: out of memory. The book comes back.
#[derive(Drop, Error)]
#[error("out of memory")]
pub struct Refused<B> {
    pub book: B,
}

impl<B> Debug for Refused<B> {
    fn fmt<W: Write>(&self, f: &mut Formatter<W>) -> fmt::Result {
        f.write_str("Refused { .. }")
    }
}

/// Why a lock isn't closed: another pass is out. Lock and pass come back.
#[derive(Drop, Error)]
#[error("another pass is out")]
pub struct Closing<B: Booked> {
    pub shared: Shared<B>,
    pub pass: Pass<B>,
}

impl<B: Booked> Debug for Closing<B> {
    fn fmt<W: Write>(&self, f: &mut Formatter<W>) -> fmt::Result {
        f.write_str("Closing { .. }")
    }
}

impl<B: Booked> Shared<B> {
    /// A lock with room for so many passes, 1 to 65, and the first pass, whose number is 0. Refused only where it is out
    /// of memory.
    pub fn new(alloc: Global, book: B, seats: u32) -> Result<(Shared<B>, Pass<B>), Refused<B>>
        requires { (1 ≤ seats) × (seats ≤ 65) }
        ensures ok { IfOk result (λ r. (r.0.seats ≡ seats) × (r.1 ≡ new_pass r.0.table 0 (Some book) ((B.means).log book) 1)) }
        ensures err { IfErr result (λ r. r.book ≡ book) }
    {
        match Board::new(alloc, book, seats) {
            Ok((board, seat)) => Ok((
                Shared { board },
                Pass {
                    seat,
                    number: 0,
                    known: 1,
                    count: 1,
                },
            )),
            Err(book) => Err(Refused { book }),
        }
    }

    /// Splits off a pass with the least number that wasn't drawn. `None` where as many numbers were drawn as there are
    /// seats: a number is drawn once, whatever became of its pass. It takes no memory.
    pub fn split(&self, pass: &mut Pass<B>) -> Option<Pass<B>>
        requires same { pass.old.table ≡ self.now.table }
        ensures some { IfSome result (λ p. p ≡ new_pass pass.old.table p.number pass.old.first pass.old.seen (p.number + 1)) }
        ensures number { IfSome result (λ p. (p.number < self.now.seats) × (pass.old.known ≤ p.number)) }
        ensures known { IfSome result (λ p. pass.new ≡ record (pass.old) { known = p.number + 1 }) }
        ensures none { IfNone result (pass.new ≡ record (pass.old) { known = max pass.old.known self.now.seats }) }
    {
        match self.board.reserve(&mut pass.seat, pass.known) {
            Some(number) => {
                let seat = self.board.split_off(&mut pass.seat);
                pass.known = number + 1;
                Some(Pass {
                    seat,
                    number,
                    known: number + 1,
                    count: 1,
                })
            }
            None => {
                pass.known = pass.known.max(self.board.seats);
                None
            }
        }
    }

    /// Joins another pass into this one, which then has gathered the numbers of both, and keeps the entries and failed
    /// turns of the other. It knows the longer of both logs. The other's number isn't drawn again.
    pub fn join(&self, pass: &mut Pass<B>, other: Pass<B>)
        requires same { (pass.old.table ≡ self.now.table) × (other.table ≡ self.now.table) }
        ensures joined { pass.new ≡ joined pass.old other }
        ensures longer { IsLonger B.means pass.old other pass.new }
    {
        let Parts {
            seat,
            number: _,
            known,
            count,
        } = other.into_parts();
        self.board.take_in(&mut pass.seat, seat);
        pass.known = pass.known.max(known);
        pass.count += count;
    }

    /// Takes one turn, which no other turn overlaps, in the order in which threads asked. It waits for the turns
    /// before, and takes no memory of its own.
    pub fn run<R: Wait, O: Turn<B>>(&self, rt: &R, pass: &mut Pass<B>, turn: O) -> O::Reply
        requires same { pass.old.table ≡ self.now.table }
        requires owned { (B.means).owner (O.asks turn) ≡ pass.old.number }
        ensures same { pass.new.table ≡ pass.old.table }
        ensures ran { Ran B.means (O.changes turn) O.grows O.fails (O.asks turn) pass.old result pass.new }
    {
        self.board.take_turn(rt, &mut pass.seat, turn)
    }

    /// Ends the lock, and gives the book back. Refused where another pass is out: one that isn't joined into this one,
    /// even if it was dropped. It takes no memory.
    pub fn close(self, pass: Pass<B>) -> Result<B, Closing<B>>
        requires same { pass.table ≡ self.table }
        ensures ok { IfOk result (λ b. Closes B.means pass b) }
        ensures none_out { IfOk result (λ _. pass.known ≤ length (numbers pass)) }
        ensures one_out { IfErr result (λ c. (length (numbers pass) < self.seats) × (length (numbers pass) < c.pass.known)) }
        ensures err { IfErr result (λ c. (c.shared ≡ self) × (c.pass ≡ record pass { known = max pass.known (length (numbers pass) + 1) })) }
    {
        let Parts {
            mut seat,
            number,
            known,
            count,
        } = pass.into_parts();
        if self.board.seal(&mut seat, count) {
            let Self { board } = self;
            return Ok(board.finish(seat));
        }
        let pass = Pass {
            seat,
            number,
            known: known.max(count + 1),
            count,
        };
        Err(Closing { shared: self, pass })
    }
}
