//! The rule of the table, and what each step reports. These types are for the proofs alone.

use crate::booked::Booked;
use crate::view::View;
use atomic_table::{Join, Play, Split, TableRule};
use std::snapshot::Snapshot;

/// What is fixed when the table is made: the book as it was, and the number of seats.
#[derive(Drop)]
pub struct TableKey<B> {
    pub book: Snapshot<B>,
    pub seats: u64,
}

/// The rule.
pub struct InTurns;

impl<B: Booked> TableRule<Option<B>, View<B, B::Entry>, TableKey<B>> for InTurns {
    ghost use Rattle.turn_lock.specs.TurnRule.{TurnRule};
    ghost use Rattle.turn_lock.specs.Views.{new_view};
    ghost use Rattle.std.specs.Prelude.{Some};

    ghost holds = { λ key. TurnRule B.means key.book.value key.seats };

    ghost first = { λ key. new_view 0 (Some key.book.value) ((B.means).log key.book.value) };
}

pub struct Draw;

impl<B: Booked> Play<Option<B>, View<B, B::Entry>> for Draw {
    ghost use Rattle.turn_lock.specs.Steps.{drew};

    ghost then = { λ s m n w. drew m n w };
}

pub struct Look;

impl<B: Booked> Play<Option<B>, View<B, B::Entry>> for Look {
    ghost use Rattle.turn_lock.specs.Steps.{looked};

    ghost then = { λ s m n w. looked B.means m n w };
}

pub struct Raise;

impl<B: Booked> Play<Option<B>, View<B, B::Entry>> for Raise {
    ghost use Rattle.turn_lock.specs.Steps.{raised};

    ghost then = { λ s m n w. raised B.means m w };
}

pub struct HandOn;

impl<B: Booked> Play<Option<B>, View<B, B::Entry>> for HandOn {
    ghost use Rattle.turn_lock.specs.Steps.{passed};

    ghost then = { λ s m n w. passed B.means m w };
}

pub struct Wake;

impl<B: Booked> Play<Option<B>, View<B, B::Entry>> for Wake {
    ghost use Rattle.turn_lock.specs.Steps.{unchanged};

    ghost then = { λ s m n w. unchanged m w };
}

pub struct NoteFaults;

impl<B: Booked> Play<Option<B>, View<B, B::Entry>> for NoteFaults {
    ghost use Rattle.turn_lock.specs.Steps.{noted};

    ghost then = { λ s m n w. noted m n w };
}

pub struct Fail;

impl<B: Booked> Play<Option<B>, View<B, B::Entry>> for Fail {
    ghost use Rattle.turn_lock.specs.Steps.{counted_failure};

    ghost then = { λ s m n w. counted_failure B.means m w };
}

pub struct Number;

impl<B: Booked> Play<Option<B>, View<B, B::Entry>> for Number {
    ghost use Rattle.turn_lock.specs.Steps.{numbered};

    ghost then = { λ s m n w. numbered s.word m n w };
}

pub struct Seal;

impl<B: Booked> Play<Option<B>, View<B, B::Entry>> for Seal {
    ghost use Rattle.turn_lock.specs.Steps.{sealed_at};

    ghost then = { λ s m n w. sealed_at s.word m n w };
}

pub struct Compare;

impl<B: Booked> Play<Option<B>, View<B, B::Entry>> for Compare {
    ghost use Rattle.turn_lock.specs.Steps.{compared};

    ghost then = { λ s m n w. compared B.means m w };
}

pub struct OneOff;

impl<B: Booked> Split<View<B, B::Entry>> for OneOff {
    ghost use Rattle.turn_lock.specs.Views.{left_with, split_to};

    ghost left = { λ v. left_with v };

    ghost right = { λ v. split_to v };
}

pub struct TakenIn;

impl<B: Booked> Join<View<B, B::Entry>> for TakenIn {
    ghost use Rattle.turn_lock.specs.Views.{joining, spent_view};

    ghost both = { joining };

    ghost spent = { spent_view };
}
