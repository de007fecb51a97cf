//! What a seat of the table knows. These types are for the proofs alone: no value of them is made.

use std::collections::LinkedList;

/// What one seat knows.
pub struct View<B, E> {
    pub number: u64,
    /// The book at `new`. `None` where the seat was joined into another, and is spent.
    pub origin: Option<B>,
    pub ticket: Option<u64>,
    pub has_turn: bool,
    /// The log as it last saw it, which is a beginning of the log.
    pub seen: LinkedList<E>,
    /// The entries of its own turns.
    pub own: LinkedList<E>,
    /// How many of its turns failed.
    pub failed: u64,
    /// While it has the turn: the book's count of faults as found, or as left once the failed turn was counted.
    pub level: u64,
    /// While it has the turn: the word of faults as loaded.
    pub note: Option<u64>,
    /// What is kept of the passes that were joined into this one.
    pub beside: LinkedList<Beside<E>>,
    /// Within a join, the shorter of both logs that were seen.
    pub shorter: LinkedList<E>,
    /// A number that was drawn for a pass that is still to be split off.
    pub reserved: Option<u64>,
    /// At least so many numbers were drawn, the least ones.
    pub known: u64,
    /// Every other seat is spent, and this one takes no further step.
    pub sealed: bool,
}

/// What is kept of a pass that was joined.
pub struct Beside<E> {
    pub number: u64,
    pub own: LinkedList<E>,
    pub failed: u64,
}
