//! A lock for one value, the book, that threads change by turns, in the order in which they asked. A book may have a
//! log, and each thread then knows a beginning of it and which of its entries are its own.
//! `Shared::new` first; then `split` off a pass for each thread, `run` turns, `join` the passes and `close`.
//! What a turn did is `Ran` (`specs/Turn.antt`), and what is known of the book at the end is `Closes`
//! (`specs/Close.antt`).
#![tactic(auto)]

mod board;
mod booked;
pub mod laws;
mod pass;
mod rule;
mod seats;
mod shared;
mod sleep;
#[cfg(test)]
mod tests;
mod turns;
mod view;

pub use booked::{Booked, Turn};
pub use pass::Pass;
pub use shared::{Closing, Refused, Shared};
