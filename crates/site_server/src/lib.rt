//! A site's server: `manage` runs one command of the program, and `serve_solo` serves one connection over a ledger. What
//! is said on a connection is `Transcript.IsTranscript`, and what its steps did to the store is `OwnLedger.HaveTurned`; both
//! speak of one list of exchanges (`OneWorker.Serves`).
#![tactic(auto)]

mod command;
mod connection;
mod driving;
pub mod laws;
mod output;
mod own_ledger;
mod signing;
mod site;
mod status;
mod step_taker;
#[cfg(test)]
mod tests;

pub use crate::command::{Command, command_of};
pub use crate::connection::{End, Report, serve, serve_solo};
pub use crate::site::{manage, manage_seeded};
pub use crate::status::Status;
pub use crate::step_taker::StepTaker;
