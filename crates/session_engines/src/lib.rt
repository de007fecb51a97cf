//! The ledger of a site: `Ledger::step` does one operation over a keeper and enters it in the audit list. Its
//! reply and the tables that it leaves are `Step.reply_to` and `Step.state_after` of the state that it found.
#![tactic(auto)]

mod answer;
mod keys;
mod ledger;
mod load;
mod open_fault;
mod resets;
mod sessions;
mod start;
mod step;
mod step_fault;
mod users;

pub use crate::ledger::Ledger;
pub use crate::open_fault::OpenFault;
pub use crate::step_fault::StepFault;
