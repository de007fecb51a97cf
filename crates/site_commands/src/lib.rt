//! The administrative commands, apart from devices and the store: their words, the line that some of them read, the
//! checks before the store is opened, and the steps that each takes, by the replies. `store_command_of` reads the words and
//! `Machine` runs a command; the definition that it stands on is the script, a tree of steps (`specs/CommandScript.antt`).
#![tactic(auto)]

mod checking;
mod input_line;
pub mod laws;
mod machine;
mod refusal;
mod reply_reading;
mod said;
mod store_command;
mod task;
#[cfg(test)]
mod tests;

pub use crate::checking::fault_of;
pub use crate::input_line::{line_of, read_line};
pub use crate::machine::{Machine, Next};
pub use crate::refusal::{Refusal, code_of, refused_line};
pub use crate::said::{End, Said};
pub use crate::store_command::{
    StoreCommand, draws_words, needs_moment, reads_line, store_command_of,
};
pub use crate::task::{Task, task_of};
