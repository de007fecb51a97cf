//! Requests: what each asks of the store, step by step, and what its response is. `Machine` runs a request; the
//! definition that it stands on is the script, a tree of steps (`specs/Handler.antt`).
#![tactic(auto)]

mod call;
mod facts;
pub mod laws;
mod login;
mod login_form;
mod logout;
mod machine;
mod new_password;
mod page;
mod password_change;
mod progress;
mod random_texts;
mod reply_hashes;
mod session_entries;
mod session_write;
#[cfg(test)]
mod tests;
mod view;
mod visit;
mod whoami;

pub use crate::machine::{Machine, Next};
pub use crate::reply_hashes::hash_is_text;
