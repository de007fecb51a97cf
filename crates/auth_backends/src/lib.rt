//! Logins over the rows of a store, as Django's `django.contrib.auth` does them: who a password lets in, and
//! what a login, a logout and a new password do to the session that a request holds.
//!
//! `authenticate` is asked first; `login_change` then writes its answer into the `SessionBox`. Neither does a
//! step of the store: the box says what is to be written (`specs/SessionBox.antt`).
#![tactic(auto)]

mod authentication;
pub mod laws;
mod login;
mod login_names;
mod session_box;
#[cfg(test)]
mod tests;

pub use crate::authentication::{AuthAnswer, authenticate};
pub use crate::login::{login_change, logout_change, rehash_change};
pub use crate::session_box::SessionBox;
