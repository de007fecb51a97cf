//! Password reset tokens, as Django 4.2's `PasswordResetTokenGenerator` makes them.
//!
//! A token lets its bearer set a new password for one account. It is a moment and a MAC of the
//! account's id, password text, last login and address, and it is valid for three days. `make_token`
//! makes one under the first key of a list; `check_token` takes what any key of the list makes of the
//! row as it is, and `judge_token` gives the same verdict as a value. A link names the account by
//! `uid_text`, which `uid_read` reads.
//!
//! Moments and ages are in seconds; ask `crypto_text::is_moment` first. What a token is, and when it
//! is valid, is said by `ResetToken.token_text` and `IsValid`; the verdict as a function is
//! `TokenVerdict.token_verdict`. The laws say that rows that differ have different texts to make a MAC
//! of, that a made token is valid while its key is listed and its age allowed, that a verdict says the
//! same as `IsValid` and the other relations, and that the text of an id is read as that id. That
//! different texts have different MACs is not proved.
#![tactic(auto)]

pub mod laws;
mod moment;
mod reset_text;
mod reset_token;
#[cfg(test)]
mod tests;
mod user_id_text;

pub use crate::reset_text::ResetUser;
pub use crate::reset_token::{ResetFault, ResetVerdict, check_token, judge_token, make_token};
pub use crate::user_id_text::{uid_read, uid_text};
