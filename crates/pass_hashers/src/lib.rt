//! Password hashers. A password is kept as a text that names its algorithm, iterations and salt, as
//! Django 4.2 writes it: `make` makes one, `verify` asks whether a password fits, `must_update` whether
//! the text is to be made anew. `specs/PasswordText.antt` has the grammar.
#![tactic(auto)]

mod hasher;
mod last_part;
pub mod laws;
mod password_text;
mod reading;
#[cfg(test)]
mod tests;
mod verify_password;
mod weakness;

pub use crate::hasher::{
    Algo, HashFault, Hasher, MAX_ITERATIONS, algo_of, are_iterations, is_usable,
};
pub use crate::password_text::{identify, is_password_text, make, make_unusable};
pub use crate::reading::is_salt;
pub use crate::verify_password::{must_update, verify};
pub use crate::weakness::{Weak, validate};
