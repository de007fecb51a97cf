//! A password text is made under a fresh salt.

ghost use Rattle.std.specs.Prelude.{◌≤◌, [], ◌∷◌, IfOk, length};
ghost use Rattle.pass_hashers.specs.PasswordText.{IsSalt, IsUsable, Verifies, algo_of};

use crypto_text::{Alphabet, Text, text_of};
use pass_hashers::laws::{made_text_verifies, random_letters_are_salt};
use pass_hashers::{Hasher, make};
use std::alloc::{AllocError, Global};

/// A text that the password verifies, under a salt of one letter a random word.
pub(crate) fn password_text(
    alloc: Global,
    hasher: Hasher,
    password: &str,
    words: &[u32],
) -> Result<Text, AllocError>
    requires usable { IsUsable hasher }
    requires some { 1 ≤ length words.now }
    requires most { length words.now ≤ 64 }
    ensures { IfOk result (λ text. Verifies password.now text (algo_of hasher ∷ [])) }
{
    made_text_verifies();
    let salt = salt_of(alloc, words)?;
    let text = make(alloc, hasher, password, salt.as_str())?;
    Ok(text)
}

fn salt_of(alloc: Global, words: &[u32]) -> Result<Text, AllocError>
    requires some { 1 ≤ length words.now }
    requires most { length words.now ≤ 64 }
    ensures { IfOk result IsSalt }
{
    random_letters_are_salt();
    let salt = text_of(alloc, words, Alphabet::Letters62)?;
    Ok(salt)
}
