//! The forms in which a client sends a secret: bare, as in a cookie, or masked, as in a page.

ghost use Rattle.std.specs.Prelude.{◌≡◌, ◌↔◌, IfOk, IsErrOf, IsTrue, false, true};
ghost use Rattle.csrf_tokens.specs.Form.{IsFormOf, has_token_length, secret_of, text_of};
ghost use Rattle.csrf_tokens.specs.Letters.{AreLetters, are_letters};

use crate::letters::are_letters;
use crate::tokens::unmask;
use crypto_text::same;
use thiserror::Error;

/// What a client sent. It has no `Debug`, so that no secret is printed.
#[derive(Clone, Copy)]
pub enum Form {
    /// A secret.
    Bare([u8; 32]),
    /// A token.
    Masked([u8; 64]),
}

/// Why a text is no form of a secret.
#[derive(Clone, Copy, Debug, PartialEq, Eq, Error)]
pub enum TokenFault {
    #[error("the token has neither 32 nor 64 bytes")]
    Length,
    #[error("the token has other characters than letters and digits")]
    Characters,
}

/// Reads what a client sent, as Django's `_check_token_format`. A wrong length is reported before a
/// wrong character.
pub fn format_of(text: &str) -> Result<Form, TokenFault>
    ensures form { IfOk result (IsFormOf text.now) }
    ensures length { IsErrOf result TokenFault.Length ↔ (has_token_length text.now ≡ false) }
    ensures characters { IsErrOf result TokenFault.Characters ↔ ((has_token_length text.now ≡ true) × (are_letters text.now ≡ false)) }
{
    let bytes = text.as_bytes();
    let form = if let Ok(secret) = bytes.try_into() {
        Form::Bare(secret)
    } else if let Ok(token) = bytes.try_into() {
        Form::Masked(token)
    } else {
        return Err(TokenFault::Length);
    };
    if are_letters(bytes) {
        Ok(form)
    } else {
        Err(TokenFault::Characters)
    }
}

/// The secret that a form carries.
pub fn secret_of(form: &Form) -> [u8; 32]
    requires { AreLetters (text_of form.now) }
    ensures letters { AreLetters result }
    ensures value { result ≡ secret_of form.now }
{
    match form {
        Form::Bare(secret) => *secret,
        Form::Masked(token) => unmask(token),
    }
}

/// Whether a form carries the secret, as Django's `_does_token_match`.
pub fn matches(form: &Form, secret: &[u8; 32]) -> bool
    requires { AreLetters (text_of form.now) }
    ensures { IsTrue result ↔ (secret_of form.now ≡ secret.now) }
{
    same(&secret_of(form), secret)
}
