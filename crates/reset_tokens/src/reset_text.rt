//! What a reset token is a MAC of.

ghost use Rattle.std.specs.Prelude.{◌≡◌, IfOk, IfSome, string_bytes};
ghost use Rattle.crypto_text.specs.Moment.{IsMoment};
ghost use Rattle.reset_tokens.specs.ResetToken.{login_text, reset_text, row_of};

use crate::moment::moment_text;
use std::alloc::{AllocError, Global};

/// What a reset token depends on of an account's row. It has no `Debug`, so that no password text is printed.
#[derive(Clone, Copy)]
pub struct ResetUser<'a> {
    pub id: u64,
    /// The password text, as `pass_hashers` makes it.
    pub password: &'a str,
    /// A moment, or `None` where there was no login yet.
    pub last_login: Option<u64>,
    pub email: &'a str,
}

/// The reset text of a row at a number: the seconds since 2001.
pub(crate) fn reset_text(
    alloc: Global,
    user: &ResetUser<'_>,
    number: u64,
) -> Result<String, AllocError>
    requires { IfSome user.now.last_login IsMoment }
    ensures { IfOk result (λ text. string_bytes text ≡ reset_text (row_of user.now) number) }
{
    let login = login_text(alloc, user.last_login)?;
    let id = user.id;
    let password = user.password;
    let email = user.email;
    format!(in alloc; "{id}{password}{login}{number}{email}")
}

fn login_text(alloc: Global, last_login: Option<u64>) -> Result<String, AllocError>
    requires { IfSome last_login IsMoment }
    ensures { IfOk result (λ text. string_bytes text ≡ login_text last_login) }
{
    match last_login {
        Some(moment) => moment_text(alloc, moment),
        None => Ok(String::new(alloc)),
    }
}
