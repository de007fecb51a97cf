//! Questions at a login: does the password fit the text, and is the text to be made anew?

ghost use Rattle.std.specs.Prelude.{◌≢◌, ◌↔◌, Contains, IsTrue};
ghost use Rattle.pass_hashers.specs.PasswordText.{IsOutdated, Verifies};

use crate::hasher::{Algo, Hasher, algo_of};
use crate::last_part::is_last_part;
use crate::reading::read;

/// The salt's length from which a text is kept, Django's number of bytes of a new salt.
const SALT_SIZE: usize = 22;

/// Whether a password is the one that a text was made of, by a hasher that is installed. A text out of
/// form, or an unusable one, fits no password.
pub fn verify(password: &str, text: &str, installed: &[Algo]) -> bool
    ensures { IsTrue result ↔ Verifies password.now text.now installed.now }
{
    match read(text) {
        Ok(parts) => {
            is_installed(algo_of(parts.hasher), installed)
                && is_last_part(parts.last, parts.hasher, password, parts.salt)
        }
        Err(_) => false,
    }
}

/// Whether a text that fits its password is to be made anew by the preferred hasher, as Django's
/// `must_update`. False for a text out of form, which no login gets past.
pub fn must_update(text: &str, preferred: Hasher) -> bool
    ensures { IsTrue result ↔ IsOutdated text.now preferred }
{
    match read(text) {
        Ok(parts) => differs(parts.hasher, preferred) || parts.salt.len() < SALT_SIZE,
        Err(_) => false,
    }
}

fn is_installed(algo: Algo, installed: &[Algo]) -> bool
    ensures { IsTrue result ↔ Contains installed.now algo }
{
    installed.contains(&algo)
}

fn differs(hasher: Hasher, preferred: Hasher) -> bool
    ensures { IsTrue result ↔ (hasher ≢ preferred) }
{
    hasher != preferred
}
