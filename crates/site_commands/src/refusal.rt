//! Why a command is refused.

ghost use Rattle.std.specs.Prelude.{◌≡◌, IfOk, string_bytes};
ghost use Rattle.site_commands.specs.Refusal.{code_of, refused_line};

use std::alloc::{AllocError, Global};

/// Why a command is refused: the first seven before the store is opened, the others by a reply of the store.
#[derive(Clone, Copy, Debug, PartialEq, Eq)]
pub enum Refusal {
    /// The input's first line is too long, or isn't UTF-8.
    BadLine,
    /// The name can't be a user's.
    BadName,
    /// The address isn't well formed.
    BadEmail,
    /// The password has fewer than 8 characters.
    TooShort,
    /// The password has digits alone.
    AllDigits,
    /// The password is on the list of common passwords.
    Common,
    /// The key is empty, or longer than 1,024 bytes.
    BadKey,
    /// There is a user of the name.
    NameTaken,
    /// There is no user of the name.
    NoUser,
    /// There is no group of the name.
    NoGroup,
    /// The user was given another password in between.
    ChangedMeanwhile,
    /// The key is among the keys.
    KeyHeld,
    /// There are 16 keys.
    TooManyKeys,
}

/// The code that a refusal is written with.
pub fn code_of(refusal: Refusal) -> &'static str
    ensures { result.now ≡ code_of refusal }
{
    match refusal {
        Refusal::BadLine => "bad-line",
        Refusal::BadName => "bad-name",
        Refusal::BadEmail => "bad-email",
        Refusal::TooShort => "too-short",
        Refusal::AllDigits => "all-digits",
        Refusal::Common => "common",
        Refusal::BadKey => "bad-key",
        Refusal::NameTaken => "name-taken",
        Refusal::NoUser => "no-user",
        Refusal::NoGroup => "no-group",
        Refusal::ChangedMeanwhile => "changed-meanwhile",
        Refusal::KeyHeld => "key-held",
        Refusal::TooManyKeys => "too-many-keys",
    }
}

/// The line that is written for a code.
#[tactic(auto, unfolding(crate::specs::Refusal::refused_line))]
pub fn refused_line(alloc: Global, code: &str) -> Result<String, AllocError>
    ensures { IfOk result (λ text. string_bytes text ≡ refused_line code.now) }
{
    format!(in alloc; "refused={code}\n")
}
