//! Password hashers: algorithms, and the iterations that PBKDF2 takes.

ghost use Rattle.std.specs.Prelude.{◌≡◌, ◌↔◌, IsTrue};
ghost use Rattle.pass_hashers.specs.PasswordText.{AreIterations, IsUsable, algo_of};

use thiserror::Error;

/// The most iterations that a password text may ask for, so that no text holds a login up for long.
/// This project's own.
pub const MAX_ITERATIONS: u32 = 10_000_000;

/// A way to hash a password.
#[derive(Clone, Copy, Debug, PartialEq, Eq)]
pub enum Hasher {
    /// PBKDF2-HMAC-SHA-256, Django's `pbkdf2_sha256`.
    Pbkdf2Sha256 {
        /// From 1 to 10,000,000.
        iterations: u32,
    },
    /// PBKDF2-HMAC-SHA-1, Django's `pbkdf2_sha1`.
    Pbkdf2Sha1 {
        /// From 1 to 10,000,000.
        iterations: u32,
    },
    /// One salted MD5, Django's `md5`. It is for tests alone: it holds up no attacker.
    Md5,
}

/// A hasher without its iterations: what is installed or not.
#[derive(Clone, Copy, Debug, PartialEq, Eq)]
pub enum Algo {
    Pbkdf2Sha256,
    Pbkdf2Sha1,
    Md5,
}

/// Why a text is read as no hasher's.
#[derive(Clone, Copy, Debug, PartialEq, Eq, Error)]
pub enum HashFault {
    #[error("the text is marked as one that no password fits")]
    Unusable,
    #[error("the text begins with no known algorithm's name")]
    Unknown,
    #[error("the text begins with an algorithm's name, and the rest is malformed")]
    Malformed,
}

/// The algorithm of a hasher.
pub fn algo_of(hasher: Hasher) -> Algo
    ensures { result ≡ algo_of hasher }
{
    match hasher {
        Hasher::Pbkdf2Sha256 { .. } => Algo::Pbkdf2Sha256,
        Hasher::Pbkdf2Sha1 { .. } => Algo::Pbkdf2Sha1,
        Hasher::Md5 => Algo::Md5,
    }
}

/// Whether `make` takes the hasher: its iterations are from 1 to 10,000,000.
pub fn is_usable(hasher: Hasher) -> bool
    ensures { IsTrue result ↔ IsUsable hasher }
{
    match hasher {
        Hasher::Pbkdf2Sha256 { iterations } | Hasher::Pbkdf2Sha1 { iterations } => are_iterations(
            iterations,
        ),
        Hasher::Md5 => true,
    }
}

/// Whether PBKDF2 is done with so many iterations here.
pub fn are_iterations(iterations: u32) -> bool
    ensures { IsTrue result ↔ AreIterations iterations }
{
    1 <= iterations && iterations <= MAX_ITERATIONS
}
