//! The seed of random words, read from a source.

ghost use Rattle.std.specs.Prelude.{◌≡◌, ◌<◌, ℕ, List, length, take, IfOk, IfSome, OnErr, IsErrOf};
ghost use Rattle.outside.specs.Devices.{HasRead, HasEnded};
ghost use Rattle.outside.specs.Faults.{Rose};
ghost use Rattle.outside.specs.declared.seed.SeedFault.TheVariants.{Unread};

use crate::source::{Failed, Source};
use thiserror::Error;

/// Why a seed couldn't be read.
#[derive(Clone, Copy, Debug, Drop, Error, PartialEq, Eq)]
pub enum SeedFault {
    #[error("the source of the seed failed")]
    Unread,
    #[error("the source of the seed has fewer than 32 bytes")]
    TooShort,
}

impl From<Failed> for SeedFault {
    ghost from_gives = { λ _ fault. fault ≡ Unread };

    fn from(_: Failed) -> SeedFault {
        SeedFault::Unread
    }
}

/// Reads the 32 bytes of a seed, in as many calls as the source needs. Takes no memory.
pub fn seed_from<S: Source>(source: &mut S) -> Result<[u8; 32], SeedFault>
    ensures ok { IfOk result (λ seed. HasRead (S.seen source.old) (S.seen source.new) seed) }
    ensures value { IfOk result (λ seed. IfSome (S.seen source.old).left (λ left. seed ≡ take 32 left)) }
    ensures err { OnErr result ((taken : List ℕ) × (length taken < 32) × HasRead (S.seen source.old) (S.seen source.new) taken) }
    ensures unread { IsErrOf result SeedFault.Unread → Rose (S.seen source.old).faults (S.seen source.new).faults }
    ensures too_short { IsErrOf result SeedFault.TooShort → HasEnded (S.seen source.new) }
{
    let mut seed = [0; 32];
    let mut done = 0;
    while done < 32 {
        let count = source.read(&mut seed[done..])?;
        if count == 0 {
            return Err(SeedFault::TooShort);
        }
        done += count;
    }
    Ok(seed)
}
