//! Why a store couldn't be opened.

ghost use Rattle.std.specs.Prelude.{◌≡◌};
ghost use Rattle.session_engines.specs.OpenFault.{cause_of, keeper_of};

use keepers::KeeperFault;

/// Why a store couldn't be opened, with its keeper. The opening rows may have been put into a new store.
#[derive(Drop)]
pub enum OpenFault<K> {
    /// The keeper failed.
    Keeper { keeper: K },
    /// The audit list has 2^62 entries, or there were as many starts as can be numbered.
    Full { keeper: K },
    Memory { keeper: K },
}

/// Why a start couldn't be entered.
#[derive(Clone, Copy, Debug, PartialEq, Eq)]
pub enum StartFault {
    Keeper,
    Full,
    Memory,
}

impl StartFault {
    /// The same with the keeper.
    pub fn with_keeper<K>(self, keeper: K) -> OpenFault<K>
        ensures keeper { keeper_of result ≡ keeper }
        ensures cause { cause_of result ≡ self }
    {
        match self {
            StartFault::Keeper => OpenFault::Keeper { keeper },
            StartFault::Full => OpenFault::Full { keeper },
            StartFault::Memory => OpenFault::Memory { keeper },
        }
    }
}

impl From<KeeperFault> for StartFault {
    ghost use Rattle.std.specs.Prelude.{◌≡◌};
    ghost use Rattle.session_engines.specs.OpenFault.{start_fault_of};

    ghost from_gives = { λ fault start. start ≡ start_fault_of fault };

    fn from(fault: KeeperFault) -> StartFault {
        match fault {
            KeeperFault::Failed => StartFault::Keeper,
            KeeperFault::Memory => StartFault::Memory,
        }
    }
}
