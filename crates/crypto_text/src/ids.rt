//! Lists of numbers below 2^64 that are owned: ids, moments, indices.

ghost use Rattle.std.specs.Prelude.{◌≡◌, IfOk, nat_eq};
ghost use Rattle.std.specs.Cmp.{partial_equiv_from_equiv};
ghost use Rattle.std.specs.Cmp.Lexicographic.{pointwise, nat_list_eq_equiv};

use std::alloc::{AllocError, Global};
use std::marker::Model;

/// Ids, moments or other numbers, seen as a list.
#[derive(Debug, Drop)]
pub struct Ids {
    ids: Vec<u64>,
}

impl Model for Ids {
    ghost use Rattle.std.specs.Prelude.{List, ℕ};

    ghost Value = { List ℕ };

    ghost view = { λ i. i.ids.items };
}

impl Ids {
    /// A copy of ids.
    pub fn of(alloc: Global, ids: &[u64]) -> Result<Ids, AllocError>
        ensures { IfOk result (λ copy. copy ≡ ids.now) }
    {
        Ok(Ids {
            ids: Vec::from_slice(alloc, ids)?,
        })
    }

    /// The same ids once more.
    pub fn copy(&self, alloc: Global) -> Result<Ids, AllocError>
        ensures { IfOk result (λ copy. copy ≡ self.now) }
    {
        Ids::of(alloc, self.items())
    }

    /// The ids to read.
    pub fn items(&self) -> &[u64]
        ensures { result.now ≡ self.now }
    {
        self.ids.as_slice()
    }

    /// Takes over a vector, and takes no memory.
    pub fn from_vec(ids: Vec<u64>) -> Ids
        ensures { result ≡ ids.items }
    {
        Ids { ids }
    }

    /// Gives the vector back, and takes no memory.
    pub fn into_vec(self) -> Vec<u64>
        ensures { result.items ≡ self }
    {
        self.ids
    }
}

impl PartialEq for Ids {
    ghost eq = { pointwise nat_eq };

    ghost laws = { partial_equiv_from_equiv nat_list_eq_equiv };

    fn eq(&self, other: &Ids) -> bool {
        self.items() == other.items()
    }
}

impl Eq for Ids {
    ghost laws = { nat_list_eq_equiv };
}
