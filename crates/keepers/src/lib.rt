//! Where a site's tables and its audit list are kept: the trait `Keeper`, whose `commit` makes the changes of
//! one step and enters it, all or nothing, and `MemKeeper`, which keeps them in memory and reports all that it
//! holds. What a keeper holds is `Keeper.Contents`, and what its calls do to that stands on the trait.
#![tactic(auto)]

mod change;
mod keeper;
mod memory_keeper;
mod memory_rows;
mod memory_tables;
mod sorted_rows;
#[cfg(test)]
mod tests;

pub use crate::change::Change;
pub use crate::keeper::{Keeper, KeeperFault, NextIds};
pub use crate::memory_keeper::MemKeeper;
