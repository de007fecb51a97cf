//! A start of the program over a store.

ghost use Rattle.std.specs.Prelude.{◌≡◌, IfErr, IfOk, OnOk};
ghost use Rattle.ledger_rows.specs.Opening.{IsOpening};
ghost use Rattle.keepers.specs.Keeper.{IsRefused, MayHold};
ghost use Rattle.session_engines.specs.Start.{HasStarted, IsRefusedStart, boot_entry, ready};

use crate::ledger::{MOST_ENTRIES, NUMBERS_END};
use crate::open_fault::StartFault;
use keepers::{Change, Keeper, KeeperFault};
use ledger_rows::{Engine, Entry, Op, Opening, Tag};
use std::alloc::Global;

/// Puts the opening rows into a new store, and enters a start. Gives its number.
pub fn start<K: Keeper>(
    alloc: Global,
    keeper: &mut K,
    engine: Engine,
    opening: &Opening,
) -> Result<u64, StartFault>
    requires { IsOpening opening.now }
    ensures ok { IfOk result (λ boot. HasStarted opening.now engine (K.seen keeper.old) boot (K.seen keeper.new)) }
    ensures holds { OnOk result (MayHold (K.seen keeper.new).report) }
    ensures err { IfErr result (IsRefusedStart opening.now (K.seen keeper.old) (K.seen keeper.new)) }
{
    if keeper.history_len() >= MOST_ENTRIES {
        return Err(StartFault::Full);
    }
    make_ready(alloc, keeper, opening)?;
    let boot = keeper.boots()? + 1;
    if boot >= NUMBERS_END {
        return Err(StartFault::Full);
    }
    keeper.commit(alloc, &start_entry(boot), &[Change::PutBoot(boot)])?;
    Ok(boot)
}

fn start_entry(boot: u64) -> Entry
    ensures { result ≡ boot_entry boot }
{
    let tag = Tag {
        boot,
        worker: 0,
        request: 0,
        step: 0,
    };
    Entry { tag, op: Op::Boot }
}

fn make_ready<K: Keeper>(
    alloc: Global,
    keeper: &mut K,
    opening: &Opening,
) -> Result<(), KeeperFault>
    requires { IsOpening opening.now }
    ensures ok { OnOk result (K.seen keeper.new ≡ ready opening.now (K.seen keeper.old)) }
    ensures holds { OnOk result (MayHold (K.seen keeper.new).report) }
    ensures err { IfErr result (IsRefused (K.seen keeper.old) (K.seen keeper.new)) }
{
    if keeper.is_new()? {
        keeper.install(alloc, opening)?;
    }
    Ok(())
}
