//! The operations on the signing keys: `RotateKey` and `RetireKeys`.

ghost use Rattle.std.specs.Prelude.{◌≡◌, IfOk};
ghost use Rattle.signing_core.specs.Keys.{HasKeyLength};
ghost use Rattle.ledger_rows.specs.declared.rows.Cfg.{Cfg as CfgView};
ghost use Rattle.keepers.specs.Keeper.{MayHold, OnlyReads};
ghost use Rattle.session_engines.specs.KeyChange.{IsRotation};
ghost use Rattle.session_engines.specs.Taking.{IsAnswer};

use crate::answer::Answer;
use crypto_text::Bytes;
use keepers::{Change, Keeper, KeeperFault};
use ledger_rows::{Op, Reply};
use signing_core::{Keys, RotateFault};
use std::alloc::{AllocError, Global};

/// Makes a key the first, unless it is among the keys or there are 16.
pub fn rotate_key<K: Keeper>(
    alloc: Global,
    keeper: &mut K,
    key: &Bytes,
) -> Result<Answer, KeeperFault>
    requires holds { MayHold (K.seen keeper.old).report }
    requires key { HasKeyLength key.now }
    ensures ok { (cfg : CfgView) → IfOk result (IsAnswer cfg (Op.RotateKey key.now) (K.seen keeper.old)) }
    ensures reads { OnlyReads (K.seen keeper.old) (K.seen keeper.new) result }
{
    let keys = keeper.keys(alloc)?;
    Ok(rotation(alloc, &keys, key.items())?)
}

/// Gives up all keys but the first.
pub fn retire_keys<K: Keeper>(alloc: Global, keeper: &mut K) -> Result<Answer, KeeperFault>
    requires { MayHold (K.seen keeper.old).report }
    ensures ok { (cfg : CfgView) → IfOk result (IsAnswer cfg Op.RetireKeys (K.seen keeper.old)) }
    ensures reads { OnlyReads (K.seen keeper.old) (K.seen keeper.new) result }
{
    let keys = keeper.keys(alloc)?;
    let retired = keys.retired(alloc)?;
    Ok(Answer::changed(alloc, Reply::Done, Change::PutKeys(retired))?)
}

fn rotation(alloc: Global, keys: &Keys, key: &[u8]) -> Result<Answer, AllocError>
    requires { HasKeyLength key.now }
    ensures { IfOk result (IsRotation keys.now key.now) }
{
    match keys.rotated(alloc, key) {
        Ok(rotated) => Answer::changed(alloc, Reply::Done, Change::PutKeys(rotated)),
        Err(RotateFault::Held) => Ok(Answer::unchanged(alloc, Reply::KeyHeld)),
        Err(RotateFault::TooMany) => Ok(Answer::unchanged(alloc, Reply::TooManyKeys)),
        Err(RotateFault::Length) => unreachable!(),
        Err(RotateFault::Memory) => Err(AllocError),
    }
}
