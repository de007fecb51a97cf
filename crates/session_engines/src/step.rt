//! One step over a keeper.

ghost use Rattle.std.specs.Prelude.{◌≡◌, ◌≢◌, All, IfErr, IfNone, IfOk, IfSome};
ghost use Rattle.ledger_rows.specs.Step.{IsOperation};
ghost use Rattle.keepers.specs.Keeper.{Commits, IsRefused, IsSoundChange, KeepsNames, MayHold, OnlyReads};
ghost use Rattle.session_engines.specs.Ledger.{HasRoom, MayRunOut};
ghost use Rattle.session_engines.specs.Taking.{HasRunOut, HasTaken, IsAnswer};

use crate::answer::Answer;
use crate::keys::{retire_keys, rotate_key};
use crate::load::load;
use crate::resets::{check_reset, make_reset, take_mail};
use crate::sessions::{clear_expired, create, cycle, delete, save};
use crate::users::{
    add_user, find_user, perms, set_active, set_last_login, set_membership, set_password,
};
use keepers::{Keeper, KeeperFault};
use ledger_rows::{AuthKeys, Cfg, Entry, Op, Reply, Tag};
use std::alloc::Global;

/// Does an operation and enters it. The reply is made first, so that a refusal enters nothing. None where the
/// ids that the operation draws have run out. `ready` holds the keys that the last load made ready.
pub fn take<K: Keeper>(
    alloc: Global,
    keeper: &mut K,
    ready: &mut Option<AuthKeys>,
    cfg: &Cfg,
    tag: Tag,
    op: &Op,
) -> Result<Option<Reply>, KeeperFault>
    requires operation { IsOperation op.now }
    requires no_start { op.now ≢ Op.Boot }
    requires holds { MayHold (K.seen keeper.old).report }
    requires room { HasRoom (K.seen keeper.old) }
    ensures some { IfOk result (λ reply. IfSome reply (λ answer. HasTaken cfg.now (record { tag = tag; op = op.now }) (K.seen keeper.old) answer (K.seen keeper.new))) }
    ensures none { IfOk result (λ reply. IfNone reply (HasRunOut op.now (K.seen keeper.old) (K.seen keeper.new))) }
    ensures err { IfErr result (IsRefused (K.seen keeper.old) (K.seen keeper.new)) }
{
    match answer_to(alloc, keeper, ready, cfg, op)? {
        Some(answer) => Ok(Some(enter(alloc, keeper, tag, op, answer)?)),
        None => Ok(None),
    }
}

fn enter<K: Keeper>(
    alloc: Global,
    keeper: &mut K,
    tag: Tag,
    op: &Op,
    answer: Answer,
) -> Result<Reply, KeeperFault>
    requires holds { MayHold (K.seen keeper.old).report }
    requires room { HasRoom (K.seen keeper.old) }
    requires sound { All IsSoundChange answer.changes.items }
    requires names { KeepsNames answer.changes.items (K.seen keeper.old).report }
    ensures reply { IfOk result (λ reply. reply ≡ answer.reply) }
    ensures commits { Commits (record { tag = tag; op = op.now }) answer.changes.items (K.seen keeper.old) (K.seen keeper.new) result }
{
    let entry = Entry {
        tag,
        op: op.copy(alloc)?,
    };
    keeper.commit(alloc, &entry, answer.changes.as_slice())?;
    Ok(answer.reply)
}

fn answer_to<K: Keeper>(
    alloc: Global,
    keeper: &mut K,
    ready: &mut Option<AuthKeys>,
    cfg: &Cfg,
    op: &Op,
) -> Result<Option<Answer>, KeeperFault>
    requires operation { IsOperation op.now }
    requires no_start { op.now ≢ Op.Boot }
    requires holds { MayHold (K.seen keeper.old).report }
    ensures some { IfOk result (λ answer. IfSome answer (IsAnswer cfg.now op.now (K.seen keeper.old))) }
    ensures none { IfOk result (λ answer. IfNone answer (MayRunOut op.now (K.seen keeper.old).report)) }
    ensures reads { OnlyReads (K.seen keeper.old) (K.seen keeper.new) result }
{
    match op {
        Op::Boot => unreachable!(),
        Op::Load { cookie, now } => {
            load(alloc, keeper, ready, cfg, cookie.as_ref(), *now).map(Some)
        }
        Op::Create {
            key,
            payload,
            seconds,
            now,
        } => create(alloc, keeper, key, payload, *seconds, *now).map(Some),
        Op::Save {
            key,
            payload,
            seconds,
            now,
        } => save(alloc, keeper, key, payload, *seconds, *now).map(Some),
        Op::Cycle {
            old,
            key,
            payload,
            seconds,
            now,
        } => cycle(alloc, keeper, old, key, payload, *seconds, *now).map(Some),
        Op::Delete { key } => Ok(Some(delete(alloc, key)?)),
        Op::ClearExpired { now } => clear_expired(alloc, keeper, *now).map(Some),
        Op::FindUser { name } => find_user(alloc, keeper, name).map(Some),
        Op::SetPassword {
            user,
            expected,
            fresh,
        } => set_password(alloc, keeper, *user, expected, fresh).map(Some),
        Op::SetLastLogin { user, now } => set_last_login(alloc, keeper, *user, *now).map(Some),
        Op::AddUser {
            name,
            email,
            password,
            superuser,
        } => add_user(alloc, keeper, name, email, password, *superuser),
        Op::SetActive { name, active } => set_active(alloc, keeper, name, *active).map(Some),
        Op::SetMembership {
            name,
            group,
            member,
        } => set_membership(alloc, keeper, name, group, *member).map(Some),
        Op::Perms { user } => perms(alloc, keeper, *user).map(Some),
        Op::RotateKey { key } => rotate_key(alloc, keeper, key).map(Some),
        Op::RetireKeys => retire_keys(alloc, keeper).map(Some),
        Op::MakeReset { email, now } => make_reset(alloc, keeper, email, *now),
        Op::CheckReset { user, token, now } => {
            check_reset(alloc, keeper, *user, token, *now).map(Some)
        }
        Op::TakeMail => take_mail(alloc, keeper).map(Some),
    }
}
