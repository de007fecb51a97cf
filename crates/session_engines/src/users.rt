//! The operations on users: `FindUser`, `SetPassword`, `SetLastLogin`, `AddUser`, `SetActive`,
//! `SetMembership` and `Perms`.

ghost use Rattle.std.specs.Prelude.{◌≡◌, ◌≤◌, [], ◌∷◌, All, IfNone, IfOk, IfSome, Some, insert, length};
ghost use Rattle.crypto_text.specs.Moment.{IsMoment};
ghost use Rattle.pass_hashers.specs.PasswordText.{IsPasswordText};
ghost use Rattle.permissions.specs.PermissionSet.{permissions_of};
ghost use Rattle.signing_core.specs.Keys.{key_at};
ghost use Rattle.ledger_rows.specs.Admission.{auth_hash};
ghost use Rattle.ledger_rows.specs.Replies.{IsSoundRead};
ghost use Rattle.ledger_rows.specs.Rows.{IsNumber, IsSoundGroup, IsSoundUser};
ghost use Rattle.ledger_rows.specs.Step.{IsNewUser, read_in, user_read};
ghost use Rattle.ledger_rows.specs.Tables.{group_named, user_named};
ghost use Rattle.ledger_rows.specs.UserSteps.{holder_of, id_of_group, membership, new_user, password_reply, with_id, with_membership, with_password, without_id};
ghost use Rattle.ledger_rows.specs.declared.rows.Cfg.{Cfg as CfgView};
ghost use Rattle.keepers.specs.Keeper.{Answers, MayHold, OnHolding, OnlyReads};
ghost use Rattle.session_engines.specs.Ledger.{MayRunOut};
ghost use Rattle.session_engines.specs.Taking.{IsAnswer};
ghost use Rattle.session_engines.specs.UserChange.{IsPasswordReply, repassword_changes};

use crate::answer::Answer;
use crate::ledger::NUMBERS_END;
use crypto_text::{Ids, Text, same};
use keepers::{Change, Keeper, KeeperFault};
use ledger_rows::{Op, Reply, UserRead, UserRow, session_auth_text};
use permissions::{GroupRow, Holder, PermRow, PermSet, all_permissions};
use signing_core::Keys;
use std::alloc::{AllocError, Global};
use std::cmp::Ordering;

/// Finds the user of a name: one look-up, and the keys where there is one.
pub fn find_user<K: Keeper>(
    alloc: Global,
    keeper: &mut K,
    name: &Text,
) -> Result<Answer, KeeperFault>
    requires { MayHold (K.seen keeper.old).report }
    ensures ok { (cfg : CfgView) → IfOk result (IsAnswer cfg (Op.FindUser name.now) (K.seen keeper.old)) }
    ensures reads { OnlyReads (K.seen keeper.old) (K.seen keeper.new) result }
{
    let read = read_named(alloc, keeper, name)?;
    Ok(Answer::unchanged(alloc, Reply::User { read }))
}

/// Puts another password text in place of the expected one, unless the present one is another.
pub fn set_password<K: Keeper>(
    alloc: Global,
    keeper: &mut K,
    user: u64,
    expected: &Text,
    fresh: &Text,
) -> Result<Answer, KeeperFault>
    requires holds { MayHold (K.seen keeper.old).report }
    requires fresh { IsPasswordText fresh.now }
    ensures ok { (cfg : CfgView) → IfOk result (IsAnswer cfg (Op.SetPassword user expected.now fresh.now) (K.seen keeper.old)) }
    ensures reads { OnlyReads (K.seen keeper.old) (K.seen keeper.new) result }
{
    match keeper.user_by_id(alloc, user)? {
        Some(row) => repassword(alloc, keeper, row, expected, fresh),
        None => Ok(Answer::unchanged(alloc, Reply::NoRow)),
    }
}

/// Keeps the moment of a login.
pub fn set_last_login<K: Keeper>(
    alloc: Global,
    keeper: &mut K,
    user: u64,
    now: u64,
) -> Result<Answer, KeeperFault>
    requires holds { MayHold (K.seen keeper.old).report }
    requires now { IsMoment now }
    ensures ok { (cfg : CfgView) → IfOk result (IsAnswer cfg (Op.SetLastLogin user now) (K.seen keeper.old)) }
    ensures reads { OnlyReads (K.seen keeper.old) (K.seen keeper.new) result }
{
    match keeper.user_by_id(alloc, user)? {
        Some(mut row) => {
            row.last_login = Some(now);
            Ok(Answer::changed(alloc, Reply::Done, Change::PutUser(row))?)
        }
        None => Ok(Answer::unchanged(alloc, Reply::NoRow)),
    }
}

/// Makes an active user, unless there is one of the name; none where the ids have run out.
pub fn add_user<K: Keeper>(
    alloc: Global,
    keeper: &mut K,
    name: &Text,
    email: &Text,
    password: &Text,
    superuser: bool,
) -> Result<Option<Answer>, KeeperFault>
    requires holds { MayHold (K.seen keeper.old).report }
    requires new { IsNewUser name.now email.now password.now }
    ensures some { (cfg : CfgView) → IfOk result (λ answer. IfSome answer (IsAnswer cfg (Op.AddUser name.now email.now password.now superuser) (K.seen keeper.old))) }
    ensures none { IfOk result (λ answer. IfNone answer (MayRunOut (Op.AddUser name.now email.now password.now superuser) (K.seen keeper.old).report)) }
    ensures reads { OnlyReads (K.seen keeper.old) (K.seen keeper.new) result }
{
    if keeper.user_by_name(alloc, name.as_str())?.is_some() {
        return Ok(Some(Answer::unchanged(alloc, Reply::NameTaken)));
    }
    let id = keeper.next_ids()?.user;
    if id >= NUMBERS_END {
        return Ok(None);
    }
    let row = new_user(alloc, id, name, email, password, superuser)?;
    let answer = Answer::changed(alloc, Reply::Added { id }, Change::PutUser(row))?;
    Ok(Some(answer))
}

/// Says of a user whether he is active.
pub fn set_active<K: Keeper>(
    alloc: Global,
    keeper: &mut K,
    name: &Text,
    active: bool,
) -> Result<Answer, KeeperFault>
    requires { MayHold (K.seen keeper.old).report }
    ensures ok { (cfg : CfgView) → IfOk result (IsAnswer cfg (Op.SetActive name.now active) (K.seen keeper.old)) }
    ensures reads { OnlyReads (K.seen keeper.old) (K.seen keeper.new) result }
{
    match keeper.user_by_name(alloc, name.as_str())? {
        Some(mut row) => {
            row.active = active;
            Ok(Answer::changed(alloc, Reply::Done, Change::PutUser(row))?)
        }
        None => Ok(Answer::unchanged(alloc, Reply::NoRow)),
    }
}

/// Puts a user into a group, or takes him out of it.
pub fn set_membership<K: Keeper>(
    alloc: Global,
    keeper: &mut K,
    name: &Text,
    group: &Text,
    member: bool,
) -> Result<Answer, KeeperFault>
    requires { MayHold (K.seen keeper.old).report }
    ensures ok { (cfg : CfgView) → IfOk result (IsAnswer cfg (Op.SetMembership name.now group.now member) (K.seen keeper.old)) }
    ensures reads { OnlyReads (K.seen keeper.old) (K.seen keeper.new) result }
{
    let Some(row) = keeper.user_by_name(alloc, name.as_str())? else {
        return Ok(Answer::unchanged(alloc, Reply::NoRow));
    };
    match group_id(alloc, keeper, group)? {
        Some(id) => Ok(regrouped(alloc, row, id, member)?),
        None => Ok(Answer::unchanged(alloc, Reply::NoGroup)),
    }
}

/// Finds what a user may do.
pub fn perms<K: Keeper>(alloc: Global, keeper: &mut K, user: u64) -> Result<Answer, KeeperFault>
    requires { MayHold (K.seen keeper.old).report }
    ensures ok { (cfg : CfgView) → IfOk result (IsAnswer cfg (Op.Perms user) (K.seen keeper.old)) }
    ensures reads { OnlyReads (K.seen keeper.old) (K.seen keeper.new) result }
{
    let Some(row) = keeper.user_by_id(alloc, user)? else {
        return Ok(Answer::unchanged(alloc, Reply::NoRow));
    };
    let groups = keeper.groups(alloc)?;
    let perms = keeper.perms(alloc)?;
    let set = permissions_of(alloc, &row, groups.items(), perms.items())?;
    Ok(Answer::unchanged(alloc, Reply::Perms { set }))
}

fn read_named<K: Keeper>(
    alloc: Global,
    keeper: &mut K,
    name: &Text,
) -> Result<Option<UserRead>, KeeperFault>
    requires { MayHold (K.seen keeper.old).report }
    ensures value { Answers (K.seen keeper.old) result (λ tables. read_in tables.keys (user_named tables.users name.now)) }
    ensures sound { IfOk result IsSoundRead }
    ensures reads { OnlyReads (K.seen keeper.old) (K.seen keeper.new) result }
{
    match keeper.user_by_name(alloc, name.as_str())? {
        Some(row) => Ok(Some(read_user(alloc, keeper, row)?)),
        None => Ok(None),
    }
}

fn read_user<K: Keeper>(
    alloc: Global,
    keeper: &mut K,
    row: UserRow,
) -> Result<UserRead, KeeperFault>
    requires { MayHold (K.seen keeper.old).report }
    ensures value { Answers (K.seen keeper.old) result (λ tables. user_read tables.keys row) }
    ensures row { IfOk result (λ read. read.row ≡ row) }
    ensures reads { OnlyReads (K.seen keeper.old) (K.seen keeper.new) result }
{
    let keys = keeper.keys(alloc)?;
    Ok(user_read(alloc, &keys, row)?)
}

/// A user with the hash that a session of his is to keep.
pub fn user_read(alloc: Global, keys: &Keys, row: UserRow) -> Result<UserRead, AllocError>
    ensures { IfOk result (λ read. read ≡ user_read keys.now row) }
{
    let auth_hash = session_auth_text(alloc, row.password.as_str(), keys.first())?;
    Ok(UserRead { row, auth_hash })
}

// The row's password text is compared before the keys are read.
fn repassword<K: Keeper>(
    alloc: Global,
    keeper: &mut K,
    row: UserRow,
    expected: &Text,
    fresh: &Text,
) -> Result<Answer, KeeperFault>
    requires holds { MayHold (K.seen keeper.old).report }
    requires sound { IsSoundUser row }
    ensures reply { IfOk result (λ answer. OnHolding (K.seen keeper.old).report (λ contents. answer.reply ≡ password_reply contents.tables.keys (Some row) expected.now fresh.now)) }
    ensures kind { IfOk result (λ answer. IsPasswordReply answer.reply) }
    ensures changes { IfOk result (λ answer. answer.changes.items ≡ repassword_changes row expected.now fresh.now) }
    ensures reads { OnlyReads (K.seen keeper.old) (K.seen keeper.new) result }
{
    if !same(
        row.password.as_str().as_bytes(),
        expected.as_str().as_bytes(),
    ) {
        let present = row.password;
        return Ok(Answer::unchanged(alloc, Reply::Differs { present }));
    }
    let keys = keeper.keys(alloc)?;
    Ok(written_password(alloc, &keys, row, fresh)?)
}

fn written_password(
    alloc: Global,
    keys: &Keys,
    row: UserRow,
    fresh: &Text,
) -> Result<Answer, AllocError>
    ensures reply { IfOk result (λ answer. answer.reply ≡ Reply.Written (auth_hash fresh.now (key_at keys.now 0))) }
    ensures changes { IfOk result (λ answer. answer.changes.items ≡ Change.PutUser (with_password fresh.now row) ∷ []) }
{
    let auth_hash = session_auth_text(alloc, fresh.as_str(), keys.first())?;
    let mut row = row;
    row.password = fresh.copy(alloc)?;
    Answer::changed(alloc, Reply::Written { auth_hash }, Change::PutUser(row))
}

fn new_user(
    alloc: Global,
    id: u64,
    name: &Text,
    email: &Text,
    password: &Text,
    superuser: bool,
) -> Result<UserRow, AllocError>
    ensures { IfOk result (λ row. row ≡ new_user id name.now email.now password.now superuser) }
{
    Ok(UserRow {
        id,
        name: name.copy(alloc)?,
        email: email.copy(alloc)?,
        password: password.copy(alloc)?,
        active: true,
        superuser,
        last_login: None,
        groups: Ids::from_vec(Vec::new(alloc)),
        perms: Ids::from_vec(Vec::new(alloc)),
    })
}

fn group_id<K: Keeper>(
    alloc: Global,
    keeper: &mut K,
    name: &Text,
) -> Result<Option<u64>, KeeperFault>
    requires { MayHold (K.seen keeper.old).report }
    ensures value { Answers (K.seen keeper.old) result (λ tables. id_of_group (group_named tables.groups name.now)) }
    ensures number { IfOk result (λ id. IfSome id IsNumber) }
    ensures reads { OnlyReads (K.seen keeper.old) (K.seen keeper.new) result }
{
    let groups = keeper.groups(alloc)?;
    Ok(id_among(groups.items(), name.as_str()))
}

fn id_among(groups: &[GroupRow], name: &str) -> Option<u64>
    requires { All IsSoundGroup groups.now }
    ensures value { result ≡ id_of_group (group_named groups.now name.now) }
    ensures number { IfSome result IsNumber }
{
    for group in groups {
        if group.name.as_str() == name {
            return Some(group.id);
        }
    }
    None
}

fn regrouped(alloc: Global, row: UserRow, group: u64, member: bool) -> Result<Answer, AllocError>
    ensures reply { IfOk result (λ answer. answer.reply ≡ Reply.Done) }
    ensures changes { IfOk result (λ answer. answer.changes.items ≡ Change.PutUser (with_membership group member row) ∷ []) }
{
    let mut row = row;
    row.groups = membership(row.groups, group, member)?;
    Answer::changed(alloc, Reply::Done, Change::PutUser(row))
}

fn membership(ids: Ids, id: u64, member: bool) -> Result<Ids, AllocError>
    ensures { IfOk result (λ made. made ≡ membership ids id member) }
{
    if member {
        with_id(ids, id)
    } else {
        Ok(without_id(ids, id))
    }
}

fn with_id(ids: Ids, id: u64) -> Result<Ids, AllocError>
    ensures { IfOk result (λ made. made ≡ with_id ids id) }
{
    let Some(index) = place_of(ids.items(), id) else {
        return Ok(ids);
    };
    let mut made = ids.into_vec();
    match made.insert(index, id) {
        Ok(()) => Ok(Ids::from_vec(made)),
        Err(_) => Err(AllocError),
    }
}

fn without_id(ids: Ids, id: u64) -> Ids
    ensures { result ≡ without_id ids id }
{
    let mut made = ids.into_vec();
    made.retain(|other| *other != id);
    Ids::from_vec(made)
}

// The index at which an id is to be put in; none where it is among the ids.
fn place_of(ids: &[u64], id: u64) -> Option<usize>
    ensures held { IfNone result (with_id ids.now id ≡ ids.now) }
    ensures within { IfSome result (λ index. index ≤ length ids.now) }
    ensures inserted { IfSome result (λ index. with_id ids.now id ≡ insert ids.now index id) }
{
    for (index, other) in ids.iter().enumerate() {
        match other.cmp(&id) {
            Ordering::Less => {}
            Ordering::Equal => return None,
            Ordering::Greater => return Some(index),
        }
    }
    Some(ids.len())
}

fn permissions_of(
    alloc: Global,
    row: &UserRow,
    groups: &[GroupRow],
    perms: &[PermRow],
) -> Result<PermSet, AllocError>
    ensures { IfOk result (λ set. set ≡ permissions_of (holder_of row.now) groups.now perms.now) }
{
    let holder = Holder {
        active: row.active,
        superuser: row.superuser,
        groups: &row.groups,
        perms: &row.perms,
    };
    all_permissions(alloc, &holder, groups, perms)
}
