//! Whether the rows of an opening are well formed.

ghost use Rattle.std.specs.Prelude.{◌≡◌, ◌↔◌, IfOk, IsTrue};
ghost use Rattle.std.specs.List.{All};
ghost use Rattle.std.specs.List.Sorted.{IsStrictlyIncreasing};
ghost use Rattle.permissions.specs.PermissionSet.{name_of};
ghost use Rattle.ledger_rows.specs.Opening.{AreOpeningGroups, AreOpeningPerms, AreOpeningUsers, AreRowIds, IsOpeningGroup, IsOpeningPerm, IsOpeningUser, ids_of_groups, ids_of_perms, ids_of_users, names_of_groups, names_of_perms, names_of_users};
ghost use Rattle.site_file.specs.OpeningForm.{AreEntries, HaveRowIds};

use crate::entries::Entries;
use crate::row_ids::{are_ids_among, are_row_ids};
use crate::session_form::are_sessions;
use crypto_text::{Text, are_different};
use ledger_rows::{Backend, UserRow, is_email, is_permission_word, is_user_name};
use pass_hashers::is_password_text;
use permissions::{GroupRow, PermRow};
use signing_core::Keys;
use std::alloc::{AllocError, Global};

/// Whether all rows are well formed under these keys and by these backends. The ids of a table come first: where they
/// rise, rows are found by halves.
pub(crate) fn are_entries(
    alloc: Global,
    keys: &Keys,
    backends: &[Backend],
    entries: &Entries,
) -> Result<bool, AllocError>
    ensures { IfOk result (λ answer. IsTrue answer ↔ AreEntries keys.now backends.now entries.now) }
{
    let groups = group_ids(alloc, entries.groups.items())?;
    let perms = perm_ids(alloc, entries.perms.items())?;
    let users = user_ids(alloc, entries.users.items())?;
    if are_row_ids(groups.as_slice())
        && are_row_ids(perms.as_slice())
        && are_row_ids(users.as_slice())
    {
        are_rows(
            alloc,
            keys,
            backends,
            groups.as_slice(),
            perms.as_slice(),
            entries,
        )
    } else {
        Ok(false)
    }
}

fn are_rows(
    alloc: Global,
    keys: &Keys,
    backends: &[Backend],
    groups: &[u64],
    perms: &[u64],
    entries: &Entries,
) -> Result<bool, AllocError>
    requires ids { HaveRowIds entries.now }
    requires groups { groups.now ≡ ids_of_groups entries.now.groups }
    requires perms { perms.now ≡ ids_of_perms entries.now.perms }
    ensures { IfOk result (λ answer. IsTrue answer ↔ AreEntries keys.now backends.now entries.now) }
{
    let users = entries.users.items();
    let of_users = are_users(alloc, groups, perms, users)?;
    let of_groups = are_groups(alloc, perms, entries.groups.items())?;
    let of_perms = are_perms(alloc, entries.perms.items())?;
    let of_sessions = are_sessions(alloc, keys, backends, users, entries.sessions.items())?;
    Ok(of_users && of_groups && of_perms && of_sessions)
}

fn are_users(
    alloc: Global,
    groups: &[u64],
    perms: &[u64],
    users: &[UserRow],
) -> Result<bool, AllocError>
    requires ids { AreRowIds (ids_of_users users.now) }
    requires groups { IsStrictlyIncreasing groups.now }
    requires perms { IsStrictlyIncreasing perms.now }
    ensures { IfOk result (λ answer. IsTrue answer ↔ AreOpeningUsers groups.now perms.now users.now) }
{
    let names = user_names(alloc, users)?;
    Ok(are_different(names) && are_user_rows(groups, perms, users))
}

fn are_user_rows(groups: &[u64], perms: &[u64], users: &[UserRow]) -> bool
    requires groups { IsStrictlyIncreasing groups.now }
    requires perms { IsStrictlyIncreasing perms.now }
    ensures { IsTrue result ↔ All (IsOpeningUser groups.now perms.now) users.now }
{
    users.iter().all(|user| is_user(groups, perms, user))
}

fn is_user(groups: &[u64], perms: &[u64], user: &UserRow) -> bool
    requires groups { IsStrictlyIncreasing groups.now }
    requires perms { IsStrictlyIncreasing perms.now }
    ensures { IsTrue result ↔ IsOpeningUser groups.now perms.now user.now }
{
    is_user_name(user.name.as_str())
        && is_email(user.email.as_str())
        && is_password_text(user.password.as_str())
        && user.last_login.is_none()
        && are_ids_among(groups, user.groups.items())
        && are_ids_among(perms, user.perms.items())
}

fn are_groups(alloc: Global, perms: &[u64], groups: &[GroupRow]) -> Result<bool, AllocError>
    requires ids { AreRowIds (ids_of_groups groups.now) }
    requires perms { IsStrictlyIncreasing perms.now }
    ensures { IfOk result (λ answer. IsTrue answer ↔ AreOpeningGroups perms.now groups.now) }
{
    let names = group_names(alloc, groups)?;
    Ok(are_different(names) && are_group_rows(perms, groups))
}

fn are_group_rows(perms: &[u64], groups: &[GroupRow]) -> bool
    requires { IsStrictlyIncreasing perms.now }
    ensures { IsTrue result ↔ All (IsOpeningGroup perms.now) groups.now }
{
    groups.iter().all(|group| is_group(perms, group))
}

#[tactic(auto, unfolding(ledger_rows::specs::Opening::IsOpeningGroup))]
fn is_group(perms: &[u64], group: &GroupRow) -> bool
    requires { IsStrictlyIncreasing perms.now }
    ensures { IsTrue result ↔ IsOpeningGroup perms.now group.now }
{
    are_ids_among(perms, group.perms.items())
}

fn are_perms(alloc: Global, perms: &[PermRow]) -> Result<bool, AllocError>
    requires { AreRowIds (ids_of_perms perms.now) }
    ensures { IfOk result (λ answer. IsTrue answer ↔ AreOpeningPerms perms.now) }
{
    let names = perm_names(alloc, perms)?;
    Ok(are_different(names) && are_perm_rows(perms))
}

fn are_perm_rows(perms: &[PermRow]) -> bool
    ensures { IsTrue result ↔ All IsOpeningPerm perms.now }
{
    perms.iter().all(|perm| is_perm(perm))
}

fn is_perm(perm: &PermRow) -> bool
    ensures { IsTrue result ↔ IsOpeningPerm perm.now }
{
    is_permission_word(perm.app.as_str()) && is_permission_word(perm.codename.as_str())
}

fn user_ids(alloc: Global, users: &[UserRow]) -> Result<Vec<u64>, AllocError>
    ensures { IfOk result (λ ids. ids.items ≡ ids_of_users users.now) }
{
    users.iter().map(|row| row.id).collect(alloc)
}

fn group_ids(alloc: Global, groups: &[GroupRow]) -> Result<Vec<u64>, AllocError>
    ensures { IfOk result (λ ids. ids.items ≡ ids_of_groups groups.now) }
{
    groups.iter().map(|row| row.id).collect(alloc)
}

fn perm_ids(alloc: Global, perms: &[PermRow]) -> Result<Vec<u64>, AllocError>
    ensures { IfOk result (λ ids. ids.items ≡ ids_of_perms perms.now) }
{
    perms.iter().map(|row| row.id).collect(alloc)
}

fn user_names(alloc: Global, users: &[UserRow]) -> Result<Vec<Text>, AllocError>
    ensures { IfOk result (λ names. names.items ≡ names_of_users users.now) }
{
    let mut names = Vec::with_capacity(alloc, users.len())?;
    for user in users {
        names.push(user.name.copy(alloc)?)?;
    }
    Ok(names)
}

fn group_names(alloc: Global, groups: &[GroupRow]) -> Result<Vec<Text>, AllocError>
    ensures { IfOk result (λ names. names.items ≡ names_of_groups groups.now) }
{
    let mut names = Vec::with_capacity(alloc, groups.len())?;
    for group in groups {
        names.push(group.name.copy(alloc)?)?;
    }
    Ok(names)
}

fn perm_names(alloc: Global, perms: &[PermRow]) -> Result<Vec<Text>, AllocError>
    ensures { IfOk result (λ names. names.items ≡ names_of_perms perms.now) }
{
    let mut names = Vec::with_capacity(alloc, perms.len())?;
    for perm in perms {
        names.push(perm_name(alloc, perm)?)?;
    }
    Ok(names)
}

fn perm_name(alloc: Global, perm: &PermRow) -> Result<Text, AllocError>
    ensures { IfOk result (λ name. name ≡ name_of perm.now) }
{
    let mut name = String::new(alloc);
    name.push_str(perm.app.as_str())?;
    name.push_str(".")?;
    name.push_str(perm.codename.as_str())?;
    Ok(Text::from_string(name))
}
