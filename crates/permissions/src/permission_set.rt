//! The set of permissions that a user has, and the questions that a page asks about it.

ghost use Rattle.std.specs.Prelude.{◌≡◌, ◌↔◌, ◌++◌, All, Contains, IfOk, IsTrue};
ghost use Rattle.std.specs.Cmp.Lexicographic.{slice_cmp};
ghost use Rattle.std.specs.List.{Any};
ghost use Rattle.std.specs.List.Sorted.{IsNonDecreasing, IsStrictlySortedBy};
ghost use Rattle.std.specs.Ordering.{nat_cmp};
ghost use Rattle.permissions.specs.PermissionSet.{
  HasModulePerms,
  HasPerm,
  HasPerms,
  IsOfApp,
  group_permissions_of,
  has_all,
  holder_row,
  ids_of_groups,
  is_held,
  is_listed,
  name_of,
  names_of,
  permissions_of,
};

use crate::rows::{GroupRow, Holder, PermRow};
use crypto_text::{Text, TextList};
use std::alloc::{AllocError, Global};
use std::cmp::Ordering;
use std::collections::BTreeSet;
use std::marker::Model;

/// The permissions of a user: names `app.codename` in byte order, each once. With `all` every
/// question is answered yes, whatever the names.
#[derive(Debug, Drop, PartialEq, Eq)]
pub struct PermSet {
    all: bool,
    names: TextList,
}

/// The names ascend, so that one is found by halves.
impl Model for PermSet {
    ghost use Rattle.std.specs.Cmp.Lexicographic.{slice_cmp};
    ghost use Rattle.std.specs.List.Sorted.{IsStrictlySortedBy};
    ghost use Rattle.std.specs.Ordering.{nat_cmp};
    ghost use Rattle.permissions.specs.PermissionSet.{Permissions};

    ghost Value = { Permissions };

    ghost view = { λ set. record { all = set.all; names = set.names } };

    ghost invariant = { λ set. IsStrictlySortedBy (slice_cmp nat_cmp) set.names };

    ghost inverse = { λ set. record { all = set.all; names = set.names } };
}

impl PermSet {
    /// Whether every question is answered yes.
    pub fn all(&self) -> bool
        ensures { result ≡ self.now.all }
    {
        self.all
    }

    /// The names of the permissions.
    pub fn names(&self) -> &TextList
        ensures names { result.now ≡ self.now.names }
        ensures ascending { IsStrictlySortedBy (slice_cmp nat_cmp) result.now }
    {
        &self.names
    }

    /// The same set once more.
    pub fn copy(&self, alloc: Global) -> Result<PermSet, AllocError>
        ensures { IfOk result (λ copy. copy ≡ self.now) }
    {
        Ok(PermSet {
            all: self.all,
            names: self.names.copy(alloc)?,
        })
    }
}

/// All permissions of a user, as Django's `get_all_permissions`: his own and those of his groups.
/// An inactive user has none, an active superuser those of every row.
pub fn all_permissions(
    alloc: Global,
    user: &Holder<'_>,
    groups: &[GroupRow],
    perms: &[PermRow],
) -> Result<PermSet, AllocError>
    ensures { IfOk result (λ set. set ≡ permissions_of (holder_row user.now) groups.now perms.now) }
{
    let mut ids = ids_of_groups(alloc, user, groups)?;
    ids.extend_from_slice(user.perms.items())?;
    Ok(PermSet {
        all: has_all(user),
        names: held_names(alloc, user, ids, perms)?,
    })
}

/// The permissions that a user has through his groups, as Django's `get_group_permissions`: as
/// there, an active superuser has those of every row.
pub fn group_permissions(
    alloc: Global,
    user: &Holder<'_>,
    groups: &[GroupRow],
    perms: &[PermRow],
) -> Result<PermSet, AllocError>
    ensures { IfOk result (λ set. set ≡ group_permissions_of (holder_row user.now) groups.now perms.now) }
{
    let ids = ids_of_groups(alloc, user, groups)?;
    Ok(PermSet {
        all: has_all(user),
        names: held_names(alloc, user, ids, perms)?,
    })
}

/// Whether the set has a permission, named `app.codename`.
pub fn has_perm(set: &PermSet, perm: &str) -> bool
    ensures { IsTrue result ↔ HasPerm set.now perm.now }
{
    set.all() || is_named(set.names(), perm)
}

/// Whether the set has each of the permissions.
pub fn has_perms(set: &PermSet, perms: &TextList) -> bool
    ensures { IsTrue result ↔ HasPerms set.now perms.now }
{
    set.all() || are_named(set.names(), perms)
}

/// Whether the set has any permission of an app.
pub fn has_module_perms(set: &PermSet, app: &str) -> bool
    ensures { IsTrue result ↔ HasModulePerms set.now app.now }
{
    set.all() || names_app(set.names(), app)
}

fn has_all(user: &Holder<'_>) -> bool
    ensures { result ≡ has_all (holder_row user.now) }
{
    user.active && user.superuser
}

fn ids_of_groups(
    alloc: Global,
    user: &Holder<'_>,
    groups: &[GroupRow],
) -> Result<Vec<u64>, AllocError>
    ensures { IfOk result (λ ids. ids.items ≡ ids_of_groups (holder_row user.now) groups.now) }
{
    let mut ids = Vec::new(alloc);
    for group in groups {
        if user.groups.items().contains(&group.id) {
            ids.extend_from_slice(group.perms.items())?;
        }
    }
    Ok(ids)
}

// The ids are sorted once, so that each row is looked up by halves.
fn held_names(
    alloc: Global,
    user: &Holder<'_>,
    mut ids: Vec<u64>,
    perms: &[PermRow],
) -> Result<TextList, AllocError>
    ensures names { IfOk result (λ names. names ≡ names_of (is_held (holder_row user.now) ids.items) perms.now) }
    ensures ascending { IfOk result (IsStrictlySortedBy (slice_cmp nat_cmp)) }
{
    ids.sort_unstable();
    let names = names_among(alloc, user, &ids, perms)?;
    Ok(names)
}

fn names_among(
    alloc: Global,
    user: &Holder<'_>,
    ids: &[u64],
    perms: &[PermRow],
) -> Result<TextList, AllocError>
    requires { IsNonDecreasing ids.now }
    ensures { IfOk result (λ names. names ≡ names_of (is_held (holder_row user.now) ids.now) perms.now) }
{
    let mut names = BTreeSet::new(alloc);
    for row in perms {
        if is_held(user, ids, row) {
            names.insert(name_of(alloc, row)?)?;
        }
    }
    list_of(alloc, names)
}

fn list_of(alloc: Global, names: BTreeSet<Text>) -> Result<TextList, AllocError>
    ensures { IfOk result (λ list. list ≡ names.keys) }
{
    let mut list = Vec::with_capacity(alloc, names.len())?;
    for name in names {
        list.push(name)?;
    }
    Ok(TextList::from_vec(list))
}

fn is_held(user: &Holder<'_>, ids: &[u64], row: &PermRow) -> bool
    requires { IsNonDecreasing ids.now }
    ensures { result ≡ is_held (holder_row user.now) ids.now row.now }
{
    user.active && (user.superuser || is_listed(ids, row.id))
}

fn is_listed(ids: &[u64], id: u64) -> bool
    requires { IsNonDecreasing ids.now }
    ensures { result ≡ is_listed ids.now id }
{
    ids.binary_search(&id).is_ok()
}

fn name_of(alloc: Global, row: &PermRow) -> Result<Text, AllocError>
    ensures { IfOk result (λ name. name ≡ name_of row.now) }
{
    let mut name = String::new(alloc);
    name.push_str(row.app.as_str())?;
    name.push_str(".")?;
    name.push_str(row.codename.as_str())?;
    Ok(Text::from_string(name))
}

fn is_named(names: &TextList, perm: &str) -> bool
    requires { IsStrictlySortedBy (slice_cmp nat_cmp) names.now }
    ensures { IsTrue result ↔ Contains names.now perm.now }
{
    is_among(names.items(), perm)
}

fn is_among(names: &[Text], wanted: &str) -> bool
    requires { IsStrictlySortedBy (slice_cmp nat_cmp) names.now }
    ensures { IsTrue result ↔ Contains names.now wanted.now }
{
    names
        .binary_search_by(|name| order_of(name, wanted))
        .is_ok()
}

fn order_of(name: &Text, wanted: &str) -> Ordering
    ensures { result ≡ slice_cmp nat_cmp name.now wanted.now }
{
    name.as_str().cmp(wanted)
}

fn are_named(names: &TextList, perms: &TextList) -> bool
    requires { IsStrictlySortedBy (slice_cmp nat_cmp) names.now }
    ensures { IsTrue result ↔ All (Contains names.now) perms.now }
{
    for perm in perms.items() {
        if !is_named(names, perm.as_str()) {
            return false;
        }
    }
    true
}

fn names_app(names: &TextList, app: &str) -> bool
    ensures { IsTrue result ↔ Any (IsOfApp app.now) names.now }
{
    names
        .items()
        .iter()
        .any(|name| is_of_app(name.as_str(), app))
}

fn is_of_app(name: &str, app: &str) -> bool
    ensures { IsTrue result ↔ IsOfApp app.now name.now }
{
    match name.as_bytes().strip_prefix(app.as_bytes()) {
        Some(rest) => rest.starts_with(b"."),
        None => false,
    }
}
