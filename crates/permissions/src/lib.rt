//! Permissions as Django's `ModelBackend` gives them: rows of permissions and groups, the set that
//! a user has of them (`all_permissions`, `group_permissions`), and three questions about a set
//! (`has_perm`, `has_perms`, `has_module_perms`). What a set holds is
//! `PermissionSet.permissions_of` of the rows.
#![tactic(auto)]

pub mod laws;
mod permission_set;
mod rows;
#[cfg(test)]
mod tests;

pub use crate::permission_set::{
    PermSet, all_permissions, group_permissions, has_module_perms, has_perm, has_perms,
};
pub use crate::rows::{GroupRow, Holder, PermRow};
