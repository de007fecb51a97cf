//! The rows that permissions are read from.

ghost use Rattle.std.specs.Prelude.{◌≡◌, IfOk};

use crypto_text::{Ids, Text};
use std::alloc::{AllocError, Global};

/// A permission, named `app.codename`.
#[derive(Debug, Drop, PartialEq, Eq)]
pub struct PermRow {
    pub id: u64,
    pub app: Text,
    pub codename: Text,
}

/// A group, and the ids of the permissions that its members have.
#[derive(Debug, Drop, PartialEq, Eq)]
pub struct GroupRow {
    pub id: u64,
    pub name: Text,
    pub perms: Ids,
}

/// What of a user counts for permissions: the ids of his groups and of his own permissions.
#[derive(Clone, Copy, Debug)]
pub struct Holder<'a> {
    pub active: bool,
    pub superuser: bool,
    pub groups: &'a Ids,
    pub perms: &'a Ids,
}

impl PermRow {
    /// The same row once more.
    pub fn copy(&self, alloc: Global) -> Result<PermRow, AllocError>
        ensures { IfOk result (λ copy. copy ≡ self.now) }
    {
        Ok(PermRow {
            id: self.id,
            app: self.app.copy(alloc)?,
            codename: self.codename.copy(alloc)?,
        })
    }
}

impl GroupRow {
    /// The same row once more.
    pub fn copy(&self, alloc: Global) -> Result<GroupRow, AllocError>
        ensures { IfOk result (λ copy. copy ≡ self.now) }
    {
        Ok(GroupRow {
            id: self.id,
            name: self.name.copy(alloc)?,
            perms: self.perms.copy(alloc)?,
        })
    }
}
