//! The rows of the tables, what a new store begins with, and what a site has set for its logins.

ghost use Rattle.std.specs.Prelude.{◌≡◌, IfOk};
ghost use Rattle.ledger_rows.specs.Backends.{path_of};

use crate::row_list::RowList;
use crypto_text::{Ids, Text};
use pass_hashers::{Algo, Hasher};
use permissions::{GroupRow, PermRow};
use signing_core::Keys;
use std::alloc::{AllocError, Global};

/// A user, as Django's `User`.
#[derive(Drop, PartialEq, Eq)]
pub struct UserRow {
    pub id: u64,
    pub name: Text,
    pub email: Text,
    /// The password text: an algorithm, its parameters and the hash.
    pub password: Text,
    pub active: bool,
    pub superuser: bool,
    /// In seconds since 1970, where there was a login.
    pub last_login: Option<u64>,
    /// The ids of the user's groups.
    pub groups: Ids,
    /// The ids of the user's own permissions.
    pub perms: Ids,
}

/// A session, as Django's `Session`.
#[derive(Drop, PartialEq, Eq)]
pub struct SessionRow {
    pub key: Text,
    /// The session's map, signed.
    pub text: Text,
    /// The first second in which the session is over, since 1970.
    pub expire: u64,
}

/// A mail that waits to be sent.
#[derive(Drop, PartialEq, Eq)]
pub struct MailRow {
    pub id: u64,
    pub to: Text,
    /// The path of a page that resets the password.
    pub link: Text,
}

/// What decides, once the password or the session is right, whether a user may come in.
#[derive(Clone, Copy, Debug, PartialEq, Eq)]
pub enum Backend {
    /// Active users: Django's `ModelBackend`.
    Model,
    /// All users: Django's `AllowAllUsersModelBackend`.
    AllowAll,
}

/// Where sessions are kept.
#[derive(Clone, Copy, Debug, PartialEq, Eq)]
pub enum Engine {
    /// As rows of the store: Django's `django.contrib.sessions.backends.db`.
    Db,
}

/// What a site has set for its logins.
#[derive(Drop)]
pub struct Cfg {
    pub engine: Engine,
    /// In the order in which they are asked.
    pub backends: RowList<Backend>,
    /// The algorithms whose password texts are verified.
    pub installed: RowList<Algo>,
    /// The hasher of new password texts.
    pub preferred: Hasher,
}

/// What a new store begins with.
#[derive(Drop)]
pub struct Opening {
    pub keys: Keys,
    pub users: RowList<UserRow>,
    pub groups: RowList<GroupRow>,
    pub perms: RowList<PermRow>,
    pub sessions: RowList<SessionRow>,
}

impl Backend {
    /// The backend's name in sessions and settings, a Python path.
    #[tactic(auto, unfolding(crate::specs::Backends::path_of))]
    pub fn path(self) -> &'static str
        ensures { result.now ≡ path_of self }
    {
        match self {
            Backend::Model => "django.contrib.auth.backends.ModelBackend",
            Backend::AllowAll => "django.contrib.auth.backends.AllowAllUsersModelBackend",
        }
    }
}

impl Cfg {
    /// The same once more.
    pub fn copy(&self, alloc: Global) -> Result<Cfg, AllocError>
        ensures { IfOk result (λ copy. copy ≡ self.now) }
    {
        Ok(Cfg {
            engine: self.engine,
            backends: self.backends.copy(alloc)?,
            installed: self.installed.copy(alloc)?,
            preferred: self.preferred,
        })
    }
}

impl UserRow {
    /// The same row once more.
    pub fn copy(&self, alloc: Global) -> Result<UserRow, AllocError>
        ensures { IfOk result (λ copy. copy ≡ self.now) }
    {
        Ok(UserRow {
            id: self.id,
            name: self.name.copy(alloc)?,
            email: self.email.copy(alloc)?,
            password: self.password.copy(alloc)?,
            active: self.active,
            superuser: self.superuser,
            last_login: self.last_login,
            groups: self.groups.copy(alloc)?,
            perms: self.perms.copy(alloc)?,
        })
    }
}

impl SessionRow {
    /// The same row once more.
    pub fn copy(&self, alloc: Global) -> Result<SessionRow, AllocError>
        ensures { IfOk result (λ copy. copy ≡ self.now) }
    {
        Ok(SessionRow {
            key: self.key.copy(alloc)?,
            text: self.text.copy(alloc)?,
            expire: self.expire,
        })
    }
}

impl MailRow {
    /// The same row once more.
    pub fn copy(&self, alloc: Global) -> Result<MailRow, AllocError>
        ensures { IfOk result (λ copy. copy ≡ self.now) }
    {
        Ok(MailRow {
            id: self.id,
            to: self.to.copy(alloc)?,
            link: self.link.copy(alloc)?,
        })
    }
}

impl Opening {
    /// The same once more.
    pub fn copy(&self, alloc: Global) -> Result<Opening, AllocError>
        ensures { IfOk result (λ copy. copy ≡ self.now) }
    {
        Ok(Opening {
            keys: self.keys.copy(alloc)?,
            users: self.users.copy(alloc)?,
            groups: self.groups.copy(alloc)?,
            perms: self.perms.copy(alloc)?,
            sessions: self.sessions.copy(alloc)?,
        })
    }
}
