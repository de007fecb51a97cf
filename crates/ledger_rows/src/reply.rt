//! Replies: what a step gives back.

ghost use Rattle.std.specs.Prelude.{◌≡◌, IfOk};

use crate::rows::{MailRow, UserRow};
use crate::verdict::Verdict;
use crypto_text::Text;
use permissions::PermSet;
use reset_tokens::ResetVerdict;
use std::alloc::{AllocError, Global};

/// A user as a step found it, with the hash that a session of it is to keep, as Django's
/// `get_session_auth_hash` gives it.
#[derive(Drop, PartialEq, Eq)]
pub struct UserRead {
    pub row: UserRow,
    pub auth_hash: Text,
}

/// What a step gives back, by its operation.
#[derive(Drop, PartialEq, Eq)]
pub enum Reply {
    /// To `Boot`: how many starts there were, with this one.
    Booted {
        boot: u64,
    },
    /// To `Load`: the verdict; the cookie where a session is stored under it; the session's map as JSON
    /// text; and the user who is admitted.
    Loaded {
        verdict: Verdict,
        key: Option<Text>,
        payload: Text,
        user: Option<UserRead>,
    },
    /// To `Create` and `Cycle`: there is a session of the new key.
    Taken,
    /// To `Save` and `Cycle`: there is no session of the key.
    Gone,
    /// To `Create`, `Save` and `Cycle`: the session was written; its cookie is the key.
    Stored {
        cookie: Text,
    },
    /// To `Delete`, `SetLastLogin`, `SetActive`, `SetMembership`, `RotateKey` and `RetireKeys`.
    Done,
    /// To `ClearExpired`: how many sessions were removed.
    Cleared {
        count: u64,
    },
    /// To `FindUser`: the user of the name, where there is one.
    User {
        read: Option<UserRead>,
    },
    /// To the operations on one user: there is no such user.
    NoRow,
    /// To `SetPassword`: the user has another password text than the expected one.
    Differs {
        present: Text,
    },
    /// To `SetPassword`: it was written; this is the hash that a session of the user is to keep now.
    Written {
        auth_hash: Text,
    },
    /// To `AddUser`: there is a user of the name.
    NameTaken,
    /// To `AddUser`: the user was made, with this id.
    Added {
        id: u64,
    },
    /// To `SetMembership`: there is no group of the name.
    NoGroup,
    /// To `Perms`: what the user may do.
    Perms {
        set: PermSet,
    },
    /// To `RotateKey`: the key is among the keys.
    KeyHeld,
    /// To `RotateKey`: there are 16 keys.
    TooManyKeys,
    /// To `MakeReset`: how many mails were written.
    Mailed {
        count: u64,
    },
    /// To `CheckReset`: what is wrong with the token.
    BadToken {
        verdict: ResetVerdict,
    },
    /// To `CheckReset`: the token is valid for this user.
    Good {
        read: UserRead,
    },
    /// To `TakeMail`: the mail of the least id, where there is one.
    Mail {
        mail: Option<MailRow>,
    },
}

impl UserRead {
    /// The same once more.
    pub fn copy(&self, alloc: Global) -> Result<UserRead, AllocError>
        ensures { IfOk result (λ copy. copy ≡ self.now) }
    {
        Ok(UserRead {
            row: self.row.copy(alloc)?,
            auth_hash: self.auth_hash.copy(alloc)?,
        })
    }
}

impl Reply {
    /// The same reply once more.
    pub fn copy(&self, alloc: Global) -> Result<Reply, AllocError>
        ensures { IfOk result (λ copy. copy ≡ self.now) }
    {
        match self {
            Reply::Booted { boot } => Ok(Reply::Booted { boot: *boot }),
            Reply::Loaded {
                verdict,
                key,
                payload,
                user,
            } => Ok(Reply::Loaded {
                verdict: *verdict,
                key: key.as_ref().map(|key| key.copy(alloc)).transpose()?,
                payload: payload.copy(alloc)?,
                user: user.as_ref().map(|user| user.copy(alloc)).transpose()?,
            }),
            Reply::Taken => Ok(Reply::Taken),
            Reply::Gone => Ok(Reply::Gone),
            Reply::Stored { cookie } => Ok(Reply::Stored {
                cookie: cookie.copy(alloc)?,
            }),
            Reply::Done => Ok(Reply::Done),
            Reply::Cleared { count } => Ok(Reply::Cleared { count: *count }),
            Reply::User { read } => Ok(Reply::User {
                read: read.as_ref().map(|read| read.copy(alloc)).transpose()?,
            }),
            Reply::NoRow => Ok(Reply::NoRow),
            Reply::Differs { present } => Ok(Reply::Differs {
                present: present.copy(alloc)?,
            }),
            Reply::Written { auth_hash } => Ok(Reply::Written {
                auth_hash: auth_hash.copy(alloc)?,
            }),
            Reply::NameTaken => Ok(Reply::NameTaken),
            Reply::Added { id } => Ok(Reply::Added { id: *id }),
            Reply::NoGroup => Ok(Reply::NoGroup),
            Reply::Perms { set } => Ok(Reply::Perms {
                set: set.copy(alloc)?,
            }),
            Reply::KeyHeld => Ok(Reply::KeyHeld),
            Reply::TooManyKeys => Ok(Reply::TooManyKeys),
            Reply::Mailed { count } => Ok(Reply::Mailed { count: *count }),
            Reply::BadToken { verdict } => Ok(Reply::BadToken { verdict: *verdict }),
            Reply::Good { read } => Ok(Reply::Good {
                read: read.copy(alloc)?,
            }),
            Reply::Mail { mail } => Ok(Reply::Mail {
                mail: mail.as_ref().map(|mail| mail.copy(alloc)).transpose()?,
            }),
        }
    }
}
