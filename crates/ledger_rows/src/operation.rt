//! Operations: the atomic events of the system.

ghost use Rattle.std.specs.Prelude.{◌≡◌, IfOk};

use crypto_text::{Bytes, Text};
use std::alloc::{AllocError, Global};

/// What is done to the store in one step. Moments are in seconds since 1970; a payload is a session's map
/// as JSON.
#[derive(Drop, PartialEq, Eq)]
pub enum Op {
    /// A start of the program over this store.
    Boot,
    /// Finds out who is asking, by the session cookie.
    Load {
        cookie: Option<Text>,
        now: u64,
    },
    /// Begins a session that lasts so many seconds from now on.
    Create {
        key: Text,
        payload: Text,
        seconds: u64,
        now: u64,
    },
    /// Writes a session that is there; it lasts so many seconds from now on.
    Save {
        key: Text,
        payload: Text,
        seconds: u64,
        now: u64,
    },
    /// Gives a session another key: Django's `cycle_key`.
    Cycle {
        old: Text,
        key: Text,
        payload: Text,
        seconds: u64,
        now: u64,
    },
    /// Ends a session.
    Delete {
        key: Text,
    },
    /// Removes the sessions that were over before now: Django's `clearsessions`.
    ClearExpired {
        now: u64,
    },
    /// Finds the user of a name.
    FindUser {
        name: Text,
    },
    /// Puts another password text in place of the one that was expected.
    SetPassword {
        user: u64,
        expected: Text,
        fresh: Text,
    },
    /// Keeps the moment of a login: Django's `update_last_login`.
    SetLastLogin {
        user: u64,
        now: u64,
    },
    /// Makes an active user without groups and permissions.
    AddUser {
        name: Text,
        email: Text,
        password: Text,
        superuser: bool,
    },
    /// Says of a user whether he is active.
    SetActive {
        name: Text,
        active: bool,
    },
    /// Puts a user into the group of a name, or takes him out of it.
    SetMembership {
        name: Text,
        group: Text,
        member: bool,
    },
    /// Finds what a user may do: Django's `get_all_permissions`.
    Perms {
        user: u64,
    },
    /// Makes a key the first; the keys so far are its fallbacks.
    RotateKey {
        key: Bytes,
    },
    /// Gives up all keys but the first.
    RetireKeys,
    /// Writes mails with links that reset the passwords of an address: Django's `PasswordResetForm`.
    MakeReset {
        email: Text,
        now: u64,
    },
    /// Finds out whether a reset token is valid for a user: Django's `check_token`.
    CheckReset {
        user: u64,
        token: Text,
        now: u64,
    },
    /// Takes the oldest mail.
    TakeMail,
}

impl Op {
    /// The same operation once more.
    pub fn copy(&self, alloc: Global) -> Result<Op, AllocError>
        ensures { IfOk result (λ op. op ≡ self.now) }
    {
        match self {
            Op::Boot => Ok(Op::Boot),
            Op::Load { cookie, now } => Ok(Op::Load {
                cookie: cookie.as_ref().map(|text| text.copy(alloc)).transpose()?,
                now: *now,
            }),
            Op::Create {
                key,
                payload,
                seconds,
                now,
            } => Ok(Op::Create {
                key: key.copy(alloc)?,
                payload: payload.copy(alloc)?,
                seconds: *seconds,
                now: *now,
            }),
            Op::Save {
                key,
                payload,
                seconds,
                now,
            } => Ok(Op::Save {
                key: key.copy(alloc)?,
                payload: payload.copy(alloc)?,
                seconds: *seconds,
                now: *now,
            }),
            Op::Cycle {
                old,
                key,
                payload,
                seconds,
                now,
            } => Ok(Op::Cycle {
                old: old.copy(alloc)?,
                key: key.copy(alloc)?,
                payload: payload.copy(alloc)?,
                seconds: *seconds,
                now: *now,
            }),
            Op::Delete { key } => Ok(Op::Delete {
                key: key.copy(alloc)?,
            }),
            Op::ClearExpired { now } => Ok(Op::ClearExpired { now: *now }),
            Op::FindUser { name } => Ok(Op::FindUser {
                name: name.copy(alloc)?,
            }),
            Op::SetPassword {
                user,
                expected,
                fresh,
            } => Ok(Op::SetPassword {
                user: *user,
                expected: expected.copy(alloc)?,
                fresh: fresh.copy(alloc)?,
            }),
            Op::SetLastLogin { user, now } => Ok(Op::SetLastLogin {
                user: *user,
                now: *now,
            }),
            Op::AddUser {
                name,
                email,
                password,
                superuser,
            } => Ok(Op::AddUser {
                name: name.copy(alloc)?,
                email: email.copy(alloc)?,
                password: password.copy(alloc)?,
                superuser: *superuser,
            }),
            Op::SetActive { name, active } => Ok(Op::SetActive {
                name: name.copy(alloc)?,
                active: *active,
            }),
            Op::SetMembership {
                name,
                group,
                member,
            } => Ok(Op::SetMembership {
                name: name.copy(alloc)?,
                group: group.copy(alloc)?,
                member: *member,
            }),
            Op::Perms { user } => Ok(Op::Perms { user: *user }),
            Op::RotateKey { key } => Ok(Op::RotateKey {
                key: key.copy(alloc)?,
            }),
            Op::RetireKeys => Ok(Op::RetireKeys),
            Op::MakeReset { email, now } => Ok(Op::MakeReset {
                email: email.copy(alloc)?,
                now: *now,
            }),
            Op::CheckReset { user, token, now } => Ok(Op::CheckReset {
                user: *user,
                token: token.copy(alloc)?,
                now: *now,
            }),
            Op::TakeMail => Ok(Op::TakeMail),
        }
    }
}
