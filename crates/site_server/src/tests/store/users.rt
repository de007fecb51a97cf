//! The operations on users, with each of their replies.

use super::*;
use ledger_rows::{UserRead, UserRow, session_auth_text};
use permissions::{GroupRow, Holder, PermRow, PermSet, all_permissions};

pub(super) const ALICES_PASSWORD: &str =
    "md5$abcdefghijklmnopqrstuv$c3fcd3d76192e4007dfb496cca67e13b";

pub(super) const OTHER_PASSWORD: &str =
    "md5$abcdefghijklmnopqrstuv$00000000000000000000000000000000";

pub(super) fn operation(alloc: Global, at: usize) -> Result<Op, AllocError> {
    match at {
        36 | 40 => find(alloc, "bob"),
        37 | 59 => find(alloc, "alice"),
        38 => add(alloc, "alice"),
        39 => add(alloc, "bob"),
        41 => set_password(alloc, 3, ALICES_PASSWORD),
        42 => set_password(alloc, 1, OTHER_PASSWORD),
        43 => set_password(alloc, 1, ALICES_PASSWORD),
        44 => Ok(set_last_login(3, NOW)),
        45 => Ok(set_last_login(1, NOW)),
        46 => set_active(alloc, "carol", false),
        47 => set_active(alloc, "bob", false),
        _ => on_membership(alloc, at),
    }
}

fn on_membership(alloc: Global, at: usize) -> Result<Op, AllocError> {
    match at {
        48 => Ok(Op::Perms { user: 2 }),
        49 => set_active(alloc, "bob", true),
        50 => set_membership(alloc, "carol", "editors", true),
        51 => set_membership(alloc, "bob", "none", true),
        52 => set_membership(alloc, "bob", "editors", true),
        53 => find(alloc, "bob"),
        54 => Ok(Op::Perms { user: 3 }),
        55 => Ok(Op::Perms { user: 2 }),
        56 => Ok(Op::Perms { user: 1 }),
        57 => set_membership(alloc, "alice", "editors", false),
        _ => Ok(Op::Perms { user: 1 }),
    }
}

fn find(alloc: Global, name: &str) -> Result<Op, AllocError> {
    Ok(Op::FindUser {
        name: text_of(alloc, name)?,
    })
}

fn add(alloc: Global, name: &str) -> Result<Op, AllocError> {
    Ok(Op::AddUser {
        name: text_of(alloc, name)?,
        email: text_of(alloc, "Bob@Example.com")?,
        password: text_of(alloc, OTHER_PASSWORD)?,
        superuser: true,
    })
}

fn set_password(alloc: Global, user: u64, expected: &str) -> Result<Op, AllocError> {
    Ok(Op::SetPassword {
        user,
        expected: text_of(alloc, expected)?,
        fresh: text_of(alloc, OTHER_PASSWORD)?,
    })
}

pub(super) fn set_last_login(user: u64, now: u64) -> Op {
    Op::SetLastLogin { user, now }
}

pub(super) fn set_active(alloc: Global, name: &str, active: bool) -> Result<Op, AllocError> {
    Ok(Op::SetActive {
        name: text_of(alloc, name)?,
        active,
    })
}

fn set_membership(alloc: Global, name: &str, group: &str, member: bool) -> Result<Op, AllocError> {
    Ok(Op::SetMembership {
        name: text_of(alloc, name)?,
        group: text_of(alloc, group)?,
        member,
    })
}

pub(super) fn reply(alloc: Global, at: usize) -> Result<Reply, AllocError> {
    match at {
        36 => Ok(Reply::User { read: None }),
        37 => user(alloc, alice(alloc, ALICES_PASSWORD, None, &[1])?),
        38 => Ok(Reply::NameTaken),
        39 => Ok(Reply::Added { id: 2 }),
        40 => user(alloc, bob(alloc, &[])?),
        42 => Ok(Reply::Differs {
            present: text_of(alloc, ALICES_PASSWORD)?,
        }),
        43 => Ok(Reply::Written {
            auth_hash: session_auth_text(alloc, OTHER_PASSWORD, b"k0")?,
        }),
        51 => Ok(Reply::NoGroup),
        53 => user(alloc, bob(alloc, &[1])?),
        59 => user(alloc, alice(alloc, OTHER_PASSWORD, Some(NOW), &[])?),
        41 | 44 | 46 | 50 | 54 => Ok(Reply::NoRow),
        48 | 55 | 56 | 58 => perms(alloc, at),
        _ => Ok(Reply::Done),
    }
}

fn user(alloc: Global, row: UserRow) -> Result<Reply, AllocError> {
    Ok(Reply::User {
        read: Some(read(alloc, row)?),
    })
}

pub(super) fn read(alloc: Global, row: UserRow) -> Result<UserRead, AllocError> {
    let auth_hash = session_auth_text(alloc, row.password.as_str(), b"k0")?;
    Ok(UserRead { row, auth_hash })
}

pub(super) fn alice(
    alloc: Global,
    password: &str,
    last_login: Option<u64>,
    groups: &[u64],
) -> Result<UserRow, AllocError> {
    Ok(UserRow {
        id: 1,
        name: text_of(alloc, "alice")?,
        email: text_of(alloc, "alice@example.com")?,
        password: text_of(alloc, password)?,
        active: true,
        superuser: false,
        last_login,
        groups: Ids::of(alloc, groups)?,
        perms: Ids::of(alloc, &[1])?,
    })
}

fn bob(alloc: Global, groups: &[u64]) -> Result<UserRow, AllocError> {
    Ok(UserRow {
        id: 2,
        name: text_of(alloc, "bob")?,
        email: text_of(alloc, "Bob@Example.com")?,
        password: text_of(alloc, OTHER_PASSWORD)?,
        active: true,
        superuser: true,
        last_login: None,
        groups: Ids::of(alloc, groups)?,
        perms: Ids::of(alloc, &[])?,
    })
}

// Bob is a superuser, and not active at first; alice is no editor any more at the end.
fn perms(alloc: Global, at: usize) -> Result<Reply, AllocError> {
    let set = match at {
        48 => permission_set(alloc, false, true, &[])?,
        55 => permission_set(alloc, true, true, &[])?,
        56 => permission_set(alloc, true, false, &[1, 2])?,
        _ => permission_set(alloc, true, false, &[1])?,
    };
    Ok(Reply::Perms { set })
}

fn permission_set(
    alloc: Global,
    active: bool,
    superuser: bool,
    ids: &[u64],
) -> Result<PermSet, AllocError> {
    let holder = Holder {
        active,
        superuser,
        groups: &Ids::of(alloc, &[])?,
        perms: &Ids::of(alloc, ids)?,
    };
    let groups: &[GroupRow] = &[];
    all_permissions(alloc, &holder, groups, &all_perms(alloc)?)
}

fn all_perms(alloc: Global) -> Result<[PermRow; 3], AllocError> {
    Ok([
        perm(alloc, 1, "add_post")?,
        perm(alloc, 2, "change_post")?,
        perm(alloc, 3, "delete_post")?,
    ])
}

fn perm(alloc: Global, id: u64, codename: &str) -> Result<PermRow, AllocError> {
    Ok(PermRow {
        id,
        app: text_of(alloc, "blog")?,
        codename: text_of(alloc, codename)?,
    })
}
