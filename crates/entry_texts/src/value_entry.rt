//! From a JSON value to the entry of it.

ghost use Rattle.serde_json.specs.View.{view};
ghost use Rattle.entry_texts.specs.EntryFaults.{Gives};
ghost use Rattle.entry_texts.specs.EntryReading.{add_user_in, check_reset_in, clear_expired_in, create_in, cycle_in, delete_in, entry_in, find_user_in, load_in, make_reset_in, op_in, op_named, perms_in, rotate_key_in, save_in, set_active_in, set_last_login_in, set_membership_in, set_password_in, tag_in};

use crate::items::{cookie_at, flag_at, key_bytes_at, number_at, str_at, text_at};
use crate::reading::EntryFault;
use ledger_rows::{Entry, Op, Tag};
use serde_json::Value;
use std::alloc::Global;

/// The entry of an array. Neither the version nor the number of items is tested: they are in the entry's own
/// text, which is to be compared with the one that came.
pub(crate) fn value_entry(alloc: Global, entry: &Value) -> Result<Entry, EntryFault>
    ensures { Gives result (entry_in (view entry.now)) }
{
    Ok(Entry {
        tag: tag(entry)?,
        op: op(alloc, entry)?,
    })
}

fn tag(entry: &Value) -> Result<Tag, EntryFault>
    ensures { Gives result (tag_in (view entry.now)) }
{
    Ok(Tag {
        boot: number_at(entry, 1)?,
        worker: number_at(entry, 2)?,
        request: number_at(entry, 3)?,
        step: number_at(entry, 4)?,
    })
}

fn op(alloc: Global, entry: &Value) -> Result<Op, EntryFault>
    ensures { Gives result (op_in (view entry.now)) }
{
    match str_at(entry, 5) {
        Some(name) => op_named(alloc, entry, name),
        None => Err(EntryFault::Shape),
    }
}

fn op_named(alloc: Global, entry: &Value, name: &str) -> Result<Op, EntryFault>
    ensures { Gives result (op_named name.now (view entry.now)) }
{
    match name {
        "Boot" => Ok(Op::Boot),
        "Load" => load(alloc, entry),
        "Create" => create(alloc, entry),
        "Save" => save(alloc, entry),
        "Cycle" => cycle(alloc, entry),
        "Delete" => delete(alloc, entry),
        "ClearExpired" => clear_expired(entry),
        "FindUser" => find_user(alloc, entry),
        "SetPassword" => set_password(alloc, entry),
        "SetLastLogin" => set_last_login(entry),
        "AddUser" => add_user(alloc, entry),
        "SetActive" => set_active(alloc, entry),
        "SetMembership" => set_membership(alloc, entry),
        "Perms" => perms(entry),
        "RotateKey" => rotate_key(alloc, entry),
        "RetireKeys" => Ok(Op::RetireKeys),
        "MakeReset" => make_reset(alloc, entry),
        "CheckReset" => check_reset(alloc, entry),
        "TakeMail" => Ok(Op::TakeMail),
        _ => Err(EntryFault::Shape),
    }
}

fn load(alloc: Global, entry: &Value) -> Result<Op, EntryFault>
    ensures { Gives result (load_in (view entry.now)) }
{
    Ok(Op::Load {
        cookie: cookie_at(alloc, entry, 6)?,
        now: number_at(entry, 7)?,
    })
}

fn create(alloc: Global, entry: &Value) -> Result<Op, EntryFault>
    ensures { Gives result (create_in (view entry.now)) }
{
    Ok(Op::Create {
        key: text_at(alloc, entry, 6)?,
        payload: text_at(alloc, entry, 7)?,
        seconds: number_at(entry, 8)?,
        now: number_at(entry, 9)?,
    })
}

fn save(alloc: Global, entry: &Value) -> Result<Op, EntryFault>
    ensures { Gives result (save_in (view entry.now)) }
{
    Ok(Op::Save {
        key: text_at(alloc, entry, 6)?,
        payload: text_at(alloc, entry, 7)?,
        seconds: number_at(entry, 8)?,
        now: number_at(entry, 9)?,
    })
}

fn cycle(alloc: Global, entry: &Value) -> Result<Op, EntryFault>
    ensures { Gives result (cycle_in (view entry.now)) }
{
    Ok(Op::Cycle {
        old: text_at(alloc, entry, 6)?,
        key: text_at(alloc, entry, 7)?,
        payload: text_at(alloc, entry, 8)?,
        seconds: number_at(entry, 9)?,
        now: number_at(entry, 10)?,
    })
}

fn delete(alloc: Global, entry: &Value) -> Result<Op, EntryFault>
    ensures { Gives result (delete_in (view entry.now)) }
{
    Ok(Op::Delete {
        key: text_at(alloc, entry, 6)?,
    })
}

fn clear_expired(entry: &Value) -> Result<Op, EntryFault>
    ensures { Gives result (clear_expired_in (view entry.now)) }
{
    Ok(Op::ClearExpired {
        now: number_at(entry, 6)?,
    })
}

fn find_user(alloc: Global, entry: &Value) -> Result<Op, EntryFault>
    ensures { Gives result (find_user_in (view entry.now)) }
{
    Ok(Op::FindUser {
        name: text_at(alloc, entry, 6)?,
    })
}

fn set_password(alloc: Global, entry: &Value) -> Result<Op, EntryFault>
    ensures { Gives result (set_password_in (view entry.now)) }
{
    Ok(Op::SetPassword {
        user: number_at(entry, 6)?,
        expected: text_at(alloc, entry, 7)?,
        fresh: text_at(alloc, entry, 8)?,
    })
}

fn set_last_login(entry: &Value) -> Result<Op, EntryFault>
    ensures { Gives result (set_last_login_in (view entry.now)) }
{
    Ok(Op::SetLastLogin {
        user: number_at(entry, 6)?,
        now: number_at(entry, 7)?,
    })
}

fn add_user(alloc: Global, entry: &Value) -> Result<Op, EntryFault>
    ensures { Gives result (add_user_in (view entry.now)) }
{
    Ok(Op::AddUser {
        name: text_at(alloc, entry, 6)?,
        email: text_at(alloc, entry, 7)?,
        password: text_at(alloc, entry, 8)?,
        superuser: flag_at(entry, 9)?,
    })
}

fn set_active(alloc: Global, entry: &Value) -> Result<Op, EntryFault>
    ensures { Gives result (set_active_in (view entry.now)) }
{
    Ok(Op::SetActive {
        name: text_at(alloc, entry, 6)?,
        active: flag_at(entry, 7)?,
    })
}

fn set_membership(alloc: Global, entry: &Value) -> Result<Op, EntryFault>
    ensures { Gives result (set_membership_in (view entry.now)) }
{
    Ok(Op::SetMembership {
        name: text_at(alloc, entry, 6)?,
        group: text_at(alloc, entry, 7)?,
        member: flag_at(entry, 8)?,
    })
}

fn perms(entry: &Value) -> Result<Op, EntryFault>
    ensures { Gives result (perms_in (view entry.now)) }
{
    Ok(Op::Perms {
        user: number_at(entry, 6)?,
    })
}

fn rotate_key(alloc: Global, entry: &Value) -> Result<Op, EntryFault>
    ensures { Gives result (rotate_key_in (view entry.now)) }
{
    Ok(Op::RotateKey {
        key: key_bytes_at(alloc, entry, 6)?,
    })
}

fn make_reset(alloc: Global, entry: &Value) -> Result<Op, EntryFault>
    ensures { Gives result (make_reset_in (view entry.now)) }
{
    Ok(Op::MakeReset {
        email: text_at(alloc, entry, 6)?,
        now: number_at(entry, 7)?,
    })
}

fn check_reset(alloc: Global, entry: &Value) -> Result<Op, EntryFault>
    ensures { Gives result (check_reset_in (view entry.now)) }
{
    Ok(Op::CheckReset {
        user: number_at(entry, 6)?,
        token: text_at(alloc, entry, 7)?,
        now: number_at(entry, 8)?,
    })
}
