//! From an entry to the JSON value of it.

ghost use Rattle.std.specs.Prelude.{◌≡◌, ◌∷◌, [], IfOk, OnOk, map};
ghost use Rattle.hex.specs.Hex.{IsBytes};
ghost use Rattle.serde_json.specs.Data.{string};
ghost use Rattle.serde_json.specs.View.{view};
ghost use Rattle.entry_texts.specs.EntryText.{HasKeyBytes, data_of, head_of, parts_of};
ghost use Rattle.ledger_rows.specs.declared.operation.Op.TheVariants.{AddUser, CheckReset, ClearExpired, Create, Cycle, Delete, FindUser, Load, MakeReset, Perms, RotateKey, Save, SetActive, SetLastLogin, SetMembership, SetPassword};

use crate::items::{cookie_value, key_value, text_value};
use crypto_text::Text;
use ledger_rows::{Entry, Op, Tag};
use serde_json::Value;
use std::alloc::{AllocError, Global};

// Another form of the texts gets another number.
const VERSION: u64 = 1;

/// An array of the version, the tag's numbers, the operation's name and its fields.
pub(crate) fn entry_value(alloc: Global, entry: &Entry) -> Result<Value, AllocError>
    ensures ok { IfOk result (λ value. view value ≡ data_of entry.now) }
    ensures key { OnOk result (HasKeyBytes entry.now.op) }
{
    let mut items = head(alloc, entry.tag)?;
    let mut parts = parts(alloc, &entry.op)?;
    items.append(&mut parts)?;
    Ok(Value::Array(items))
}

fn head(alloc: Global, tag: Tag) -> Result<Vec<Value>, AllocError>
    ensures { IfOk result (λ head. map view head.items ≡ head_of tag) }
{
    Ok(vec![in alloc;
        Value::from(VERSION),
        Value::from(tag.boot),
        Value::from(tag.worker),
        Value::from(tag.request),
        Value::from(tag.step),
    ]?)
}

fn parts(alloc: Global, op: &Op) -> Result<Vec<Value>, AllocError>
    ensures ok { IfOk result (λ parts. map view parts.items ≡ parts_of op.now) }
    ensures key { OnOk result (HasKeyBytes op.now) }
{
    match op {
        Op::Boot => name_alone(alloc, "Boot"),
        Op::Load { cookie, now } => load(alloc, cookie, *now),
        Op::Create {
            key,
            payload,
            seconds,
            now,
        } => create(alloc, key, payload, *seconds, *now),
        Op::Save {
            key,
            payload,
            seconds,
            now,
        } => save(alloc, key, payload, *seconds, *now),
        Op::Cycle {
            old,
            key,
            payload,
            seconds,
            now,
        } => cycle(alloc, old, key, payload, *seconds, *now),
        Op::Delete { key } => delete(alloc, key),
        Op::ClearExpired { now } => clear_expired(alloc, *now),
        Op::FindUser { name } => find_user(alloc, name),
        Op::SetPassword {
            user,
            expected,
            fresh,
        } => set_password(alloc, *user, expected, fresh),
        Op::SetLastLogin { user, now } => set_last_login(alloc, *user, *now),
        Op::AddUser {
            name,
            email,
            password,
            superuser,
        } => add_user(alloc, name, email, password, *superuser),
        Op::SetActive { name, active } => set_active(alloc, name, *active),
        Op::SetMembership {
            name,
            group,
            member,
        } => set_membership(alloc, name, group, *member),
        Op::Perms { user } => perms(alloc, *user),
        Op::RotateKey { key } => rotate_key(alloc, key.items()),
        Op::RetireKeys => name_alone(alloc, "RetireKeys"),
        Op::MakeReset { email, now } => make_reset(alloc, email, *now),
        Op::CheckReset { user, token, now } => check_reset(alloc, *user, token, *now),
        Op::TakeMail => name_alone(alloc, "TakeMail"),
    }
}

fn name_alone(alloc: Global, name: &str) -> Result<Vec<Value>, AllocError>
    ensures { IfOk result (λ parts. map view parts.items ≡ string name.now ∷ []) }
{
    Ok(vec![in alloc; text_value(alloc, name)?]?)
}

fn load(alloc: Global, cookie: &Option<Text>, now: u64) -> Result<Vec<Value>, AllocError>
    ensures { IfOk result (λ parts. map view parts.items ≡ parts_of (Load cookie.now now)) }
{
    Ok(vec![in alloc;
        text_value(alloc, "Load")?,
        cookie_value(alloc, cookie)?,
        Value::from(now),
    ]?)
}

fn create(
    alloc: Global,
    key: &Text,
    payload: &Text,
    seconds: u64,
    now: u64,
) -> Result<Vec<Value>, AllocError>
    ensures { IfOk result (λ parts. map view parts.items ≡ parts_of (Create key.now payload.now seconds now)) }
{
    Ok(vec![in alloc;
        text_value(alloc, "Create")?,
        text_value(alloc, key.as_str())?,
        text_value(alloc, payload.as_str())?,
        Value::from(seconds),
        Value::from(now),
    ]?)
}

fn save(
    alloc: Global,
    key: &Text,
    payload: &Text,
    seconds: u64,
    now: u64,
) -> Result<Vec<Value>, AllocError>
    ensures { IfOk result (λ parts. map view parts.items ≡ parts_of (Save key.now payload.now seconds now)) }
{
    Ok(vec![in alloc;
        text_value(alloc, "Save")?,
        text_value(alloc, key.as_str())?,
        text_value(alloc, payload.as_str())?,
        Value::from(seconds),
        Value::from(now),
    ]?)
}

fn cycle(
    alloc: Global,
    old: &Text,
    key: &Text,
    payload: &Text,
    seconds: u64,
    now: u64,
) -> Result<Vec<Value>, AllocError>
    ensures { IfOk result (λ parts. map view parts.items ≡ parts_of (Cycle old.now key.now payload.now seconds now)) }
{
    Ok(vec![in alloc;
        text_value(alloc, "Cycle")?,
        text_value(alloc, old.as_str())?,
        text_value(alloc, key.as_str())?,
        text_value(alloc, payload.as_str())?,
        Value::from(seconds),
        Value::from(now),
    ]?)
}

fn delete(alloc: Global, key: &Text) -> Result<Vec<Value>, AllocError>
    ensures { IfOk result (λ parts. map view parts.items ≡ parts_of (Delete key.now)) }
{
    Ok(vec![in alloc;
        text_value(alloc, "Delete")?,
        text_value(alloc, key.as_str())?,
    ]?)
}

fn clear_expired(alloc: Global, now: u64) -> Result<Vec<Value>, AllocError>
    ensures { IfOk result (λ parts. map view parts.items ≡ parts_of (ClearExpired now)) }
{
    Ok(vec![in alloc; text_value(alloc, "ClearExpired")?, Value::from(now)]?)
}

fn find_user(alloc: Global, name: &Text) -> Result<Vec<Value>, AllocError>
    ensures { IfOk result (λ parts. map view parts.items ≡ parts_of (FindUser name.now)) }
{
    Ok(vec![in alloc;
        text_value(alloc, "FindUser")?,
        text_value(alloc, name.as_str())?,
    ]?)
}

fn set_password(
    alloc: Global,
    user: u64,
    expected: &Text,
    fresh: &Text,
) -> Result<Vec<Value>, AllocError>
    ensures { IfOk result (λ parts. map view parts.items ≡ parts_of (SetPassword user expected.now fresh.now)) }
{
    Ok(vec![in alloc;
        text_value(alloc, "SetPassword")?,
        Value::from(user),
        text_value(alloc, expected.as_str())?,
        text_value(alloc, fresh.as_str())?,
    ]?)
}

fn set_last_login(alloc: Global, user: u64, now: u64) -> Result<Vec<Value>, AllocError>
    ensures { IfOk result (λ parts. map view parts.items ≡ parts_of (SetLastLogin user now)) }
{
    Ok(vec![in alloc;
        text_value(alloc, "SetLastLogin")?,
        Value::from(user),
        Value::from(now),
    ]?)
}

fn add_user(
    alloc: Global,
    name: &Text,
    email: &Text,
    password: &Text,
    superuser: bool,
) -> Result<Vec<Value>, AllocError>
    ensures { IfOk result (λ parts. map view parts.items ≡ parts_of (AddUser name.now email.now password.now superuser)) }
{
    Ok(vec![in alloc;
        text_value(alloc, "AddUser")?,
        text_value(alloc, name.as_str())?,
        text_value(alloc, email.as_str())?,
        text_value(alloc, password.as_str())?,
        Value::from(superuser),
    ]?)
}

fn set_active(alloc: Global, name: &Text, active: bool) -> Result<Vec<Value>, AllocError>
    ensures { IfOk result (λ parts. map view parts.items ≡ parts_of (SetActive name.now active)) }
{
    Ok(vec![in alloc;
        text_value(alloc, "SetActive")?,
        text_value(alloc, name.as_str())?,
        Value::from(active),
    ]?)
}

fn set_membership(
    alloc: Global,
    name: &Text,
    group: &Text,
    member: bool,
) -> Result<Vec<Value>, AllocError>
    ensures { IfOk result (λ parts. map view parts.items ≡ parts_of (SetMembership name.now group.now member)) }
{
    Ok(vec![in alloc;
        text_value(alloc, "SetMembership")?,
        text_value(alloc, name.as_str())?,
        text_value(alloc, group.as_str())?,
        Value::from(member),
    ]?)
}

fn perms(alloc: Global, user: u64) -> Result<Vec<Value>, AllocError>
    ensures { IfOk result (λ parts. map view parts.items ≡ parts_of (Perms user)) }
{
    Ok(vec![in alloc; text_value(alloc, "Perms")?, Value::from(user)]?)
}

fn rotate_key(alloc: Global, key: &[u8]) -> Result<Vec<Value>, AllocError>
    ensures ok { IfOk result (λ parts. map view parts.items ≡ parts_of (RotateKey key.now)) }
    ensures bytes { OnOk result (IsBytes key.now) }
{
    Ok(vec![in alloc; text_value(alloc, "RotateKey")?, key_value(alloc, key)?]?)
}

fn make_reset(alloc: Global, email: &Text, now: u64) -> Result<Vec<Value>, AllocError>
    ensures { IfOk result (λ parts. map view parts.items ≡ parts_of (MakeReset email.now now)) }
{
    Ok(vec![in alloc;
        text_value(alloc, "MakeReset")?,
        text_value(alloc, email.as_str())?,
        Value::from(now),
    ]?)
}

fn check_reset(alloc: Global, user: u64, token: &Text, now: u64) -> Result<Vec<Value>, AllocError>
    ensures { IfOk result (λ parts. map view parts.items ≡ parts_of (CheckReset user token.now now)) }
{
    Ok(vec![in alloc;
        text_value(alloc, "CheckReset")?,
        Value::from(user),
        text_value(alloc, token.as_str())?,
        Value::from(now),
    ]?)
}
