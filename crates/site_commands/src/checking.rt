//! What is looked at before the store is opened: names, addresses, new passwords and keys.

ghost use Rattle.std.specs.Prelude.{◌≡◌, ◌↔◌, IfOk, IsTrue};
ghost use Rattle.signing_core.specs.Keys.{HasKeyLength};
ghost use Rattle.site_commands.specs.Checking.{IsFault, IsKeyFault, IsNameFault, IsNewPasswordFault, IsNewUserFault, IsPasswordFault};
ghost use Rattle.site_commands.specs.StoreCommand.{asked_by_command};

use crate::refusal::Refusal;
use crate::store_command::StoreCommand;
use crypto_text::TextList;
use ledger_rows::{is_email, is_user_name};
use pass_hashers::{Weak, validate};
use std::alloc::{AllocError, Global};

const LONGEST_KEY: usize = 1024;

/// Why a command with this input line is refused before the store is opened, where it is. The list of common passwords is
/// in lower case.
pub fn fault_of(
    alloc: Global,
    command: StoreCommand<'_>,
    line: &str,
    common: &TextList,
) -> Result<Option<Refusal>, AllocError>
    ensures { IfOk result (IsFault (asked_by_command command.entry) line.now common.now) }
{
    match command {
        StoreCommand::AddUser { name, email, .. } => {
            new_user_fault(alloc, name, email, line, common)
        }
        StoreCommand::ChangePassword { name } => new_password_fault(alloc, name, line, common),
        StoreCommand::SetActive { name, .. } => Ok(name_fault(name)),
        StoreCommand::SetMembership { name, .. } => Ok(name_fault(name)),
        StoreCommand::RotateKey => Ok(key_fault(line)),
        StoreCommand::ClearSessions | StoreCommand::RetireKeys | StoreCommand::Outbox => Ok(None),
    }
}

fn new_user_fault(
    alloc: Global,
    name: &str,
    email: &str,
    password: &str,
    common: &TextList,
) -> Result<Option<Refusal>, AllocError>
    ensures { IfOk result (IsNewUserFault name.now email.now password.now common.now) }
{
    if !is_user_name(name) {
        return Ok(Some(Refusal::BadName));
    }
    if !is_email(email) {
        return Ok(Some(Refusal::BadEmail));
    }
    password_fault(alloc, password, common)
}

fn new_password_fault(
    alloc: Global,
    name: &str,
    password: &str,
    common: &TextList,
) -> Result<Option<Refusal>, AllocError>
    ensures { IfOk result (IsNewPasswordFault name.now password.now common.now) }
{
    if !is_user_name(name) {
        return Ok(Some(Refusal::BadName));
    }
    password_fault(alloc, password, common)
}

fn name_fault(name: &str) -> Option<Refusal>
    ensures { IsNameFault name.now result }
{
    if is_user_name(name) {
        None
    } else {
        Some(Refusal::BadName)
    }
}

fn password_fault(
    alloc: Global,
    password: &str,
    common: &TextList,
) -> Result<Option<Refusal>, AllocError>
    ensures { IfOk result (IsPasswordFault password.now common.now) }
{
    match validate(alloc, password, common) {
        Ok(()) => Ok(None),
        Err(Weak::TooShort) => Ok(Some(Refusal::TooShort)),
        Err(Weak::AllDigits) => Ok(Some(Refusal::AllDigits)),
        Err(Weak::Common) => Ok(Some(Refusal::Common)),
        Err(Weak::Memory) => Err(AllocError),
    }
}

fn key_fault(key: &str) -> Option<Refusal>
    ensures { IsKeyFault key.now result }
{
    if key.is_empty() || key.len() > LONGEST_KEY {
        Some(Refusal::BadKey)
    } else {
        None
    }
}
