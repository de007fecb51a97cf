//! What a command looks at in a reply. A reply of another kind than the step's, which the store never gives, is read as
//! the last refusal of the command, or as nothing.

ghost use Rattle.std.specs.Prelude.{◌≡◌};
ghost use Rattle.site_commands.specs.ReplyReading.{active_fault, added_id, cleared_count, found_read, key_fault, member_fault, password_fault, taken_mail};

use crate::refusal::Refusal;
use ledger_rows::{MailRow, Reply, UserRead};

pub fn added_id(reply: Reply) -> Option<u64>
    ensures { result ≡ added_id reply }
{
    match reply {
        Reply::Added { id } => Some(id),
        _ => None,
    }
}

pub fn found_read(reply: Reply) -> Option<UserRead>
    ensures { result ≡ found_read reply }
{
    match reply {
        Reply::User { read } => read,
        _ => None,
    }
}

pub fn password_fault(reply: Reply) -> Option<Refusal>
    ensures { result ≡ password_fault reply }
{
    match reply {
        Reply::Written { .. } => None,
        Reply::NoRow => Some(Refusal::NoUser),
        _ => Some(Refusal::ChangedMeanwhile),
    }
}

pub fn active_fault(reply: Reply) -> Option<Refusal>
    ensures { result ≡ active_fault reply }
{
    match reply {
        Reply::Done => None,
        _ => Some(Refusal::NoUser),
    }
}

pub fn member_fault(reply: Reply) -> Option<Refusal>
    ensures { result ≡ member_fault reply }
{
    match reply {
        Reply::Done => None,
        Reply::NoRow => Some(Refusal::NoUser),
        _ => Some(Refusal::NoGroup),
    }
}

pub fn key_fault(reply: Reply) -> Option<Refusal>
    ensures { result ≡ key_fault reply }
{
    match reply {
        Reply::Done => None,
        Reply::KeyHeld => Some(Refusal::KeyHeld),
        _ => Some(Refusal::TooManyKeys),
    }
}

pub fn cleared_count(reply: Reply) -> u64
    ensures { result ≡ cleared_count reply }
{
    match reply {
        Reply::Cleared { count } => count,
        _ => 0,
    }
}

pub fn taken_mail(reply: Reply) -> Option<MailRow>
    ensures { result ≡ taken_mail reply }
{
    match reply {
        Reply::Mail { mail } => mail,
        _ => None,
    }
}
