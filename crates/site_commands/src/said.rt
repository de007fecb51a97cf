//! What a command says at its end.

ghost use Rattle.std.specs.Prelude.{◌≡◌, ◌++◌, ℕ, IfOk, string_bytes};
ghost use Rattle.site_commands.specs.CommandScript.{cleared_line, done_by, id_line, link_part, mail_line, refusal, said_of, to_part};

use crate::refusal::{Refusal, code_of, refused_line};
use crypto_text::Text;
use ledger_rows::MailRow;
use std::alloc::{AllocError, Global};

/// How a command ends that the store answered.
#[derive(Clone, Copy, Debug, PartialEq, Eq)]
pub enum End {
    Done,
    Refused,
}

/// What a command writes, and how it ends.
#[derive(Debug, Drop)]
pub struct Said {
    pub text: Text,
    pub end: End,
}

/// The line, where the command wasn't refused.
pub fn done_by(alloc: Global, line: &str, fault: Option<Refusal>) -> Result<Said, AllocError>
    ensures { IfOk result (λ said. said ≡ done_by line.now fault) }
{
    match fault {
        None => Ok(said_of(Text::of(alloc, line)?)),
        Some(fault) => refusal(alloc, fault),
    }
}

/// A command that was done.
pub fn said_of(text: Text) -> Said
    ensures { result ≡ said_of text }
{
    Said {
        text,
        end: End::Done,
    }
}

/// A command that was refused.
pub fn refusal(alloc: Global, fault: Refusal) -> Result<Said, AllocError>
    ensures { IfOk result (λ said. said ≡ refusal fault) }
{
    let line = refused_line(alloc, code_of(fault))?;
    Ok(Said {
        text: Text::from_string(line),
        end: End::Refused,
    })
}

/// The line of a new user's id.
pub fn id_line(alloc: Global, id: u64) -> Result<Text, AllocError>
    ensures { IfOk result (λ line. line ≡ id_line id) }
{
    Ok(Text::from_string(format!(in alloc; "id={id}\n")?))
}

/// The line of how many sessions were removed.
pub fn cleared_line(alloc: Global, count: u64) -> Result<Text, AllocError>
    ensures { IfOk result (λ line. line ≡ cleared_line count) }
{
    Ok(Text::from_string(format!(in alloc; "cleared={count}\n")?))
}

/// The line of a mail.
pub fn mail_line(alloc: Global, mail: &MailRow) -> Result<String, AllocError>
    ensures { IfOk result (λ line. string_bytes line ≡ mail_line mail.now) }
{
    let line = to_part(alloc, mail.to.as_str())?;
    with_link(alloc, line, mail.link.as_str())
}

fn with_link(alloc: Global, mut line: String, link: &str) -> Result<String, AllocError>
    ensures { IfOk result (λ all. string_bytes all ≡ string_bytes line ++ link_part link.now) }
{
    line.push_str(link_part(alloc, link)?.as_str())?;
    Ok(line)
}

#[tactic(auto, unfolding(crate::specs::CommandScript::to_part))]
fn to_part(alloc: Global, to: &str) -> Result<String, AllocError>
    ensures { IfOk result (λ part. string_bytes part ≡ to_part to.now) }
{
    format!(in alloc; "to={to} ")
}

#[tactic(auto, unfolding(crate::specs::CommandScript::link_part))]
fn link_part(alloc: Global, link: &str) -> Result<String, AllocError>
    ensures { IfOk result (λ part. string_bytes part ≡ link_part link.now) }
{
    format!(in alloc; "link={link}\n")
}
