//! The machine that runs a command, called with one reply at a time.

ghost use Rattle.std.specs.Prelude.{◌≡◌, ◌<◌, ◌^◌, ◌++◌, IfOk, None, Some, OnErr, ℕ, List, codes, string_bytes};
ghost use Rattle.site_commands.specs.CommandScript.{after_adding, after_finding, after_mail, all_mails, mail_line, mailing, script, refusal, said_of};
ghost use Rattle.site_commands.specs.Machine.{EndsWhereDone, IsEnded, last_said, left, spent, stage_left, steps_of, steps_of_next};
ghost use Rattle.site_commands.specs.ReplyReading.{found_read, taken_mail};
ghost use Rattle.site_commands.specs.Walk.{IsProper, IsTask};

use crate::refusal::Refusal;
use crate::reply_reading::{
    active_fault, added_id, cleared_count, found_read, key_fault, member_fault, password_fault,
    taken_mail,
};
use crate::said::{Said, cleared_line, done_by, id_line, mail_line, refusal, said_of};
use crate::task::Task;
use crypto_text::Text;
use ledger_rows::{MailRow, Op, Reply, UserRead};
use std::alloc::{AllocError, Global};
use std::mem::replace;

/// As many as an audit list has entries at most.
const MOST_MAILS: u64 = 1 << 62;

/// A command that is being run. It stands for the steps that are left of its script.
#[derive(Drop)]
pub struct Machine {
    stage: Stage,
}

/// What a command does next.
#[derive(Drop)]
pub enum Next {
    /// It asks for this step.
    Step(Op),
    /// It is at its end, and says this.
    Done(Said),
}

/// What a command waits for.
#[derive(Drop)]
pub enum Stage {
    /// Its first call.
    Started(Task),
    /// The user who gets this password text.
    Finding { fresh: Text },
    /// The reply to its last step.
    Ending(Last),
    /// A mail. At most so many more are taken after it, and these are the lines of the mails before it.
    Mailing { more: u64, lines: String },
    /// Nothing: it is at its end, or memory was out.
    Ended,
}

/// The last step of a command that isn't `outbox`.
#[derive(Clone, Copy, Debug)]
pub enum Last {
    AddUser,
    SetPassword,
    SetActive,
    SetMembership,
    ClearExpired,
    RotateKey,
    RetireKeys,
}

/// How far one call came.
#[derive(Drop)]
pub enum Progress {
    Asks(Op, Stage),
    Ends(Said),
}

impl Machine {
    /// A command at its beginning.
    pub fn start(task: Task) -> Machine
        requires { IsTask task }
        ensures value { left result None ≡ script task }
        ensures proper { IsProper (left result None) }
    {
        Machine {
            stage: Stage::Started(task),
        }
    }

    /// The next step, or what is said. The first call has no reply, and each later one has the reply to the step that the
    /// last call named. After `Done`, and where memory was out, the command is at its end, and isn't called again.
    pub fn next(&mut self, alloc: Global, reply: Option<Reply>) -> Result<Next, AllocError>
        ensures value { IfOk result (λ next. steps_of_next self.new next ≡ left self.old reply) }
        ensures done { IfOk result (EndsWhereDone self.new) }
        ensures err { OnErr result (IsEnded self.new) }
    {
        let stage = replace(&mut self.stage, Stage::Ended);
        let reply = reply.unwrap_or(Reply::Booted { boot: 0 });
        match advance(alloc, stage, reply)? {
            Progress::Asks(op, stage) => {
                self.go_on(stage);
                Ok(Next::Step(op))
            }
            Progress::Ends(said) => Ok(Next::Done(said)),
        }
    }

    // Apart, since the stage before is let go here, which has a case for each variant.
    fn go_on(&mut self, stage: Stage)
        ensures { self.new ≡ record self.old { stage = stage } }
    {
        self.stage = stage;
    }
}

fn advance(alloc: Global, stage: Stage, reply: Reply) -> Result<Progress, AllocError>
    ensures { IfOk result (λ progress. steps_of progress ≡ stage_left stage reply) }
{
    match stage {
        Stage::Started(task) => Ok(first(alloc, task)),
        Stage::Finding { fresh } => after_finding(alloc, fresh, found_read(reply)),
        Stage::Ending(last) => Ok(Progress::Ends(last_said(alloc, last, reply)?)),
        Stage::Mailing { more, lines } => after_mail(alloc, more, lines, taken_mail(reply)),
        Stage::Ended => Ok(Progress::Ends(spent(alloc))),
    }
}

fn first(alloc: Global, task: Task) -> Progress
    ensures { steps_of result ≡ script task }
{
    match task {
        Task::AddUser {
            name,
            email,
            password,
            superuser,
        } => Progress::Asks(
            Op::AddUser {
                name,
                email,
                password,
                superuser,
            },
            Stage::Ending(Last::AddUser),
        ),
        Task::ChangePassword { name, fresh } => {
            Progress::Asks(Op::FindUser { name }, Stage::Finding { fresh })
        }
        Task::SetActive { name, active } => Progress::Asks(
            Op::SetActive { name, active },
            Stage::Ending(Last::SetActive),
        ),
        Task::SetMembership {
            name,
            group,
            member,
        } => Progress::Asks(
            Op::SetMembership {
                name,
                group,
                member,
            },
            Stage::Ending(Last::SetMembership),
        ),
        Task::ClearSessions { now } => Progress::Asks(
            Op::ClearExpired { now },
            Stage::Ending(Last::ClearExpired),
        ),
        Task::RotateKey { key } => Progress::Asks(
            Op::RotateKey { key },
            Stage::Ending(Last::RotateKey),
        ),
        Task::RetireKeys => Progress::Asks(Op::RetireKeys, Stage::Ending(Last::RetireKeys)),
        Task::TakeMails => all_mails(alloc),
    }
}

#[tactic(auto, unfolding(crate::specs::CommandScript::all_mails))]
fn all_mails(alloc: Global) -> Progress
    ensures { steps_of result ≡ all_mails }
{
    mailing(MOST_MAILS, String::new(alloc))
}

fn mailing(more: u64, lines: String) -> Progress
    ensures { steps_of result ≡ mailing more (string_bytes lines) }
{
    if more == 0 {
        Progress::Ends(said_of(Text::from_string(lines)))
    } else {
        let more = more - 1;
        Progress::Asks(Op::TakeMail, Stage::Mailing { more, lines })
    }
}

fn after_mail(
    alloc: Global,
    more: u64,
    lines: String,
    mail: Option<MailRow>,
) -> Result<Progress, AllocError>
    ensures { IfOk result (λ progress. steps_of progress ≡ after_mail (mailing more) (string_bytes lines) mail) }
{
    match mail {
        None => Ok(Progress::Ends(said_of(Text::from_string(lines)))),
        Some(mail) => Ok(mailing(more, with_mail(alloc, lines, &mail)?)),
    }
}

fn with_mail(alloc: Global, mut lines: String, mail: &MailRow) -> Result<String, AllocError>
    ensures { IfOk result (λ all. string_bytes all ≡ string_bytes lines ++ mail_line mail.now) }
{
    lines.push_str(mail_line(alloc, mail)?.as_str())?;
    Ok(lines)
}

// The new text is put in place of the one that was found.
fn after_finding(
    alloc: Global,
    fresh: Text,
    found: Option<UserRead>,
) -> Result<Progress, AllocError>
    ensures { IfOk result (λ progress. steps_of progress ≡ after_finding fresh found) }
{
    match found {
        None => Ok(Progress::Ends(refusal(alloc, Refusal::NoUser)?)),
        Some(read) => Ok(Progress::Asks(
            Op::SetPassword {
                user: read.row.id,
                expected: read.row.password,
                fresh,
            },
            Stage::Ending(Last::SetPassword),
        )),
    }
}

fn last_said(alloc: Global, last: Last, reply: Reply) -> Result<Said, AllocError>
    ensures { IfOk result (λ said. said ≡ last_said last reply) }
{
    match last {
        Last::AddUser => after_adding(alloc, added_id(reply)),
        Last::SetPassword => done_by(alloc, "changed\n", password_fault(reply)),
        Last::SetActive => done_by(alloc, "done\n", active_fault(reply)),
        Last::SetMembership => done_by(alloc, "done\n", member_fault(reply)),
        Last::ClearExpired => Ok(said_of(cleared_line(alloc, cleared_count(reply))?)),
        Last::RotateKey => done_by(alloc, "done\n", key_fault(reply)),
        Last::RetireKeys => done_by(alloc, "done\n", None),
    }
}

fn after_adding(alloc: Global, id: Option<u64>) -> Result<Said, AllocError>
    ensures { IfOk result (λ said. said ≡ after_adding id) }
{
    match id {
        Some(id) => Ok(said_of(id_line(alloc, id)?)),
        None => refusal(alloc, Refusal::NameTaken),
    }
}

// Takes no memory.
fn spent(alloc: Global) -> Said
    ensures { result ≡ spent }
{
    said_of(Text::from_string(String::new(alloc)))
}
