//! What a command does to the store, once its input line is read and its texts are made.

ghost use Rattle.std.specs.Prelude.{◌≡◌, ◌≤◌, IfOk, length};
ghost use Rattle.crypto_text.specs.Alphabet.{letters62, random_text};
ghost use Rattle.outside.specs.RandomWords.{words_from};
ghost use Rattle.pass_hashers.specs.PasswordText.{IsSalt, IsUsable};
ghost use Rattle.account_views.specs.RandomTexts.{new_salt};
ghost use Rattle.site_commands.specs.StoreCommand.{asked_by_command};
ghost use Rattle.site_commands.specs.Task.{fresh_text, task};

use crate::store_command::StoreCommand;
use crypto_text::{Alphabet, Bytes, Text, text_of};
use outside::{Words, request_words};
use pass_hashers::laws::random_letters_are_salt;
use pass_hashers::{Hasher, make};
use std::alloc::{AllocError, Global};

/// Where the words of a new salt begin: a command's are those of a request.
const SALT_WORDS: u64 = 608;

/// How many letters a new salt has.
const SALT_SIZE: usize = 22;

/// What a command does to the store.
#[derive(Drop)]
pub enum Task {
    /// To make a user with this password text.
    AddUser {
        name: Text,
        email: Text,
        password: Text,
        superuser: bool,
    },
    /// To put this password text in place of the one that the user has.
    ChangePassword {
        name: Text,
        fresh: Text,
    },
    SetActive {
        name: Text,
        active: bool,
    },
    SetMembership {
        name: Text,
        group: Text,
        member: bool,
    },
    /// To remove the sessions that were over before now, in seconds since 1970.
    ClearSessions {
        now: u64,
    },
    RotateKey {
        key: Bytes,
    },
    RetireKeys,
    TakeMails,
}

/// What a command does to the store at a moment, by its input line. New password texts are made by the preferred hasher,
/// with a salt of the next 1,024 random words.
pub fn task_of<W: Words>(
    alloc: Global,
    command: StoreCommand<'_>,
    line: &str,
    preferred: Hasher,
    words: &W,
    now: u64,
) -> Result<Task, AllocError>
    requires usable { IsUsable preferred }
    ensures { IfOk result (λ made. made ≡ task (asked_by_command command.entry) line.now preferred (words_from (W.seen words.now) 1024) now) }
{
    match command {
        StoreCommand::AddUser {
            name,
            email,
            superuser,
        } => Ok(Task::AddUser {
            name: Text::of(alloc, name)?,
            email: Text::of(alloc, email)?,
            password: fresh_text(alloc, preferred, line, words)?,
            superuser,
        }),
        StoreCommand::ChangePassword { name } => Ok(Task::ChangePassword {
            name: Text::of(alloc, name)?,
            fresh: fresh_text(alloc, preferred, line, words)?,
        }),
        StoreCommand::SetActive { name, active } => Ok(Task::SetActive {
            name: Text::of(alloc, name)?,
            active,
        }),
        StoreCommand::SetMembership {
            name,
            group,
            member,
        } => Ok(Task::SetMembership {
            name: Text::of(alloc, name)?,
            group: Text::of(alloc, group)?,
            member,
        }),
        StoreCommand::ClearSessions => Ok(Task::ClearSessions { now }),
        StoreCommand::RotateKey => Ok(Task::RotateKey {
            key: Bytes::of(alloc, line.as_bytes())?,
        }),
        StoreCommand::RetireKeys => Ok(Task::RetireKeys),
        StoreCommand::Outbox => Ok(Task::TakeMails),
    }
}

fn fresh_text<W: Words>(
    alloc: Global,
    preferred: Hasher,
    password: &str,
    words: &W,
) -> Result<Text, AllocError>
    requires usable { IsUsable preferred }
    ensures { IfOk result (λ text. text ≡ fresh_text preferred password.now (words_from (W.seen words.now) 1024)) }
{
    let salt = new_salt(alloc, words)?;
    make(alloc, preferred, password, salt.as_str())
}

#[tactic(auto, unfolding(account_views::specs::RandomTexts::new_salt))]
fn new_salt<W: Words>(alloc: Global, words: &W) -> Result<Text, AllocError>
    ensures value { IfOk result (λ salt. salt ≡ new_salt (words_from (W.seen words.now) 1024)) }
    ensures salt { IfOk result IsSalt }
{
    let words = request_words(words, SALT_WORDS);
    salt_of(alloc, &words[..SALT_SIZE])
}

fn salt_of(alloc: Global, words: &[u32]) -> Result<Text, AllocError>
    requires some { 1 ≤ length words.now }
    requires most { length words.now ≤ 64 }
    ensures value { IfOk result (λ salt. salt ≡ random_text letters62 words.now) }
    ensures salt { IfOk result IsSalt }
{
    random_letters_are_salt();
    let salt = text_of(alloc, words, Alphabet::Letters62)?;
    Ok(salt)
}
