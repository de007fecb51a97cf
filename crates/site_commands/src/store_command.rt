//! The words of the administrative commands.

ghost use Rattle.std.specs.Prelude.{◌≡◌, MatchOption, None, Some};
ghost use Rattle.site_commands.specs.StoreCommand.{active_of, adding_of, asked_alone, asked_by, asked_by_command, changing_of, draws_words, membership_of, named_alone, needs_moment, reads_line, switch_of};

use crypto_text::Text;

/// What an administrative command asks for. The rest of its input, a password or a key, isn't among its words.
#[derive(Clone, Copy, Debug)]
pub enum StoreCommand<'a> {
    /// To make a user, with the password of the input line.
    AddUser {
        name: &'a str,
        email: &'a str,
        superuser: bool,
    },
    /// To give a user the password of the input line.
    ChangePassword {
        name: &'a str,
    },
    /// To say of a user whether he is active.
    SetActive {
        name: &'a str,
        active: bool,
    },
    /// To put a user into a group, or to take him out of it.
    SetMembership {
        name: &'a str,
        group: &'a str,
        member: bool,
    },
    /// To remove the sessions that are over.
    ClearSessions,
    /// To make the key of the input line the first.
    RotateKey,
    /// To give up all keys but the first.
    RetireKeys,
    /// To take the mails that wait.
    Outbox,
}

/// The command of a name, with the words after it. None where they are no administrative command.
pub fn store_command_of<'a>(name: &str, rest: &'a [Text]) -> Option<StoreCommand<'a>>
    ensures { MatchOption result (asked_by name.now rest.now ≡ None) (λ command. asked_by name.now rest.now ≡ Some (asked_by_command command)) }
{
    match name {
        "adduser" => adding_of(false, rest),
        "addsuper" => adding_of(true, rest),
        "changepassword" => changing_of(rest),
        "setactive" => active_of(rest),
        "member" => membership_of(rest),
        _ => asked_alone(name, rest),
    }
}

fn adding_of(superuser: bool, rest: &[Text]) -> Option<StoreCommand<'_>>
    ensures { MatchOption result (adding_of superuser rest.now ≡ None) (λ command. adding_of superuser rest.now ≡ Some (asked_by_command command)) }
{
    match rest {
        [name, email] => Some(StoreCommand::AddUser {
            name: name.as_str(),
            email: email.as_str(),
            superuser,
        }),
        _ => None,
    }
}

fn changing_of(rest: &[Text]) -> Option<StoreCommand<'_>>
    ensures { MatchOption result (changing_of rest.now ≡ None) (λ command. changing_of rest.now ≡ Some (asked_by_command command)) }
{
    match rest {
        [name] => Some(StoreCommand::ChangePassword {
            name: name.as_str(),
        }),
        _ => None,
    }
}

fn active_of(rest: &[Text]) -> Option<StoreCommand<'_>>
    ensures { MatchOption result (active_of rest.now ≡ None) (λ command. active_of rest.now ≡ Some (asked_by_command command)) }
{
    match rest {
        [name, switch] => match switch_of(switch.as_str()) {
            Some(active) => Some(StoreCommand::SetActive {
                name: name.as_str(),
                active,
            }),
            None => None,
        },
        _ => None,
    }
}

fn membership_of(rest: &[Text]) -> Option<StoreCommand<'_>>
    ensures { MatchOption result (membership_of rest.now ≡ None) (λ command. membership_of rest.now ≡ Some (asked_by_command command)) }
{
    match rest {
        [name, group, switch] => match switch_of(switch.as_str()) {
            Some(member) => Some(StoreCommand::SetMembership {
                name: name.as_str(),
                group: group.as_str(),
                member,
            }),
            None => None,
        },
        _ => None,
    }
}

fn switch_of(word: &str) -> Option<bool>
    ensures { result ≡ switch_of word.now }
{
    if word == "on" {
        Some(true)
    } else if word == "off" {
        Some(false)
    } else {
        None
    }
}

fn asked_alone<'a>(name: &str, rest: &[Text]) -> Option<StoreCommand<'a>>
    ensures { MatchOption result (asked_alone name.now rest.now ≡ None) (λ command. asked_alone name.now rest.now ≡ Some (asked_by_command command)) }
{
    match rest {
        [] => named_alone(name),
        _ => None,
    }
}

fn named_alone<'a>(name: &str) -> Option<StoreCommand<'a>>
    ensures { MatchOption result (named_alone name.now ≡ None) (λ command. named_alone name.now ≡ Some (asked_by_command command)) }
{
    match name {
        "clearsessions" => Some(StoreCommand::ClearSessions),
        "rotate-key" => Some(StoreCommand::RotateKey),
        "retire-keys" => Some(StoreCommand::RetireKeys),
        "outbox" => Some(StoreCommand::Outbox),
        _ => None,
    }
}

/// Whether a command reads an input line: a password or a key.
pub fn reads_line(command: StoreCommand<'_>) -> bool
    ensures { result ≡ reads_line (asked_by_command command.entry) }
{
    matches!(
        command,
        StoreCommand::AddUser { .. } | StoreCommand::ChangePassword { .. } | StoreCommand::RotateKey
    )
}

/// Whether a command makes a password text, whose salt takes random words.
pub fn draws_words(command: StoreCommand<'_>) -> bool
    ensures { result ≡ draws_words (asked_by_command command.entry) }
{
    matches!(
        command,
        StoreCommand::AddUser { .. } | StoreCommand::ChangePassword { .. }
    )
}

/// Whether a command has a moment in its step.
pub fn needs_moment(command: StoreCommand<'_>) -> bool
    ensures { result ≡ needs_moment (asked_by_command command.entry) }
{
    matches!(command, StoreCommand::ClearSessions)
}
