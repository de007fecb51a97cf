//! The command line: what the words ask for.

ghost use Rattle.std.specs.Prelude.{◌≡◌, MatchOption, None, Some, if◌then◌else◌};
ghost use Rattle.site_server.specs.Command.{asked_by, asked_by_command, asked_of, is_store, pipe_of, sign_of, unsign_of};

use crypto_text::{Text, decimal_decode};

/// What a run is asked for.
#[derive(Clone, Copy, Debug)]
pub enum Command<'a> {
    /// To serve one connection.
    ServePipe,
    /// To sign a value with the time.
    SignValue {
        salt: &'a str,
        value: &'a str,
    },
    /// To read such a text back, if it was signed at most so many seconds ago.
    UnsignText {
        salt: &'a str,
        max_age: u64,
        text: &'a str,
    },
}

/// What the words of the command line ask for: a settings file, a store, a command and its own words. None where
/// they are no command.
pub fn command_of(words: &[Text]) -> Option<Command<'_>>
    ensures { MatchOption result (asked_of words.now ≡ None) (λ command. asked_of words.now ≡ Some (asked_by_command command)) }
{
    match words {
        [_settings, store, name, rest @ ..] => command_on(store.as_str(), name.as_str(), rest),
        _ => None,
    }
}

fn command_on<'a>(store: &str, name: &str, rest: &'a [Text]) -> Option<Command<'a>>
    ensures { let asked = (if is_store store.now then asked_by name.now rest.now else None) in
        MatchOption result (asked ≡ None) (λ command. asked ≡ Some (asked_by_command command)) }
{
    if store == "mem" {
        command_by(name, rest)
    } else {
        None
    }
}

fn command_by<'a>(name: &str, rest: &'a [Text]) -> Option<Command<'a>>
    ensures { MatchOption result (asked_by name.now rest.now ≡ None) (λ command. asked_by name.now rest.now ≡ Some (asked_by_command command)) }
{
    if name == "pipe" {
        pipe_of(rest)
    } else if name == "sign" {
        sign_of(rest)
    } else if name == "unsign" {
        unsign_of(rest)
    } else {
        None
    }
}

fn pipe_of(rest: &[Text]) -> Option<Command<'_>>
    ensures { MatchOption result (pipe_of rest.now ≡ None) (λ command. pipe_of rest.now ≡ Some (asked_by_command command)) }
{
    match rest {
        [] => Some(Command::ServePipe),
        _ => None,
    }
}

fn sign_of(rest: &[Text]) -> Option<Command<'_>>
    ensures { MatchOption result (sign_of rest.now ≡ None) (λ command. sign_of rest.now ≡ Some (asked_by_command command)) }
{
    match rest {
        [salt, value] => Some(Command::SignValue {
            salt: salt.as_str(),
            value: value.as_str(),
        }),
        _ => None,
    }
}

fn unsign_of(rest: &[Text]) -> Option<Command<'_>>
    ensures { MatchOption result (unsign_of rest.now ≡ None) (λ command. unsign_of rest.now ≡ Some (asked_by_command command)) }
{
    match rest {
        [salt, max_age, text] => match decimal_decode(max_age.as_str()) {
            Some(max_age) => Some(Command::UnsignText {
                salt: salt.as_str(),
                max_age,
                text: text.as_str(),
            }),
            None => None,
        },
        _ => None,
    }
}
