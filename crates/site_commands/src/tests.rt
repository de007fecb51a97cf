//! Lines at the edge of their length, the words of each command, and the checks before the store is opened.

use crate::checking::fault_of;
use crate::input_line::line_of;
use crate::refusal::code_of;
use crate::said::End;
use crate::store_command::{StoreCommand, store_command_of};
use crate::task::Task;
use crate::{Machine, Next};
use crypto_text::{Bytes, Text, TextList};
use ledger_rows::{MailRow, Op, Reply};
use std::alloc::{AllocError, Global};
use std::process::Abort;
use std::test::Fail;

// Without a clause, so that no proof spells out what a text of the tests says.
fn text_of(alloc: Global, text: &str) -> Result<Text, AllocError> {
    Text::of(alloc, text)
}

fn words_of(alloc: Global, words: &[&str]) -> Result<TextList, AllocError> {
    let mut texts = Vec::new(alloc);
    for word in words {
        texts.push(text_of(alloc, word)?)?;
    }
    Ok(TextList::from_vec(texts))
}

/// The name of a command, the words after it, and whether they are a command.
#[derive(Clone, Copy)]
struct Words<'a> {
    name: &'a str,
    rest: &'a [&'a str],
    is_command: bool,
}

const WORDS: &[Words<'static>] = &[
    Words {
        name: "adduser",
        rest: &["bob", "bob@example.com"],
        is_command: true,
    },
    Words {
        name: "addsuper",
        rest: &["bob", ""],
        is_command: true,
    },
    Words {
        name: "addsuper",
        rest: &["bob"],
        is_command: false,
    },
    Words {
        name: "changepassword",
        rest: &["bob"],
        is_command: true,
    },
    Words {
        name: "changepassword",
        rest: &[],
        is_command: false,
    },
    Words {
        name: "setactive",
        rest: &["bob", "off"],
        is_command: true,
    },
    Words {
        name: "setactive",
        rest: &["bob", "ON"],
        is_command: false,
    },
    Words {
        name: "member",
        rest: &["bob", "editors", "on"],
        is_command: true,
    },
    Words {
        name: "member",
        rest: &["bob", "editors", "no"],
        is_command: false,
    },
    Words {
        name: "clearsessions",
        rest: &[],
        is_command: true,
    },
    Words {
        name: "clearsessions",
        rest: &["now"],
        is_command: false,
    },
    Words {
        name: "rotate-key",
        rest: &[],
        is_command: true,
    },
    Words {
        name: "retire-keys",
        rest: &[],
        is_command: true,
    },
    Words {
        name: "outbox",
        rest: &[],
        is_command: true,
    },
    Words {
        name: "Outbox",
        rest: &[],
        is_command: false,
    },
];

#[test]
fn words_are_commands(rt: HostRuntime) -> Result<(), Fail> {
    let alloc = rt.alloc();
    for case in WORDS {
        let rest = words_of(alloc, case.rest)?;
        let found = store_command_of(case.name, rest.items()).is_some();
        assert_eq!(rt; found, case.is_command, "{}", case.name);
    }
    Ok(())
}

#[test]
fn a_line_ends_at_a_newline_or_at_the_end(rt: HostRuntime) -> Result<(), Fail> {
    let alloc = rt.alloc();
    assert_eq!(rt; line_of(b"one\ntwo"), Some("one"));
    assert_eq!(rt; line_of(b"one\r\n"), Some("one\r"));
    assert_eq!(rt; line_of(b"one"), Some("one"));
    assert_eq!(rt; line_of(b""), Some(""));
    assert_eq!(rt; line_of(b"\xff\n"), None);
    let mut longest = Vec::new(alloc);
    for _ in 0..4096 {
        longest.push(b'a')?;
    }
    assert!(rt; line_of(longest.as_slice()).is_some());
    longest.push(b'a')?;
    assert!(rt; line_of(longest.as_slice()).is_none());
    Ok(())
}

/// A command, its line, and the code that it is refused with before the store is opened.
#[derive(Clone, Copy)]
struct Checked<'a> {
    command: StoreCommand<'a>,
    line: &'a str,
    code: &'a str,
}

const BOB: StoreCommand<'static> = StoreCommand::AddUser {
    name: "bob",
    email: "bob@example.com",
    superuser: false,
};

const CHECKED: &[Checked<'static>] = &[
    Checked {
        command: BOB,
        line: "correct horse",
        code: "",
    },
    Checked {
        command: BOB,
        line: "short",
        code: "too-short",
    },
    Checked {
        command: BOB,
        line: "12345678",
        code: "all-digits",
    },
    Checked {
        command: BOB,
        line: " PassWord1",
        code: "common",
    },
    Checked {
        command: StoreCommand::AddUser {
            name: "b b",
            email: "b b",
            superuser: true,
        },
        line: "",
        code: "bad-name",
    },
    Checked {
        command: StoreCommand::AddUser {
            name: "bob",
            email: "b b",
            superuser: true,
        },
        line: "",
        code: "bad-email",
    },
    Checked {
        command: StoreCommand::ChangePassword { name: "" },
        line: "correct horse",
        code: "bad-name",
    },
    Checked {
        command: StoreCommand::ChangePassword { name: "bob" },
        line: "",
        code: "too-short",
    },
    Checked {
        command: StoreCommand::SetActive {
            name: "b/b",
            active: true,
        },
        line: "",
        code: "bad-name",
    },
    Checked {
        command: StoreCommand::SetMembership {
            name: "b/b",
            group: "g",
            member: true,
        },
        line: "",
        code: "bad-name",
    },
    Checked {
        command: StoreCommand::RotateKey,
        line: "",
        code: "bad-key",
    },
    Checked {
        command: StoreCommand::RotateKey,
        line: "k9",
        code: "",
    },
    Checked {
        command: StoreCommand::ClearSessions,
        line: "",
        code: "",
    },
];

#[test]
fn faults_are_found_in_order(rt: HostRuntime) -> Result<(), Fail> {
    let alloc = rt.alloc();
    let common = words_of(alloc, &["password1"])?;
    for case in CHECKED {
        let fault = fault_of(alloc, case.command, case.line, &common)?;
        let code = fault.map_or("", code_of);
        assert_eq!(rt; code, case.code, "{}", case.line);
    }
    Ok(())
}

// Without a clause: a proof would unfold each clause of the call.
fn next(alloc: Global, machine: &mut Machine, reply: Option<Reply>) -> Result<Next, AllocError> {
    machine.next(alloc, reply)
}

fn mail(alloc: Global, id: u64, to: &str) -> Result<Reply, AllocError> {
    let mail = Some(MailRow {
        id,
        to: text_of(alloc, to)?,
        link: text_of(alloc, "/reset/1/t/")?,
    });
    Ok(Reply::Mail { mail })
}

fn said(next: &Next) -> (&str, bool) {
    match next {
        Next::Step(_) => ("", false),
        Next::Done(said) => (said.text.as_str(), said.end == End::Done),
    }
}

#[test]
fn mails_are_taken_until_there_is_none(rt: HostRuntime) -> Result<(), Fail> {
    let alloc = rt.alloc();
    let mut machine = Machine::start(Task::TakeMails);
    let first = next(alloc, &mut machine, None)?;
    assert!(rt; matches!(first, Next::Step(Op::TakeMail)));
    let second = next(alloc, &mut machine, Some(mail(alloc, 1, "a@b")?))?;
    assert!(rt; matches!(second, Next::Step(Op::TakeMail)));
    let third = next(alloc, &mut machine, Some(mail(alloc, 2, "c@d")?))?;
    assert!(rt; matches!(third, Next::Step(Op::TakeMail)));
    let last = next(alloc, &mut machine, Some(Reply::Mail { mail: None }))?;
    assert_eq!(rt;
        said(&last),
        ("to=a@b link=/reset/1/t/\nto=c@d link=/reset/1/t/\n", true)
    );
    Ok(())
}

#[test]
fn a_held_key_is_refused(rt: HostRuntime) -> Result<(), Fail> {
    let alloc = rt.alloc();
    let mut machine = Machine::start(Task::RotateKey {
        key: Bytes::of(alloc, b"k9")?,
    });
    let first = next(alloc, &mut machine, None)?;
    assert!(rt; matches!(first, Next::Step(Op::RotateKey { .. })));
    let last = next(alloc, &mut machine, Some(Reply::KeyHeld))?;
    assert_eq!(rt; said(&last), ("refused=key-held\n", false));
    Ok(())
}
