use super::*;
use crypto_text::{Bytes, Text};
use ledger_rows::{Entry, Op, Tag};
use std::alloc::{AllocError, Global};
use std::test::Fail;

const SESSION_KEY: &str = "abcdefghijklmnopqrstuvwxyz012345";

const UNUSABLE_PASSWORD: &str = "!aaaaaaaaaaaaaaaaaaaaaaaaaaaaaaaaaaaaaaaa";

const NOW: u64 = 1_700_000_000;

// Lines written by hand.
#[test]
fn each_operation_has_its_line(rt: HostRuntime) -> Result<(), Fail> {
    let alloc = rt.alloc();
    for case in 0..20 {
        let entry = Entry {
            tag: tag(case),
            op: operation(alloc, case)?,
        };
        assert_eq!(rt; entry_text(alloc, &entry)?.as_str(), line(case));
        assert!(rt; entry_read(alloc, line(case))? == entry, "operation {case}");
    }
    Ok(())
}

fn line(case: usize) -> &'static str {
    match case {
        0 => "[1,1,0,0,0,\"Boot\"]",
        1 => "[1,1,1,1,0,\"Load\",null,1700000000]",
        2 => "[1,1,0,1,0,\"RotateKey\",\"6b39\"]",
        3 => "[1,2,3,4,5,\"Load\",\"abcdefghijklmnopqrstuvwxyz012345\",1700000000]",
        4 =>
            "[1,2,3,4,5,\"Create\",\"abcdefghijklmnopqrstuvwxyz012345\",\"{\\\"a\\\":1}\",60,1700000000]",
        5 => "[1,2,3,4,5,\"Save\",\"\\u00e9\\n\",\"{}\",60,1700000000]",
        6 =>
            "[1,2,3,4,5,\"Cycle\",\"old\",\"abcdefghijklmnopqrstuvwxyz012345\",\"{}\",60,1700000000]",
        7 => "[1,2,3,4,5,\"Delete\",\"\"]",
        8 => "[1,2,3,4,5,\"ClearExpired\",1700000000]",
        9 => "[1,2,3,4,5,\"FindUser\",\"alice\"]",
        10 => "[1,2,3,4,5,\"SetPassword\",7,\"old\",\"!aaaaaaaaaaaaaaaaaaaaaaaaaaaaaaaaaaaaaaaa\"]",
        11 => "[1,2,3,4,5,\"SetLastLogin\",7,1700000000]",
        12 =>
            "[1,2,3,4,5,\"AddUser\",\"alice\",\"a@b.c\",\"!aaaaaaaaaaaaaaaaaaaaaaaaaaaaaaaaaaaaaaaa\",true]",
        13 => "[1,2,3,4,5,\"SetActive\",\"alice\",false]",
        14 => "[1,2,3,4,5,\"SetMembership\",\"alice\",\"\\ud83d\\ude00\",true]",
        15 => "[1,2,3,4,5,\"Perms\",18446744073709551615]",
        16 => "[1,2,3,4,5,\"RetireKeys\"]",
        17 => "[1,2,3,4,5,\"MakeReset\",\"a@b.c\",1700000000]",
        18 => "[1,2,3,4,5,\"CheckReset\",7,\"abc-0\",1700000000]",
        _ => "[1,2,3,4,5,\"TakeMail\"]",
    }
}

fn tag(case: usize) -> Tag {
    let (boot, worker, request, step) = match case {
        0 => (1, 0, 0, 0),
        1 => (1, 1, 1, 0),
        2 => (1, 0, 1, 0),
        _ => (2, 3, 4, 5),
    };
    Tag {
        boot,
        worker,
        request,
        step,
    }
}

fn operation(alloc: Global, case: usize) -> Result<Op, AllocError> {
    match case {
        0 => Ok(Op::Boot),
        1 => Ok(Op::Load {
            cookie: None,
            now: NOW,
        }),
        2 => Ok(Op::RotateKey {
            key: Bytes::of(alloc, b"k9")?,
        }),
        3..8 => session_operation(alloc, case),
        8 => Ok(Op::ClearExpired { now: NOW }),
        9..15 => user_operation(alloc, case),
        15 => Ok(Op::Perms {
            user: 18_446_744_073_709_551_615,
        }),
        16 => Ok(Op::RetireKeys),
        17 => Ok(Op::MakeReset {
            email: Text::of(alloc, "a@b.c")?,
            now: NOW,
        }),
        18 => Ok(Op::CheckReset {
            user: 7,
            token: Text::of(alloc, "abc-0")?,
            now: NOW,
        }),
        _ => Ok(Op::TakeMail),
    }
}

fn session_operation(alloc: Global, case: usize) -> Result<Op, AllocError> {
    match case {
        3 => Ok(Op::Load {
            cookie: Some(Text::of(alloc, SESSION_KEY)?),
            now: NOW,
        }),
        4 => Ok(Op::Create {
            key: Text::of(alloc, SESSION_KEY)?,
            payload: Text::of(alloc, "{\"a\":1}")?,
            seconds: 60,
            now: NOW,
        }),
        5 => Ok(Op::Save {
            key: Text::of(alloc, "é\n")?,
            payload: Text::of(alloc, "{}")?,
            seconds: 60,
            now: NOW,
        }),
        6 => Ok(Op::Cycle {
            old: Text::of(alloc, "old")?,
            key: Text::of(alloc, SESSION_KEY)?,
            payload: Text::of(alloc, "{}")?,
            seconds: 60,
            now: NOW,
        }),
        _ => Ok(Op::Delete {
            key: Text::of(alloc, "")?,
        }),
    }
}

fn user_operation(alloc: Global, case: usize) -> Result<Op, AllocError> {
    let name = Text::of(alloc, "alice")?;
    match case {
        9 => Ok(Op::FindUser { name }),
        10 => Ok(Op::SetPassword {
            user: 7,
            expected: Text::of(alloc, "old")?,
            fresh: Text::of(alloc, UNUSABLE_PASSWORD)?,
        }),
        11 => Ok(Op::SetLastLogin { user: 7, now: NOW }),
        12 => Ok(Op::AddUser {
            name,
            email: Text::of(alloc, "a@b.c")?,
            password: Text::of(alloc, UNUSABLE_PASSWORD)?,
            superuser: true,
        }),
        13 => Ok(Op::SetActive {
            name,
            active: false,
        }),
        _ => Ok(Op::SetMembership {
            name,
            group: Text::of(alloc, "😀")?,
            member: true,
        }),
    }
}

#[test]
fn other_texts_are_refused(rt: HostRuntime) -> Result<(), Fail> {
    for text in [
        "",
        "[]",
        // Another version, an item too many, one too few, another name.
        "[2,1,0,0,0,\"Boot\"]",
        "[1,1,0,0,0,\"Boot\",1]",
        "[1,1,0,0,0,\"ClearExpired\"]",
        "[1,1,0,0,0,\"Reboot\"]",
        // Items of other kinds.
        "[1,1,1,1,0,\"Load\",false,1700000000]",
        "[1,1,0,1,0,\"RotateKey\",\"6g39\"]",
        // An operation that may not be done.
        "[1,1,1,1,0,\"Load\",null,999999999]",
        // The value of an entry in another text.
        "[1,01,0,0,0,\"Boot\"]",
        "[1, 1,0,0,0,\"Boot\"]",
        "[1,1,0,0,0,\"Boot\"]\n",
        "[1,1,0,0,0,\"Bo\\u006ft\"]",
        "[1,1,0,1,0,\"RotateKey\",\"6B39\"]",
        "[1,1,0,1,0,\"SetMembership\",\"alice\",\"é\",true]",
        "[1,1,0,1,0,\"SetMembership\",\"alice\",\"\\u00E9\",true]",
    ] {
        assert!(rt;
            entry_read(rt.alloc(), text).err() == Some(EntryFault::Shape),
            "{text}"
        );
    }
    Ok(())
}
