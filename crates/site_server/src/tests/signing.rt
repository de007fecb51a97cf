//! The commands that sign a value and read it back.

use super::*;

/// The value `hello`, signed under the key `k0` with the salt `x` at 1700000000 by Python's hmac and hashlib, after
/// Django's `TimestampSigner`.
const SIGNED: &str = "hello:1r31eq:AVAtfaYhtx4neSXPn97di7T9b6_HFATrpRGucfJRI-I";

/// `SIGNED`, but for a bit of its last character that no byte of the signature has.
const CHANGED: &str = "hello:1r31eq:AVAtfaYhtx4neSXPn97di7T9b6_HFATrpRGucfJRI-J";

/// The same value, signed without a time, by Django's `Signer`.
const UNTIMED: &str = "hello:_sAtnmbsgVbNqAqL16_rjy7G7nCSHZknownZelWLg5Y";

#[test]
fn a_value_is_signed_with_the_time(rt: HostRuntime) -> Result<(), Fail> {
    let alloc = rt.alloc();
    let words = words_of(alloc, &["site.json", "mem", "sign", "x", "hello"])?;
    let line = line_of(alloc, SIGNED)?;
    let due = Due {
        status: Status::Done,
        output: line.as_bytes(),
        entries: &[],
    };
    ends_with(&rt, alloc, &words, &site(SETTINGS, ""), &due, "sign")
}

/// A text that is to be read back, the most seconds since it was signed, the moment, and what comes of it.
#[derive(Clone, Copy)]
struct Unsigned {
    max_age: &'static str,
    text: &'static str,
    now: u64,
    status: Status,
    line: &'static str,
}

fn unsigned_texts() -> [Unsigned; 9] {
    let current = Unsigned {
        max_age: "10",
        text: SIGNED,
        now: 1_700_000_010,
        status: Status::Done,
        line: "hello\n",
    };
    let refused = Unsigned {
        status: Status::Refused,
        ..current
    };
    let usage = Unsigned {
        text: "abc",
        status: Status::Usage,
        line: "usage\n",
        ..current
    };
    [
        current,
        Unsigned {
            now: 1_700_000_011,
            line: "refused=expired\n",
            ..refused
        },
        Unsigned {
            text: "abc",
            line: "refused=no-separator\n",
            ..refused
        },
        Unsigned {
            text: CHANGED,
            line: "refused=bad-signature\n",
            ..refused
        },
        Unsigned {
            text: UNTIMED,
            line: "refused=bad-time\n",
            ..refused
        },
        Unsigned {
            max_age: "010",
            ..usage
        },
        Unsigned {
            max_age: "+1",
            ..usage
        },
        Unsigned {
            max_age: "18446744073709551616",
            ..usage
        },
        Unsigned {
            max_age: "",
            ..usage
        },
    ]
}

fn unsigns(rt: &impl Abort, alloc: Global, case: &Unsigned) -> Result<(), Fail> {
    let words = words_of(
        alloc,
        &["site.json", "mem", "unsign", "x", case.max_age, case.text],
    )?;
    let given = Given {
        now: case.now,
        ..site(SETTINGS, "")
    };
    let due = Due {
        status: case.status,
        output: case.line.as_bytes(),
        entries: &[],
    };
    ends_with(rt, alloc, &words, &given, &due, case.max_age)
}

#[test]
fn a_signed_text_is_read_back_or_refused(rt: HostRuntime) -> Result<(), Fail> {
    let alloc = rt.alloc();
    for case in unsigned_texts() {
        unsigns(&rt, alloc, &case)?;
    }
    Ok(())
}
