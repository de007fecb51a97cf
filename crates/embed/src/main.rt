//! A site's own program over the libraries: it signs a value and reads it back, makes a password text and verifies it, and
//! answers one connection over a ledger in memory. Its random words, its moment and its request are fixed, so that it
//! writes the same bytes each time; the program `auth_server` has the real ones.
#![tactic(auto)]

mod connection;
mod password;

use crate::connection::answered;
use crate::password::password_text;
use anyhow::Result;
use crypto_text::Bytes;
use outside::{ChaChaWords, Words};
use pass_hashers::{Algo, Hasher, verify};
use signing_core::{Keys, Signer};
use std::alloc::Global;
use std::io::Print;

/// The moment of everything here: 22:13:20 on 14 November 2023, in seconds since 1970.
const NOW: u64 = 1_700_000_000;

/// Django 4.2's preferred hasher.
const HASHER: Hasher = Hasher::Pbkdf2Sha256 {
    iterations: 600_000,
};

const SETTINGS: &str =
    r#"{"keys":["k0"],"allowed_hosts":["example.com"],"hashers":["pbkdf2_sha256"]}"#;

const REQUEST: &str = "GET /whoami/ HTTP/1.1\r\nHost: example.com\r\nConnection: close\r\n\r\n";

fn main(rt: HostRuntime) -> Result<()> {
    let alloc = rt.alloc();
    let mut words = ChaChaWords::new([7; 32], 0);
    sign_and_read(&rt, alloc)?;
    make_and_verify(&rt, alloc, &mut words)?;
    print!(rt;
        "{}",
        answered(alloc, SETTINGS, REQUEST, NOW, &mut words)?.as_str()
    )?;
    Ok(())
}

fn sign_and_read(rt: &impl Print, alloc: Global) -> Result<()> {
    let keys = Keys::new(alloc, Bytes::of(alloc, b"k0")?, Vec::new(alloc))?;
    let signer = Signer::new(&keys, "", "embed.greeting");
    let signed = signer.sign_timed(alloc, "hello", NOW)?;
    let (value, _) = signer.unsign_timed(signed.as_str(), NOW + 60, Some(3600))?;
    println!(rt; "signed: {}", signed.as_str())?;
    println!(rt; "read back: {value}")?;
    Ok(())
}

fn make_and_verify<W: Words>(rt: &impl Print, alloc: Global, words: &W) -> Result<()> {
    let mut salt_words = [0; 22];
    salt_words.copy_from_slice(&words.ahead(0)[..22]);
    let text = password_text(alloc, HASHER, "correct horse", &salt_words)?;
    println!(rt; "password text: {}", text.as_str())?;
    for word in ["correct horse", "battery staple"] {
        let verifies = verify(word, text.as_str(), &[Algo::Pbkdf2Sha256]);
        println!(rt; "{word}: {verifies}")?;
    }
    Ok(())
}
