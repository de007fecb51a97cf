//! Derives keys by PBKDF2, for `bench/pbkdf2`. Each line of input is a hash and a number of rounds, as
//! in `sha256 600000`, and is answered by the hex digits of the key that `password` and `salt` give.
#![tactic(auto)]

use crypto_text::{pbkdf2_sha1, pbkdf2_sha256};
use std::alloc::{AllocError, Global};
use std::io;

fn main(rt: HostRuntime) -> io::Result<()> {
    for line in rt.lines(rt.alloc()) {
        match answer(rt.alloc(), line?.as_str())? {
            Some(key) => println!(rt; "{key}")?,
            None => println!(rt; "no hash and number of rounds")?,
        }
    }
    Ok(())
}

fn answer(alloc: Global, line: &str) -> Result<Option<String>, AllocError> {
    let Some((hash, number)) = line.split_once(' ') else {
        return Ok(None);
    };
    let Ok(rounds) = number.parse::<u32>() else {
        return Ok(None);
    };
    if rounds == 0 {
        return Ok(None);
    }
    match hash {
        "sha256" => {
            let mut key = [0; 32];
            pbkdf2_sha256(b"password", b"salt", rounds, &mut key);
            Ok(Some(hex::encode(alloc, &key)?))
        }
        "sha1" => {
            let mut key = [0; 20];
            pbkdf2_sha1(b"password", b"salt", rounds, &mut key);
            Ok(Some(hex::encode(alloc, &key)?))
        }
        _ => Ok(None),
    }
}
