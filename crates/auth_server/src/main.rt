//! `auth_server SETTINGS STORE COMMAND ..`: a site's login server. `SETTINGS` is a settings file and `STORE` is `mem`,
//! a store in memory. The commands are `pipe`, which serves one connection from standard input to standard output,
//! `sign SALT VALUE`, and `unsign SALT MAXAGE TEXT`.
//! What it does is `site_server::manage_seeded`; here the files and streams are opened, and nothing else is decided.
#![tactic(auto)]

use crypto_text::{Ids, Text, TextList};
use keepers::MemKeeper;
use outside::{FileSource, HeldStreams, HoldFault, StdSink, StdSource, SystemClock};
use site_server::{Status, manage_seeded};
use std::alloc::AllocError;
use std::env;
use std::io::{ErrorKind, writer};
use std::process::ExitCode;

fn main(rt: HostRuntime) -> ExitCode {
    match run(&rt) {
        Ok(status) => ExitCode::from(status.code()),
        Err(AllocError) => ExitCode::from(Status::Memory.code()),
    }
}

fn run(rt: &HostRuntime) -> Result<Status, AllocError> {
    let alloc = rt.alloc();
    let _held = match HeldStreams::hold(rt) {
        Ok(held) => held,
        Err(HoldFault::Memory) => return Ok(Status::Memory),
        Err(HoldFault::Unopened) => return Ok(Status::ReadFault),
    };
    let words = command_words(rt)?;
    let path = words.items().first().map_or("", Text::as_str);
    let (status, _keeper) = manage_seeded(
        alloc,
        &words,
        &mut FileSource::open(rt, "/dev/urandom")?,
        &mut FileSource::open(rt, path)?,
        &mut StdSource::new(rt.reader()),
        &mut StdSink::new(writer(rt)),
        MemKeeper::new(alloc, Ids::from_vec(Vec::new(alloc))),
        &mut SystemClock::new(rt),
    );
    Ok(status)
}

// The words after the program's name; none where one isn't UTF-8, so that they are no command.
fn command_words(rt: &HostRuntime) -> Result<TextList, AllocError> {
    let alloc = rt.alloc();
    let mut words = Vec::new(alloc);
    match env::args(rt) {
        Ok(given) => {
            for word in given.skip(1) {
                words.push(Text::from_string(word))?;
            }
        }
        Err(e) if e.kind() == ErrorKind::OutOfMemory => return Err(AllocError),
        Err(_) => {}
    }
    Ok(TextList::from_vec(words))
}
