//! The numbers of the standard streams, kept from other files.

ghost use Rattle.std.specs.Prelude.{◌≡◌, ◌↔◌, IsErr, IsErrOf, IsErrAnd};
ghost use Rattle.std.specs.IoError.{error_kind};

use std::fs;
use std::io::{self, ErrorKind};
use std::rt::Files;
use thiserror::Error;

/// Why the numbers can't be kept.
#[derive(Clone, Copy, Debug, Drop, Error, PartialEq, Eq)]
pub enum HoldFault {
    #[error("the root folder can't be opened")]
    Unopened,
    #[error("out of memory")]
    Memory,
}

/// A program may be started with its standard input, output or error closed, and the next file that it opens then
/// takes that stream's number: a settings file would be read as the input, or a database would take the output's
/// lines. So a program makes this before it opens anything else, and keeps it until it ends: the root folder is opened
/// three times, which leaves none of the three numbers free. A folder can neither be read nor written, so what was
/// closed is an input or output that fails.
#[derive(Drop)]
pub struct HeldStreams<F> {
    input: F,
    output: F,
    error: F,
}

impl<F: Drop> HeldStreams<F> {
    /// Takes the numbers that are free. Where it fails none can be relied on, and the program should open nothing.
    pub fn hold<R: Files<File = F>>(rt: &R) -> Result<HeldStreams<F>, HoldFault> {
        Ok(HeldStreams {
            input: root_folder(rt)?,
            output: root_folder(rt)?,
            error: root_folder(rt)?,
        })
    }
}

fn root_folder<F, R: Files<File = F>>(rt: &R) -> Result<F, HoldFault> {
    held(fs::open(rt, "/"))
}

fn held<F>(opened: io::Result<F>) -> Result<F, HoldFault>
    ensures err { IsErr result ↔ IsErr opened }
    ensures memory { IsErrOf result HoldFault.Memory ↔ IsErrAnd opened (λ e. error_kind e ≡ ErrorKind.OutOfMemory) }
{
    match opened {
        Ok(file) => Ok(file),
        Err(e) if e.kind() == ErrorKind::OutOfMemory => Err(HoldFault::Memory),
        Err(_) => Err(HoldFault::Unopened),
    }
}
