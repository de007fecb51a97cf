//! Files, the standard streams and the clock of the operating system. They count their faults, and don't report what they
//! hold: what they do to a reader or a writer whose bytes are known, their clauses say by that.

ghost use Rattle.std.specs.Prelude.{◌≡◌, ◌≤◌, ◌<◌, ◌↔◌, None, Some, true, false, length, take, IfOk, OnOk, OnErr, IsErr, IsNone, IsErrAnd, IfErr, option_and_then};
ghost use Rattle.std.specs.Io.KnownBytes.{ReadConsumes, WriteAppends};
ghost use Rattle.std.specs.IoError.{error_kind};
ghost use Rattle.outside.specs.Devices.{HasRead, IsFailedRead, HasEnded, HasWritten, IsFailedWrite, counted_input, counted_output, counted_input-never_failed};

use crate::clock::Clock;
use crate::retry::{read_retrying, write_retrying};
use crate::sink::Sink;
use crate::source::{Failed, Source};
use std::alloc::AllocError;
use std::fs;
use std::io::{self, ErrorKind, Read, Write};
use std::rt::{Clock as SystemTime, Files};

/// A file that is read from its start.
#[derive(Drop)]
pub struct FileSource<F> {
    file: Option<F>,
    faults: u64,
}

impl<F: Read + Drop> FileSource<F> {
    /// Opens a file. Where that fails, each read of the source fails, and a folder fails at its first read. Only out of
    /// memory is refused here, since a program ends otherwise with it than with a file that isn't there.
    pub fn open<R: Files<File = F>>(rt: &R, path: &str) -> Result<FileSource<F>, AllocError>
        ensures { IfOk result (λ source. (⟦<FileSource<F> as Source>⟧.seen source).faults ≡ 0) }
    {
        FileSource::of_opened(fs::open(rt, path))
    }

    fn of_opened(opened: io::Result<F>) -> Result<FileSource<F>, AllocError>
        ensures file { IfOk opened (λ file. result ≡ Ok (record { file = Some file; faults = 0 })) }
        ensures no_file { OnErr opened (IfOk result (λ source. source ≡ record { file = None; faults = 0 })) }
        ensures memory { IsErr result ↔ IsErrAnd opened (λ e. error_kind e ≡ ErrorKind.OutOfMemory) }
    {
        match opened {
            Ok(file) => Ok(FileSource {
                file: Some(file),
                faults: 0,
            }),
            Err(e) if e.kind() == ErrorKind::OutOfMemory => Err(AllocError),
            Err(_) => Ok(FileSource {
                file: None,
                faults: 0,
            }),
        }
    }
}

impl<F: Read + Drop> Source for FileSource<F> {
    ghost seen = { λ s. counted_input s.faults };

    ghost never_failed = { λ s never_fails. counted_input-never_failed s.faults never_fails };

    fn read(&mut self, buf: &mut [u8]) -> Result<usize, Failed>
        ensures bound { IfOk result (λ n. n ≤ length buf.new) }
        ensures ok { IfOk result (λ n. HasRead (counted_input self.old.faults) (counted_input self.new.faults) (take n buf.new)) }
        ensures end { IfOk result (λ n. n ≡ 0 → 0 < length buf.new → HasEnded (counted_input self.new.faults)) }
        ensures err { OnErr result (IsFailedRead (counted_input self.old.faults) (counted_input self.new.faults)) }
        ensures bytes { ReadConsumes (option_and_then F.remaining self.old.file) (option_and_then F.remaining self.new.file) result buf.new }
        ensures no_file { IsNone self.old.file → IsErr result }
    {
        if let Some(file) = &mut self.file {
            if let Ok(count) = read_retrying(file, buf) {
                return Ok(count);
            }
        }
        self.faults = self.faults.saturating_add(1);
        Err(Failed)
    }

    fn read_faults(&self) -> u64 {
        self.faults
    }
}

/// A reader of std, as the standard input.
#[derive(Drop)]
pub struct StdSource<I> {
    input: I,
    faults: u64,
}

impl<I: Read + Drop> StdSource<I> {
    /// A source over a reader, as `rt.reader()`.
    pub fn new(input: I) -> StdSource<I>
        ensures { result ≡ record { input = input; faults = 0 } }
    {
        StdSource { input, faults: 0 }
    }
}

impl<I: Read + Drop> Source for StdSource<I> {
    ghost seen = { λ s. counted_input s.faults };

    ghost never_failed = { λ s never_fails. counted_input-never_failed s.faults never_fails };

    fn read(&mut self, buf: &mut [u8]) -> Result<usize, Failed>
        ensures bound { IfOk result (λ n. n ≤ length buf.new) }
        ensures ok { IfOk result (λ n. HasRead (counted_input self.old.faults) (counted_input self.new.faults) (take n buf.new)) }
        ensures end { IfOk result (λ n. n ≡ 0 → 0 < length buf.new → HasEnded (counted_input self.new.faults)) }
        ensures err { OnErr result (IsFailedRead (counted_input self.old.faults) (counted_input self.new.faults)) }
        ensures bytes { ReadConsumes (I.remaining self.old.input) (I.remaining self.new.input) result buf.new }
    {
        match read_retrying(&mut self.input, buf) {
            Ok(count) => Ok(count),
            Err(_) => {
                self.faults = self.faults.saturating_add(1);
                Err(Failed)
            }
        }
    }

    fn read_faults(&self) -> u64 {
        self.faults
    }
}

/// A writer of std, as the standard output.
#[derive(Drop)]
pub struct StdSink<O> {
    output: O,
    faults: u64,
}

impl<O: Write + Drop> StdSink<O> {
    /// A sink over a writer that keeps nothing back, as `io::writer(rt)`: it is never flushed.
    pub fn new(output: O) -> StdSink<O>
        ensures { result ≡ record { output = output; faults = 0 } }
    {
        StdSink { output, faults: 0 }
    }
}

impl<O: Write + Drop> Sink for StdSink<O> {
    ghost seen = { λ s. counted_output s.faults };

    fn write(&mut self, piece: &[u8]) -> Result<usize, Failed>
        ensures bound { IfOk result (λ n. n ≤ length piece.now) }
        ensures some { IfOk result (λ n. 0 < length piece.now → 0 < n) }
        ensures ok { IfOk result (λ n. HasWritten (counted_output self.old.faults) (counted_output self.new.faults) (take n piece.now)) }
        ensures err { OnErr result (IsFailedWrite (counted_output self.old.faults) (counted_output self.new.faults)) }
        ensures bytes { WriteAppends (O.contents self.old.output) (O.contents self.new.output) result piece.now }
    {
        match write_retrying(&mut self.output, piece) {
            Ok(count) if count > 0 || piece.is_empty() => Ok(count),
            _ => {
                self.faults = self.faults.saturating_add(1);
                Err(Failed)
            }
        }
    }

    fn write_faults(&self) -> u64 {
        self.faults
    }
}

/// The clock of a runtime, in whole seconds since 1970. It reads 0 where it can't be read or shows a time before 1970.
#[derive(Drop)]
pub struct SystemClock<C> {
    clock: C,
}

impl<C: SystemTime + Drop> SystemClock<C> {
    /// A clock over the runtime's, as `&rt`.
    pub fn new(clock: C) -> SystemClock<C>
        ensures { result ≡ record { clock = clock } }
    {
        SystemClock { clock }
    }
}

impl<C: SystemTime + Drop> Clock for SystemClock<C> {
    ghost seen = { λ _. None };

    fn now(&mut self) -> u64 {
        self.clock.since_1970().map_or(0, |time| time.as_secs())
    }
}
