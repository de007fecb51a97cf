//! Everything outside the program, as traits of the project's own: where bytes come from and go to, what
//! time it is, and random words. Each reports one record, `seen`, so that a contract can speak of what it holds, and a
//! source and a sink count their faults, so that code over them can't blame them. The forms in memory report all; the
//! adapters over the operating system report only their faults. `read_up_to` and `write_whole` are the calls to begin
//! with, and `specs/Devices` has the facts that they stand on.
#![tactic(auto)]

mod chacha_words;
mod clock;
mod held_streams;
mod list_words;
mod memory_clock;
mod memory_sink;
mod memory_source;
mod random_words;
mod retry;
mod seed;
mod sink;
mod source;
mod system;

pub use crate::chacha_words::ChaChaWords;
pub use crate::clock::{Clock, moment_of};
pub use crate::held_streams::{HeldStreams, HoldFault};
pub use crate::list_words::ListWords;
pub use crate::memory_clock::MemClock;
pub use crate::memory_sink::MemSink;
pub use crate::memory_source::MemSource;
pub use crate::random_words::{REQUEST_WORDS, Words, request_words};
pub use crate::seed::{SeedFault, seed_from};
pub use crate::sink::{Sink, write_whole};
pub use crate::source::{Failed, InputFault, Source, read_up_to};
pub use crate::system::{FileSource, StdSink, StdSource, SystemClock};

#[cfg(test)]
mod tests;
