//! A sink in memory, for tests and for worked examples.

ghost use Rattle.std.specs.Prelude.{◌≡◌, ◌≤◌, ◌<◌, ◌↔◌, ◌⊎◌, [], length, take, IsErr, IfOk, OnErr, Contains};
ghost use Rattle.outside.specs.Devices.{HasWritten, IsFailedWrite};
ghost use Rattle.outside.specs.Memory.{taken_of, output_of, output_after, output_after_fault};

use crate::memory_source::is_listed;
use crate::sink::Sink;
use crate::source::Failed;
use crypto_text::Ids;
use std::alloc::{AllocError, Global};
use std::marker::Model;

/// Room for bytes that are written at most so many a call, by calls of which chosen ones fail.
#[derive(Drop)]
pub struct MemSink {
    bytes: Vec<u8>,
    room: usize,
    most: usize,
    fail_at: Ids,
    number: u64,
    faults: u64,
}

impl Model for MemSink {
    ghost use Rattle.std.specs.Prelude.{◌≤◌, ◌+◌, vec_len, vec_capacity};
    ghost use Rattle.outside.specs.Memory.{MemoryOutput};

    ghost Value = { MemoryOutput };

    ghost view = { λ m. record {
      written = m.bytes.items;
      room = m.room;
      most = m.most;
      fail_at = m.fail_at;
      number = m.number;
      faults = m.faults;
    } };

    ghost invariant = { λ m. (vec_len m.bytes + m.room ≤ vec_capacity m.bytes) × (1 ≤ m.most) };
}

impl MemSink {
    /// An empty sink with room for `room` bytes, which are reserved here, that takes at most `most` of them a
    /// call. `fail_at` numbers the calls that fail, from 0.
    pub fn new(alloc: Global, room: usize, most: usize, fail_at: Ids) -> Result<MemSink, AllocError>
        requires { 1 ≤ most }
        ensures { IfOk result (λ sink. sink ≡ record { written = []; room = room; most = most; fail_at = fail_at; number = 0; faults = 0 }) }
    {
        Ok(MemSink {
            bytes: Vec::with_capacity(alloc, room)?,
            room,
            most,
            fail_at,
            number: 0,
            faults: 0,
        })
    }

    /// What was written.
    pub fn bytes(&self) -> &[u8]
        ensures { result.now ≡ self.now.written }
    {
        self.bytes.as_slice()
    }
}

impl Sink for MemSink {
    ghost seen = { output_of };

    /// Fails where the call's number is listed or a nonempty piece finds no room, and else takes as many bytes
    /// as it can. Takes no memory.
    fn write(&mut self, piece: &[u8]) -> Result<usize, Failed>
        ensures bound { IfOk result (λ n. n ≤ length piece.now) }
        ensures some { IfOk result (λ n. 0 < length piece.now → 0 < n) }
        ensures ok { IfOk result (λ n. HasWritten (output_of self.old) (output_of self.new) (take n piece.now)) }
        ensures err { OnErr result (IsFailedWrite (output_of self.old) (output_of self.new)) }
        ensures failed { IsErr result ↔ (Contains self.old.fail_at self.old.number ⊎ (0 < length piece.now × self.old.room ≡ 0)) }
        ensures after_fault { OnErr result (self.new ≡ output_after_fault self.old) }
        ensures count { IfOk result (λ n. n ≡ taken_of self.old (length piece.now)) }
        ensures after { IfOk result (λ n. self.new ≡ output_after self.old (take n piece.now)) }
    {
        let fails = is_listed(self.fail_at.items(), self.number)
            || (!piece.is_empty() && self.room == 0);
        self.number = self.number.saturating_add(1);
        if fails {
            self.faults = self.faults.saturating_add(1);
            return Err(Failed);
        }
        let count = piece.len().min(self.most).min(self.room);
        self.room -= count;
        match self.bytes.extend_from_slice(&piece[..count]) {
            Ok(()) => Ok(count),
            Err(_) => unreachable!(),
        }
    }

    fn write_faults(&self) -> u64 {
        self.faults
    }
}
