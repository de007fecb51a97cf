//! A source in memory, for tests and for worked examples.

ghost use Rattle.std.specs.Prelude.{◌≡◌, ◌≤◌, ◌↔◌, ◌<◌, ◌++◌, length, take, drop, min, IsErr, IsTrue, IfOk, OnErr, Contains};
ghost use Rattle.outside.specs.Devices.{HasRead, IsFailedRead, HasEnded};
ghost use Rattle.outside.specs.Memory.{given_to, input_of, input_after, input_after_fault, is_faultless-no_faults};

use crate::source::{Failed, Source};
use crypto_text::{Bytes, Ids};
use std::marker::Model;

/// Bytes that are read at most so many a call, by calls of which chosen ones fail.
#[derive(Drop)]
pub struct MemSource {
    bytes: Bytes,
    at: usize,
    most: usize,
    fail_at: Ids,
    number: u64,
    faults: u64,
}

impl Model for MemSource {
    ghost use Rattle.std.specs.Prelude.{◌≤◌, length, drop};
    ghost use Rattle.outside.specs.Memory.{MemoryInput};

    ghost Value = { MemoryInput };

    ghost view = { λ m. record {
      left = drop m.at m.bytes;
      most = m.most;
      fail_at = m.fail_at;
      number = m.number;
      faults = m.faults;
    } };

    ghost invariant = { λ m. (m.at ≤ length m.bytes) × (1 ≤ m.most) };
}

impl MemSource {
    /// A source of these bytes that gives at most `most` of them a call. `fail_at` numbers the calls that fail,
    /// from 0.
    pub fn new(bytes: Bytes, most: usize, fail_at: Ids) -> MemSource
        requires { 1 ≤ most }
        ensures { result ≡ record { left = bytes; most = most; fail_at = fail_at; number = 0; faults = 0 } }
    {
        MemSource {
            bytes,
            at: 0,
            most,
            fail_at,
            number: 0,
            faults: 0,
        }
    }
}

impl Source for MemSource {
    ghost seen = { input_of };

    ghost never_failed = { λ m faultless. is_faultless-no_faults m.fail_at m.faults faultless };

    /// Fails where the call's number is listed, and else gives as many bytes as it can.
    fn read(&mut self, buf: &mut [u8]) -> Result<usize, Failed>
        ensures bound { IfOk result (λ n. n ≤ length buf.new) }
        ensures ok { IfOk result (λ n. HasRead (input_of self.old) (input_of self.new) (take n buf.new)) }
        ensures end { IfOk result (λ n. n ≡ 0 → 0 < length buf.new → HasEnded (input_of self.new)) }
        ensures err { OnErr result (IsFailedRead (input_of self.old) (input_of self.new)) }
        ensures failed { IsErr result ↔ Contains self.old.fail_at self.old.number }
        ensures after_fault { OnErr result (self.new ≡ input_after_fault self.old) }
        ensures count { IfOk result (λ n. n ≡ given_to self.old (length buf.new)) }
        ensures after { IfOk result (λ n. self.new ≡ input_after self.old n) }
    {
        let fails = is_listed(self.fail_at.items(), self.number);
        self.number = self.number.saturating_add(1);
        if fails {
            self.faults = self.faults.saturating_add(1);
            return Err(Failed);
        }
        let count = give(&self.bytes.items()[self.at..], self.most, buf);
        self.at += count;
        Ok(count)
    }

    fn read_faults(&self) -> u64 {
        self.faults
    }
}

/// Whether a call of this number is one of those that fail.
pub(crate) fn is_listed(numbers: &[u64], number: u64) -> bool
    ensures { IsTrue result ↔ Contains numbers.now number }
{
    numbers.contains(&number)
}

// Copies the first bytes of `rest`, at most `most` and as many as fit.
fn give(rest: &[u8], most: usize, buf: &mut [u8]) -> usize
    ensures count { result ≡ min (min (length rest.now) most) (length buf.new) }
    ensures copied { rest.now ≡ take result buf.new ++ drop result rest.now }
{
    let count = rest.len().min(most).min(buf.len());
    buf[..count].copy_from_slice(&rest[..count]);
    count
}
