//! Ends in memory, some of whose calls are to fail.

ghost use Rattle.std.specs.Prelude.{◌≡◌, ◌≤◌, ◌<◌, ◌++◌, ◌==◌, [], true, false, Some, min, length, take, drop, IfOk, MatchResult};
ghost use Rattle.std.specs.List.{list_any};
ghost use Rattle.ice_base.specs.Ends.{ReadsOnce, WritesOnce};
ghost use Rattle.ice_base.specs.ByteEnds.{source_at, sink_at, read_fails, given, after_read, write_fails, accepted, after_write};

use crate::ends::one_more;
use crate::{Failed, Sink, Source};
use std::alloc::{AllocError, Global};
use std::marker::Model;

/// Whether the call of this number is to fail.
fn is_planned(fail: &[u64], number: u64) -> bool
    ensures { result ≡ list_any (λ planned. planned == number) fail.now }
{
    fail.contains(&number)
}

/// Copies as many bytes as there are and as fit to the front of `into`, and says how many.
fn copy_front(into: &mut [u8], from: &[u8]) -> usize
    ensures count { result ≡ min (length into.old) (length from.now) }
    ensures into { into.new ≡ take result from.now ++ drop result into.old }
{
    let count = into.len().min(from.len());
    into[..count].copy_from_slice(&from[..count]);
    count
}

/// The bytes of a list. It tells what is left.
#[derive(Debug, Drop)]
pub struct ByteSource {
    bytes: Vec<u8>,
    place: usize,
    fail: Vec<u64>,
    calls: u64,
    faults: u64,
}

impl Model for ByteSource {
    ghost use Rattle.std.specs.Prelude.{drop, vec_len, ◌≤◌};
    ghost use Rattle.ice_base.specs.ByteEnds.{ByteSourceAt};

    ghost Value = { ByteSourceAt };

    ghost view = { λ s. record { left = drop s.place s.bytes.items; fail = s.fail.items; calls = s.calls; faults = s.faults } };

    ghost invariant = { λ s. s.place ≤ vec_len s.bytes };
}

impl ByteSource {
    /// These bytes, of which the reads whose numbers, counted from 0, stand in `fail` fail.
    pub fn new(bytes: Vec<u8>, fail: Vec<u64>) -> ByteSource
        ensures { result ≡ record { left = bytes.items; fail = fail.items; calls = 0; faults = 0 } }
    {
        ByteSource {
            bytes,
            place: 0,
            fail,
            calls: 0,
            faults: 0,
        }
    }
}

impl Source for ByteSource {
    ghost at = { source_at };

    /// Gives as many bytes as there are and as fit, and takes no memory.
    fn read(&mut self, into: &mut [u8]) -> Result<usize, Failed>
        requires { 0 < length into.old }
        ensures reads { ReadsOnce (source_at self.old) (source_at self.new) into.new result }
        ensures answer { MatchResult result
            (λ count. (read_fails self.old ≡ false) × (count ≡ given self.old (length into.old)))
            (λ _. read_fails self.old ≡ true) }
        ensures after { self.new ≡ after_read self.old (length into.old) }
    {
        let fails = is_planned(&self.fail, self.calls);
        self.calls = one_more(self.calls);
        if fails {
            self.faults = one_more(self.faults);
            return Err(Failed);
        }
        let count = copy_front(into, &self.bytes[self.place..]);
        self.place += count;
        Ok(count)
    }
}

/// A list of bytes that holds so many at most. It tells what was written.
#[derive(Debug, Drop)]
pub struct ByteSink {
    buffer: Vec<u8>,
    filled: usize,
    fail: Vec<u64>,
    calls: u64,
    faults: u64,
}

impl Model for ByteSink {
    ghost use Rattle.std.specs.Prelude.{take, vec_len, ◌≤◌};
    ghost use Rattle.ice_base.specs.ByteEnds.{ByteSinkAt};

    ghost Value = { ByteSinkAt };

    ghost view = { λ s. record { written = take s.filled s.buffer.items; room = vec_len s.buffer; fail = s.fail.items; calls = s.calls; faults = s.faults } };

    ghost invariant = { λ s. s.filled ≤ vec_len s.buffer };
}

impl ByteSink {
    /// Room for so many bytes. The writes whose numbers, counted from 0, stand in `fail` fail, and so
    /// does one when no room is left.
    pub fn new(alloc: Global, room: usize, fail: Vec<u64>) -> Result<ByteSink, AllocError>
        ensures { IfOk result
            (λ sink. sink ≡ record {
              written = [];
              room = room;
              fail = fail.items;
              calls = 0;
              faults
                  = 0;
            }) }
    {
        Ok(ByteSink {
            buffer: vec![in alloc; 0u8; room]?,
            filled: 0,
            fail,
            calls: 0,
            faults: 0,
        })
    }

    /// All that was written.
    pub fn written(&self) -> &[u8]
        ensures { result.now ≡ self.now.written }
    {
        &self.buffer[..self.filled]
    }
}

impl Sink for ByteSink {
    ghost at = { sink_at };

    /// Takes as many bytes as there are and as there is room for, and no memory.
    fn write(&mut self, from: &[u8]) -> Result<usize, Failed>
        requires { 0 < length from.now }
        ensures writes { WritesOnce (sink_at self.old) (sink_at self.new) from.now result }
        ensures answer { MatchResult result
            (λ count. (write_fails self.old ≡ false) × (count ≡ accepted self.old from.now))
            (λ _. write_fails self.old ≡ true) }
        ensures after { self.new ≡ after_write self.old from.now }
    {
        let fails = is_planned(&self.fail, self.calls) || self.buffer.len() <= self.filled;
        self.calls = one_more(self.calls);
        if fails {
            self.faults = one_more(self.faults);
            return Err(Failed);
        }
        let count = copy_front(&mut self.buffer[self.filled..], from);
        self.filled += count;
        Ok(count)
    }
}
