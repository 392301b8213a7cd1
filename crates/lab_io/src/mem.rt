// A source and a sink in memory.
ghost use Rattle.std.specs.Prelude.{◌≡◌, ◌≤◌, ◌<◌, ◌+◌, ◌-◌, ◌^◌, ◌⊎◌, [], ◌↔◌, length, min, Contains, IfOk, IsErr, IsTrue, vec_len, vec_capacity};

use crate::outside::{Failed, Sink, Source};
use lab_base::Memory;
use std::alloc::Global;

/// The calls that are to fail, by their numbers from 1, and the number of calls so far.
#[derive(Drop)]
struct Calls {
    fails: Vec<u32>,
    made: u64,
    faults: u64,
}

impl Calls {
    ghost use Rattle.lab_io.specs.Calls.{number_of, fails_of, faults_of};

    /// Counts a call; true where it is to fail.
    fn count(&mut self) -> bool
        ensures fails { IsTrue result ↔ Contains (fails_of self.old) (number_of self.old) }
        ensures numbers { fails_of self.new ≡ fails_of self.old }
        ensures made { self.new.made ≡ min (self.old.made + 1) (2 ^ 64 - 1) }
        ensures faults { faults_of self.new ≡ faults_of self.old }
    {
        self.made = self.made.saturating_add(1);
        let number = self.made;
        self.fails.iter().any(|fail| u64::from(*fail) == number)
    }

    /// Counts a fault.
    fn fault(&mut self)
        ensures numbers { fails_of self.new ≡ fails_of self.old }
        ensures made { self.new.made ≡ self.old.made }
        ensures faults { faults_of self.new ≡ min (faults_of self.old + 1) (2 ^ 64 - 1) }
        ensures later { faults_of self.old ≤ faults_of self.new }
    {
        self.faults = self.faults.saturating_add(1);
    }
}

/// A source in memory. It tells its bytes, and fails exactly at the calls whose numbers it was made with.
#[derive(Drop)]
pub struct MemSource {
    bytes: Vec<u8>,
    at: usize,
    calls: Calls,
    ghost within: { at ≤ vec_len bytes },
}

impl MemSource {
    ghost use Rattle.lab_io.specs.Mem.{source_left, source_calls};
    ghost use Rattle.lab_io.specs.Calls.{number_of, fails_of, faults_of};

    /// A source of these bytes; the reads with these numbers, from 1, fail.
    pub fn new(alloc: Global, bytes: &[u8], fails: &[u32]) -> Result<MemSource, Memory>
        ensures left { IfOk result (λ source. source_left source ≡ bytes.now) }
        ensures fails { IfOk result (λ source. fails_of (source_calls source) ≡ fails.now) }
        ensures first { IfOk result (λ source. number_of (source_calls source) ≡ 1) }
        ensures faults { IfOk result (λ source. faults_of (source_calls source) ≡ 0) }
    {
        Ok(MemSource {
            bytes: bytes.to_vec(alloc)?,
            at: 0,
            calls: Calls {
                fails: fails.to_vec(alloc)?,
                made: 0,
                faults: 0,
            },
        })
    }
}

impl Source for MemSource {
    ghost use Rattle.std.specs.Prelude.{◌≡◌, ◌<◌, ◌↔◌, length, take, Some, Contains, IfOk, IsErr, OnOk, OnErr, Ok};
    ghost use Rattle.std.specs.Io.{ReadsAtMost};
    ghost use Rattle.std.specs.Io.KnownBytes.{prepend_known, IsAtEnd};
    ghost use Rattle.lab_io.specs.Causes.{HasCause};
    ghost use Rattle.lab_io.specs.Calls.{number_of, next_number, fails_of, faults_of};
    ghost use Rattle.lab_io.specs.Mem.{source_left, source_calls};

    ghost left = { λ s. Some (source_left s) };

    ghost faults = { λ s. faults_of (source_calls s) };

    fn read(&mut self, into: &mut [u8]) -> Result<usize, Failed>
        ensures bound { ReadsAtMost result into.new }
        ensures took { IfOk result (λ n. Some (source_left self.old) ≡ prepend_known (take n into.new) (Some (source_left self.new))) }
        ensures end { result ≡ Ok 0 → 0 < length into.new → IsAtEnd (Some (source_left self.new)) }
        ensures err { OnErr result (Some (source_left self.new) ≡ Some (source_left self.old)) }
        ensures cause { HasCause (faults_of (source_calls self.old)) (faults_of (source_calls self.new)) result }
        ensures exact { IsErr result ↔ Contains (fails_of (source_calls self.old)) (number_of (source_calls self.old)) }
        ensures numbers { fails_of (source_calls self.new) ≡ fails_of (source_calls self.old) }
        ensures counted { number_of (source_calls self.new) ≡ next_number (number_of (source_calls self.old)) }
        ensures stands { OnOk result (faults_of (source_calls self.new) ≡ faults_of (source_calls self.old)) }
    {
        if self.calls.count() {
            self.calls.fault();
            return Err(Failed);
        }
        let n = into.len().min(self.bytes.len() - self.at);
        into[..n].copy_from_slice(&self.bytes[self.at..self.at + n]);
        self.at += n;
        Ok(n)
    }
}

/// A sink in memory. It tells the bytes written. It fails exactly at the calls whose numbers it was made with, and where its room is full. A write
/// takes no memory.
#[derive(Drop)]
pub struct MemSink {
    bytes: Vec<u8>,
    room: usize,
    calls: Calls,
    ghost reserved: { room ≤ vec_capacity bytes },
}

impl MemSink {
    ghost use Rattle.lab_io.specs.Mem.{sink_bytes, sink_room, sink_calls};
    ghost use Rattle.lab_io.specs.Calls.{number_of, next_number, fails_of, faults_of};

    /// A sink with room for so many bytes; the writes with these numbers, from 1, fail.
    pub fn new(alloc: Global, room: usize, fails: &[u32]) -> Result<MemSink, Memory>
        ensures bytes { IfOk result (λ sink. sink_bytes sink ≡ []) }
        ensures room { IfOk result (λ sink. sink_room sink ≡ room) }
        ensures fails { IfOk result (λ sink. fails_of (sink_calls sink) ≡ fails.now) }
        ensures first { IfOk result (λ sink. number_of (sink_calls sink) ≡ 1) }
        ensures faults { IfOk result (λ sink. faults_of (sink_calls sink) ≡ 0) }
    {
        Ok(MemSink {
            bytes: Vec::with_capacity(alloc, room)?,
            room,
            calls: Calls {
                fails: fails.to_vec(alloc)?,
                made: 0,
                faults: 0,
            },
        })
    }

    /// The bytes written so far.
    pub fn bytes(&self) -> &[u8]
        ensures { result.now ≡ sink_bytes self.now }
    {
        &self.bytes
    }
}

impl Sink for MemSink {
    ghost use Rattle.std.specs.Prelude.{◌≡◌, ◌<◌, ◌≤◌, ◌↔◌, ◌⊎◌, length, take, Some, Contains, IfOk, IsErr, OnOk, OnErr};
    ghost use Rattle.std.specs.Io.KnownBytes.{append_known};
    ghost use Rattle.lab_io.specs.Causes.{HasCause};
    ghost use Rattle.lab_io.specs.Calls.{number_of, next_number, fails_of, faults_of};
    ghost use Rattle.lab_io.specs.Mem.{sink_bytes, sink_room, sink_calls};

    ghost written = { λ s. Some (sink_bytes s) };

    ghost faults = { λ s. faults_of (sink_calls s) };

    fn write(&mut self, bytes: &[u8]) -> Result<usize, Failed>
        ensures bound { IfOk result (λ n. n ≤ length bytes.now) }
        ensures some { IfOk result (λ n. 0 < length bytes.now → 0 < n) }
        ensures wrote { IfOk result (λ n. Some (sink_bytes self.new) ≡ append_known (Some (sink_bytes self.old)) (take n bytes.now)) }
        ensures err { OnErr result (Some (sink_bytes self.new) ≡ Some (sink_bytes self.old)) }
        ensures cause { HasCause (faults_of (sink_calls self.old)) (faults_of (sink_calls self.new)) result }
        ensures exact { IsErr result ↔ Contains (fails_of (sink_calls self.old)) (number_of (sink_calls self.old))
            ⊎ sink_room self.old ≤ length (sink_bytes self.old) }
        ensures numbers { fails_of (sink_calls self.new) ≡ fails_of (sink_calls self.old) }
        ensures counted { number_of (sink_calls self.new) ≡ next_number (number_of (sink_calls self.old)) }
        ensures stands { OnOk result (faults_of (sink_calls self.new) ≡ faults_of (sink_calls self.old)) }
        ensures room { sink_room self.new ≡ sink_room self.old }
    {
        if self.calls.count() || self.bytes.len() >= self.room {
            self.calls.fault();
            return Err(Failed);
        }
        let n = bytes.len().min(self.room - self.bytes.len());
        self.bytes.extend_from_slice(&bytes[..n]).unwrap();
        Ok(n)
    }
}
