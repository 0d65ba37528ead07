// A sink in memory.
ghost use Rattle.std.specs.Prelude.{◌≡◌, ◌<◌, ◌≤◌, ◌++◌, [], length, take, Contains, IfOk, OnOk, OnErr, IsErr};
ghost use Rattle.ae_outside.specs.Causes.{HasRisen, HasCause};
ghost use Rattle.ae_memory.specs.Calls.{IsCall, IsFed};
ghost use Rattle.ae_outside.specs.Streams.{TakesPrefix};

use crate::calls::Calls;
use ae_outside::{Failed, Sink};
use std::alloc::{AllocError, Global};
use std::marker::Model;

/// Takes each piece whole. Contracts see the record of what it has taken and the calls.
#[derive(Drop)]
pub struct MemSink {
    taken: Vec<u8>,
    calls: Calls,
}

impl Model for MemSink {
    ghost use Rattle.ae_memory.specs.MemStreams.{SinkState};

    ghost Value = { SinkState };

    ghost view = { λ a. record {
      taken = a.taken.items;
      counts = a.calls;
    } };
}

impl MemSink {
    /// A sink that has taken nothing. The calls of these numbers fail, counted from 1.
    pub fn new(alloc: Global, fails: &[u64]) -> Result<MemSink, AllocError>
        ensures { IfOk result (λ sink. sink ≡ record { taken = []; counts = record { fails = fails.now; calls = 0; failed = 0; starved = 0 } }) }
    {
        Ok(MemSink {
            taken: Vec::new(alloc),
            calls: Calls::new(alloc, fails)?,
        })
    }

    /// The bytes that it has taken.
    pub fn taken(&self) -> &[u8]
        ensures { result.now ≡ self.now.taken }
    {
        self.taken.as_slice()
    }

    /// How many calls there were.
    pub fn calls(&self) -> u64
        ensures { result ≡ self.now.counts.calls }
    {
        self.calls.calls()
    }

    /// How many calls found no memory to grow.
    pub fn starved(&self) -> u64
        ensures { result ≡ self.now.counts.starved }
    {
        self.calls.starved()
    }
}

impl Sink for MemSink {
    ghost tells = { Unit {0} };

    ghost taken = { λ sink. sink.taken };

    ghost faults = { λ sink. sink.counts.failed };

    fn write(&mut self, bytes: &[u8]) -> Result<usize, Failed>
        requires { 0 < length bytes.now }
        ensures at_most { IfOk result (λ n. n ≤ length bytes.now) }
        ensures takes { IfOk result (λ n. self.new.taken ≡ self.old.taken ++ take n bytes.now) }
        ensures whole { IfOk result (λ n. n ≡ length bytes.now) }
        ensures kept { OnErr result (self.new.taken ≡ self.old.taken) }
        ensures part { OnErr result (TakesPrefix self.old.taken self.new.taken bytes.now) }
        ensures none { IfOk result (λ n. n ≡ 0 → HasRisen self.old.counts.failed self.new.counts.failed) }
        ensures cause { HasCause self.old.counts.failed self.new.counts.failed result }
        ensures exact { IsCall self.old.counts self.new.counts (IsErr result) }
        ensures fed { OnOk result (IsFed self.old.counts self.new.counts) }
        ensures listed_fed { Contains self.old.counts.fails self.new.counts.calls → IsFed self.old.counts self.new.counts }
    {
        if self.calls.begins() {
            return Err(Failed);
        }
        if self.taken.extend_from_slice(bytes).is_err() {
            self.calls.starves();
            return Err(Failed);
        }
        Ok(bytes.len())
    }
}
