// A source in memory.
ghost use Rattle.std.specs.Prelude.{◌≡◌, ◌↔◌, ◌+◌, ◌<◌, ◌≤◌, ◌++◌, [], length, take, drop, min, IfOk, OnErr, IsErr};
ghost use Rattle.ae_outside.specs.Causes.{HasCause};
ghost use Rattle.ae_memory.specs.Calls.{IsCall, IsFed};

use crate::calls::Calls;
use ae_outside::{Failed, Source};
use std::alloc::{AllocError, Global};
use std::marker::Model;

/// Bytes that are given in pieces. Contracts see the record of what is left, the piece and the calls.
#[derive(Drop)]
pub struct MemSource {
    bytes: Vec<u8>,
    at: usize,
    piece: usize,
    calls: Calls,
}

impl Model for MemSource {
    ghost use Rattle.std.specs.Prelude.{◌≤◌, ◌<◌, length, drop};
    ghost use Rattle.ae_memory.specs.MemStreams.{SourceState};

    ghost Value = { SourceState };

    ghost view = { λ a. record {
      left = drop a.at a.bytes.items;
      piece = a.piece;
      counts = a.calls;
    } };

    ghost invariant = { λ a. (a.at ≤ length a.bytes.items) × (0 < a.piece) };
}

impl MemSource {
    /// The source of these bytes, of which a call gives at most `piece`. The calls of these numbers fail, counted from 1.
    pub fn new(
        alloc: Global,
        bytes: Vec<u8>,
        piece: usize,
        fails: &[u64],
    ) -> Result<MemSource, AllocError>
        requires { 0 < piece }
        ensures { IfOk result (λ source. source ≡ record { left = bytes.items; piece = piece; counts = record { fails = fails.now; calls = 0; failed = 0; starved = 0 } }) }
    {
        Ok(MemSource {
            calls: Calls::new(alloc, fails)?,
            bytes,
            at: 0,
            piece,
        })
    }

    /// How many calls there were.
    pub fn calls(&self) -> u64
        ensures { result ≡ self.now.counts.calls }
    {
        self.calls.calls()
    }
}

// Moves what stands at a place of `from` to the front of `into`, at most so many bytes, and answers their number.
fn move_piece(from: &[u8], at: usize, most: usize, into: &mut [u8]) -> usize
    requires { at ≤ length from.now }
    ensures least { result ≡ min most (min (length into.old) (length (drop at from.now))) }
    ensures moved { drop at from.now ≡ take result into.new ++ drop (at + result) from.now }
    ensures beyond { drop result into.new ≡ drop result into.old }
    ensures len { length into.new ≡ length into.old }
{
    let rest = &from[at..];
    let count = most.min(into.len()).min(rest.len());
    into[..count].copy_from_slice(&rest[..count]);
    count
}

impl Source for MemSource {
    ghost tells = { Unit {0} };

    ghost left = { λ source. source.left };

    ghost faults = { λ source. source.counts.failed };

    fn read(&mut self, into: &mut [u8]) -> Result<usize, Failed>
        requires { 0 < length into.old }
        ensures at_most { IfOk result (λ n. n ≤ length into.new) }
        ensures moved { IfOk result (λ n. self.old.left ≡ take n into.new ++ self.new.left) }
        // What stands in the buffer after the piece stays, and all of it where the call fails.
        ensures beyond { IfOk result (λ n. drop n into.new ≡ drop n into.old) }
        ensures not_moved { OnErr result (into.new ≡ into.old) }
        ensures rest { IfOk result (λ n. self.new.left ≡ drop n self.old.left) }
        ensures at_end { IfOk result (λ n. (n ≡ 0) ↔ (self.old.left ≡ [])) }
        ensures kept { OnErr result (self.new.left ≡ self.old.left) }
        ensures least { IfOk result (λ n. n ≡ min self.old.piece (min (length into.old) (length self.old.left))) }
        ensures piece { self.new.piece ≡ self.old.piece }
        ensures cause { HasCause self.old.counts.failed self.new.counts.failed result }
        ensures exact { IsCall self.old.counts self.new.counts (IsErr result) }
        ensures fed { IsFed self.old.counts self.new.counts }
    {
        if self.calls.begins() {
            return Err(Failed);
        }
        let count = move_piece(&self.bytes, self.at, self.piece, into);
        self.at += count;
        Ok(count)
    }
}
