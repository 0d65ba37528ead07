// The calls of a form in memory, counted.
ghost use Rattle.std.specs.Prelude.{◌≡◌, ◌↔◌, ◌≤◌, true, false, IsTrue, Contains, IfOk, if◌then◌else◌};
ghost use Rattle.ae_outside.specs.Causes.{next};
ghost use Rattle.ae_memory.specs.Calls.{Counts, IsCall};

use std::alloc::{AllocError, Global};
use std::marker::Model;

/// Which calls fail, and how many there were, failed, and found no memory. Contracts see the record of these.
#[derive(Drop)]
pub struct Calls {
    fails: Vec<u64>,
    calls: u64,
    failed: u64,
    starved: u64,
}

impl Model for Calls {
    ghost use Rattle.ae_memory.specs.Calls.{Counts};

    ghost Value = { Counts };

    ghost view = { λ a. record {
      fails = a.fails.items;
      calls = a.calls;
      failed = a.failed;
      starved = a.starved;
    } };
}

impl Calls {
    /// No call yet; those of these numbers will fail, counted from 1.
    pub fn new(alloc: Global, fails: &[u64]) -> Result<Calls, AllocError>
        ensures { IfOk result (λ calls. calls ≡ record { fails = fails.now; calls = 0; failed = 0; starved = 0 }) }
    {
        Ok(Calls {
            fails: fails.to_vec(alloc)?,
            calls: 0,
            failed: 0,
            starved: 0,
        })
    }

    /// Counts a call, and says whether it is one that fails.
    pub fn begins(&mut self) -> bool
        ensures listed { IsTrue result ↔ Contains self.old.fails (next self.old.calls) }
        ensures counted { self.new ≡ record self.old { calls = next self.old.calls; failed = (if result then next self.old.failed else self.old.failed) } }
        ensures later { self.old.failed ≤ self.new.failed }
        // Where nothing but the count fails, it is such a call.
        ensures fails { result ≡ true → IsCall self.old self.new (Unit {0}) }
        ensures goes_well { result ≡ false → IsCall self.old self.new ⊥ }
    {
        self.calls = self.calls.saturating_add(1);
        let fails = self.fails.contains(&self.calls);
        if fails {
            self.failed = self.failed.saturating_add(1);
        }
        fails
    }

    /// Counts the call as one that found no memory, and so failed.
    pub fn starves(&mut self)
        ensures counted { self.new ≡ record self.old { failed = next self.old.failed; starved = next self.old.starved } }
        ensures later { self.old.failed ≤ self.new.failed }
        ensures fails { (before : Counts) → IsCall before self.old ⊥ → IsCall before self.new (Unit {0}) }
    {
        self.failed = self.failed.saturating_add(1);
        self.starved = self.starved.saturating_add(1);
    }

    /// How many calls there were.
    pub fn calls(&self) -> u64
        ensures { result ≡ self.now.calls }
    {
        self.calls
    }

    /// How many calls found no memory.
    pub fn starved(&self) -> u64
        ensures { result ≡ self.now.starved }
    {
        self.starved
    }
}
