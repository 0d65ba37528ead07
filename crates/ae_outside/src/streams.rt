// Sources and sinks of bytes.
ghost use Rattle.std.specs.Prelude.{◌≡◌, ◌↔◌, ℕ, ◌<◌, ◌≤◌, List, [], ◌++◌, length, take, IfOk, OnErr, OnOk};
ghost use Rattle.ae_outside.specs.Causes.{HasRisen, HasCause};
ghost use Rattle.ae_outside.specs.Streams.{TakesPrefix};

use crate::Failed;

/// A source of bytes.
pub trait Source {
    /// Whether the bytes that are left are told.
    ghost tells: { Type 0 };

    /// The bytes that are left.
    ghost left: { Self → List ℕ };

    /// How often it has failed.
    ghost faults: { Self → ℕ };

    /// Moves the next bytes to the front of `into`, and answers their number. It is 0 exactly at the end of input.
    fn read(&mut self, into: &mut [u8]) -> Result<usize, Failed>
        requires { 0 < length into.old }
        ensures at_most { IfOk result (λ n. n ≤ length into.new) }
        ensures moved { IfOk result (λ n. tells → left self.old ≡ take n into.new ++ left self.new) }
        ensures at_end { IfOk result (λ n. tells → (n ≡ 0) ↔ (left self.old ≡ [])) }
        ensures kept { OnErr result (tells → left self.new ≡ left self.old) }
        // A read that doesn't fail leaves the count, so that none hides a failure before it.
        ensures quiet { OnOk result (faults self.new ≡ faults self.old) }
        ensures cause { HasCause (faults self.old) (faults self.new) result };
}

/// A sink of bytes.
pub trait Sink {
    /// Whether the bytes that it has taken are told.
    ghost tells: { Type 0 };

    /// The bytes that it has taken.
    ghost taken: { Self → List ℕ };

    /// How often it has failed.
    ghost faults: { Self → ℕ };

    /// Takes a prefix of `bytes`, and answers its length. An answer of 0 is a fault. After a failure it may have taken
    /// any prefix, and nothing else.
    fn write(&mut self, bytes: &[u8]) -> Result<usize, Failed>
        requires { 0 < length bytes.now }
        ensures at_most { IfOk result (λ n. n ≤ length bytes.now) }
        ensures takes { IfOk result (λ n. tells → taken self.new ≡ taken self.old ++ take n bytes.now) }
        ensures part { OnErr result (tells → TakesPrefix (taken self.old) (taken self.new) bytes.now) }
        ensures none { IfOk result (λ n. n ≡ 0 → HasRisen (faults self.old) (faults self.new)) }
        ensures cause { HasCause (faults self.old) (faults self.new) result };
}
