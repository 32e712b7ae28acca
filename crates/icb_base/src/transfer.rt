//! Input, output and random bytes, each with a count of faults that never falls.
ghost use Rattle.std.specs.Prelude.{◌≡◌, ◌≤◌, List, ℕ, length, Option, IfOk, IfSome};
ghost use Rattle.icb_base.specs.Causes.{HasCause};
ghost use Rattle.icb_base.specs.Transfers.{Fills, TakesFront, Writes};

use crate::storage::Failed;

/// Input that is read once, from its front to its end.
pub trait Source {
    /// The bytes that are left, where the source tells them.
    ghost left: { Self → Option (List ℕ) };

    /// How often the source failed, up to 2^64 - 1.
    ghost faults: { Self → ℕ };

    /// Takes a front of the input into `out` and says how many bytes; 0 for a non-empty `out` only at
    /// the end of input.
    fn read(&mut self, out: &mut [u8]) -> Result<usize, Failed>
        ensures count { IfOk result (λ n. n ≤ length out.new) }
        ensures taken { IfSome (left self.old) (λ bytes.
            TakesFront bytes out.old out.new (left self.new) result) }
        ensures cause { HasCause (faults self.old) (faults self.new) result };
}

/// Output that only grows.
pub trait Sink {
    /// All bytes written so far, where the sink tells them.
    ghost written: { Self → Option (List ℕ) };

    /// How often the sink failed, up to 2^64 - 1.
    ghost faults: { Self → ℕ };

    /// Appends the whole piece, or after a failure a front of it.
    fn write(&mut self, bytes: &[u8]) -> Result<(), Failed>
        ensures appended { IfSome (written self.old) (λ before.
            Writes before bytes.now (written self.new) result) }
        ensures cause { HasCause (faults self.old) (faults self.new) result };
}

/// Random bytes.
pub trait Draws {
    /// All bytes given so far, where the generator tells them.
    ghost drawn: { Self → Option (List ℕ) };

    /// How often the generator failed, up to 2^64 - 1.
    ghost faults: { Self → ℕ };

    /// Fills the whole of `out`, or fails and draws nothing.
    fn fill(&mut self, out: &mut [u8]) -> Result<(), Failed>
        ensures filled { IfSome (drawn self.old) (λ before.
            Fills before out.old out.new (drawn self.new) result) }
        ensures cause { HasCause (faults self.old) (faults self.new) result };
}
