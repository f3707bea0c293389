//! The trait of what takes output.

ghost use Rattle.std.specs.Prelude.{◌≡◌, ◌≢◌, ℕ, ◌≤◌, List, Option};
ghost use Rattle.outside.specs.Counts.{Rose};
ghost use Rattle.outside.specs.Output.{Gained, TakesSome, taken_by};

use crate::answers::PutAnswer;

/// What takes bytes, one piece after the other.
pub trait Sink {
    // the bytes that it has taken, or None where the sink tells nothing of them
    ghost taken: { Self → Option (List ℕ) };

    // the count that `faults` answers
    ghost fault_count: { Self → ℕ };

    /// How many faults this sink has counted. The count never falls, and stays at 2^64 - 1.
    fn faults(&self) -> u64
        ensures { result ≡ fault_count self.now };

    /// Takes bytes from the front of the piece: at least one, where it has any.
    fn put(&mut self, bytes: &[u8]) -> PutAnswer
        ensures later { fault_count self.old ≤ fault_count self.new }
        ensures failed { result ≡ PutAnswer.Failed →
            Rose (fault_count self.old) (fault_count self.new) }
        ensures quiet { result ≢ PutAnswer.Failed →
            fault_count self.new ≡ fault_count self.old }
        ensures some { TakesSome result bytes.now }
        ensures gained { Gained (taken self.old) (taken_by result bytes.now) (taken self.new) };
}
