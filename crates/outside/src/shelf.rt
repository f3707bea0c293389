//! The trait of what holds files that are read.

ghost use Rattle.std.specs.Prelude.{◌≡◌, ◌≢◌, ℕ, ◌≤◌, List, Option, length};
ghost use Rattle.outside.specs.Counts.{Rose};
ghost use Rattle.outside.specs.Files.{TellsSize, TellsPiece};
ghost use Rattle.outside.specs.ShelfCalls.{ShelfCall, sized, with_call, read_call};

use crate::answers::{ReadAnswer, SizeAnswer};

/// Files that are read by their names.
pub trait Shelf {
    // the (name, bytes) pairs, or None where the shelf tells nothing of them
    ghost told: { Self → Option (List (List ℕ × List ℕ)) };

    // the calls that it has answered, the newest first, or None where the shelf keeps none of them
    ghost call_list: { Self → Option (List ShelfCall) };

    // the count that `faults` answers
    ghost fault_count: { Self → ℕ };

    // a count that rises with each answer Absent, and with no other
    ghost absence_count: { Self → ℕ };

    /// How many faults this shelf has counted. The count never falls, and stays at 2^64 - 1.
    fn faults(&self) -> u64
        ensures { result ≡ fault_count self.now };

    /// How many bytes the file of this name has.
    fn size(&mut self, name: &str) -> SizeAnswer
        ensures same { told self.new ≡ told self.old }
        ensures later { fault_count self.old ≤ fault_count self.new }
        ensures failed { result ≡ SizeAnswer.Failed →
            Rose (fault_count self.old) (fault_count self.new) }
        ensures quiet { result ≢ SizeAnswer.Failed →
            fault_count self.new ≡ fault_count self.old }
        ensures absent { result ≡ SizeAnswer.Absent →
            Rose (absence_count self.old) (absence_count self.new) }
        ensures present { result ≢ SizeAnswer.Absent →
            absence_count self.new ≡ absence_count self.old }
        ensures call { call_list self.new ≡
            with_call (sized name.now result) (call_list self.old) }
        ensures value { TellsSize (told self.old) name.now result };

    /// Puts bytes of the file of this name at the front of `into`, those from `at` on, and answers
    /// how many. What lies behind them in `into` may then be anything.
    fn read(&mut self, name: &str, at: u64, into: &mut [u8]) -> ReadAnswer
        ensures same { told self.new ≡ told self.old }
        ensures later { fault_count self.old ≤ fault_count self.new }
        ensures failed { result ≡ ReadAnswer.Failed →
            Rose (fault_count self.old) (fault_count self.new) }
        ensures quiet { result ≢ ReadAnswer.Failed →
            fault_count self.new ≡ fault_count self.old }
        ensures absences { absence_count self.new ≡ absence_count self.old }
        ensures fits { (n : ℕ) → result ≡ ReadAnswer.Got n → n ≤ length into.new }
        ensures call { call_list self.new ≡
            with_call (read_call name.now at into.new result) (call_list self.old) }
        ensures piece { TellsPiece (told self.old) name.now at into.new result };
}
