//! The trait of a disk: one file that is written, and what a crash may leave of it.

ghost use Rattle.std.specs.Prelude.{◌≡◌, ℕ, ◌≤◌, List, length, take, Some, OnOk, IfOk, IfSome};
ghost use Rattle.outside.specs.Files.{IsPiece};
ghost use Rattle.outside_disk.specs.Views.{View, IsSynced};
ghost use Rattle.outside_disk.specs.Effects.{Goes, IsSame, Torn, AnyFrom, with_bytes};

/// A disk call failed, and the disk counted a fault.
#[derive(Debug, Drop, Clone, Copy, PartialEq, Eq)]
pub struct Failed;

/// A file that is read and written. Between two syncs a crash may leave any bytes where it was
/// written and past its old end. A call fails only where the count of faults rises.
pub trait Disk {
    // what is known of the disk
    ghost view: { Self → View };

    /// How many faults this disk has counted. The count never falls, and stays at 2^64 - 1.
    fn faults(&self) -> u64
        ensures { result ≡ (view self.now).faults };

    /// Fixes the file by its name. It is the first call.
    fn choose(&mut self, name: &str) -> Result<(), Failed>
        ensures goes { Goes IsSame result (view self.old) (view self.new) }
        ensures told { (view self.new).told ≡ (view self.old).told };

    /// How many bytes the file has.
    fn size(&mut self) -> Result<u64, Failed>
        ensures goes { Goes IsSame result (view self.old) (view self.new) }
        ensures told { (view self.new).told ≡ (view self.old).told }
        ensures value { IfSome (view self.old).told (λ f. IfOk result (λ n. n ≡ length f)) };

    /// Puts bytes of the file at the front of `into`, those from `at` on, and answers how many: none
    /// only at its end or for an empty piece. What lies behind them in `into` may be anything.
    fn read(&mut self, at: u64, into: &mut [u8]) -> Result<usize, Failed>
        requires { IfSome (view self.old).told (λ f. at ≤ length f) }
        ensures goes { Goes IsSame result (view self.old) (view self.new) }
        ensures told { (view self.new).told ≡ (view self.old).told }
        ensures fits { IfOk result (λ n. n ≤ length into.new) }
        ensures piece { IfSome (view self.old).told (λ f.
            IfOk result (λ n. IsPiece f at n into.new)) };

    /// Writes over what is there, and past the end. Until a sync a crash may leave any bytes in the
    /// range, also where the write failed.
    fn write_at(&mut self, at: u64, bytes: &[u8]) -> Result<(), Failed>
        requires { IfSome (view self.old).told (λ f. at ≤ length f) }
        ensures goes { Goes (Torn at (length bytes.now)) result (view self.old) (view self.new) }
        ensures told { IfSome (view self.old).told (λ f.
            OnOk result ((view self.new).told ≡ Some (with_bytes at bytes.now f))) };

    /// Cuts the file to a length. Until a sync, and also where the cut failed, a crash may leave any
    /// bytes from there on, or a part of them.
    fn cut(&mut self, len: u64) -> Result<(), Failed>
        requires { IfSome (view self.old).told (λ f. len ≤ length f) }
        ensures goes { Goes (AnyFrom len 0) result (view self.old) (view self.new) }
        ensures told { IfSome (view self.old).told (λ f.
            OnOk result ((view self.new).told ≡ Some (take len f))) };

    /// After it a crash leaves what a read gives, and nothing else.
    fn sync(&mut self) -> Result<(), Failed>
        ensures goes { Goes IsSame result (view self.old) (view self.new) }
        ensures told { OnOk result ((view self.new).told ≡ (view self.old).told) }
        ensures synced { OnOk result (IsSynced (view self.new)) };

    // what a read gives is an image
    ghost reads_image: { (disk : Self) (f : List ℕ) →
        (view disk).told ≡ Some f → (view disk).image f };

    // this moment is one of those since an earlier one
    ghost counts_now: { (disk : Self) (t : ℕ) (c : List ℕ) →
        t ≤ (view disk).moment → (view disk).image c → (view disk).since t c };

    // since this moment there is no other
    ghost only_now: { (disk : Self) (c : List ℕ) →
        (view disk).since (view disk).moment c → (view disk).image c };
}
