//! A disk in memory, for tests and for what is said of whole runs.

ghost use Rattle.std.specs.Prelude.{◌≡◌, ◌↔◌, ◌≤◌, ◌<◌, ◌⊎◌, ◌+◌, ◌-◌, ◌∷◌, [], length, take, min, Some, IsTrue, IsOk, IfOk, OnOk, IfSome};
ghost use Rattle.outside.specs.Files.{IsPiece};
ghost use Rattle.outside_disk.specs.Course.{write_events};
ghost use Rattle.outside_disk.specs.Crash.{crash_image};
ghost use Rattle.outside_disk.specs.DiskBytes.{IsImage, read_bytes};
ghost use Rattle.outside_disk.specs.Memory.{tape_course, new_disk, disk_view, IsStopped, IsFaulty, Fails, fitting_events, after_call, sync_events, cut_events};
ghost use Rattle.outside_disk.specs.Effects.{Goes, IsSame, Torn, AnyFrom, with_bytes};
ghost use Rattle.outside_disk.specs.Views.{IsSynced};
ghost use Rattle.outside_disk.specs.declared.events.DiskEvent.TheVariants.{Nothing};

use crate::disk::{Disk, Failed};
use crate::tape::Tape;
use outside::Calls;
use std::alloc::{AllocError, Global};
use std::marker::Model;

/// A file in memory, with room for so many calls and bytes: each call but `size` and `read` uses up
/// one, and a write one more per byte. A call fails exactly where its number stands in `failing`, is
/// not below a `stop` or is 2^64 - 1, or where it lacks room.
// A call that lacks room changes nothing but its number and the count. Every other write that fails
// puts its bytes as one that succeeds, and a cut that fails unsettles what it would have cut off.
#[derive(Drop)]
pub struct DiskMemory {
    alloc: Global,
    tape: Tape,
    calls: Calls,
    stop: Option<u64>,
}

impl Model for DiskMemory {
    ghost use Rattle.outside_disk.specs.Memory.{DiskState};

    ghost Value = { DiskState };

    ghost view = { λ disk. record {
      tape = disk.tape;
      failing = disk.calls.failing.items;
      stop = disk.stop;
      calls = disk.calls.made;
      faults = disk.calls.faults;
    } };
}

impl DiskMemory {
    /// A disk with these bytes, all of them settled. All memory that its calls want but `crash` is
    /// taken from the allocator here.
    pub fn new(
        alloc: Global,
        bytes: Vec<u8>,
        room: u64,
        failing: Vec<u64>,
        stop: Option<u64>,
    ) -> Result<DiskMemory, AllocError>
        ensures exact { IfOk result (λ disk.
            disk ≡ new_disk bytes.items room failing.items stop) }
        ensures told { IfOk result (λ disk. (disk_view disk).told ≡ Some bytes.items) }
        ensures synced { IfOk result (λ disk. IsSynced (disk_view disk)) }
    {
        DiskMemory::with_tape(alloc, bytes, room, failing, stop)
    }

    fn with_tape(
        alloc: Global,
        bytes: Vec<u8>,
        room: u64,
        failing: Vec<u64>,
        stop: Option<u64>,
    ) -> Result<DiskMemory, AllocError>
        ensures { IfOk result (λ disk. disk ≡ new_disk bytes.items room failing.items stop) }
    {
        Ok(DiskMemory {
            alloc,
            tape: Tape::new(alloc, bytes, room as usize)?,
            calls: Calls::new(failing),
            stop,
        })
    }

    /// The image that a crash leaves where the i-th unsettled byte is that of `fill` at i modulo its
    /// length; where `fill` is empty, what a read gives.
    pub fn crash(&self, fill: &[u8]) -> Result<Vec<u8>, AllocError>
        ensures exact { IfOk result (λ image. image.items ≡
            crash_image fill.now (tape_course self.now.tape).now) }
        ensures image { IfOk result (λ image. (disk_view self.now).image image.items) }
    {
        self.tape.crash(self.alloc, fill)
    }

    // Whether the next call fails by its number.
    fn is_faulty(&self) -> bool
        ensures { IsTrue result ↔ IsFaulty self.now }
    {
        self.calls.fails() || is_stopped(self.stop, self.calls.made)
    }

    // Counts a call, and answers as its number says.
    fn answer(&mut self) -> Result<(), Failed>
        ensures later { self.old.faults ≤ self.new.faults }
        ensures exact { IsOk result ↔ (IsFaulty self.old → ⊥) }
        ensures after { self.new ≡ after_call result [] self.old }
    {
        if self.is_faulty() {
            return self.fail();
        }
        self.calls.count();
        Ok(())
    }

    // Counts a call that fails.
    fn fail(&mut self) -> Result<(), Failed>
        ensures later { self.old.faults ≤ self.new.faults }
        ensures fails { IsOk result → ⊥ }
        ensures after { self.new ≡ after_call result [] self.old }
    {
        self.calls.count_fault();
        Err(Failed)
    }
}

fn is_stopped(stop: Option<u64>, number: u64) -> bool
    ensures { IsTrue result ↔ IsStopped stop number }
{
    match stop {
        None => false,
        Some(stop) => stop <= number,
    }
}

// The calls, each with what it does exactly.
impl DiskMemory {
    fn note(&mut self) -> Result<(), Failed>
        ensures later { self.old.faults ≤ self.new.faults }
        ensures exact { IsOk result ↔ (Fails self.old 1 → ⊥) }
        ensures after { self.new ≡
            after_call result (fitting_events self.old.tape.room (Nothing ∷ [])) self.old }
    {
        if self.tape.room() == 0 {
            return self.fail();
        }
        self.tape.note();
        self.answer()
    }

    #[tactic(auto, using(crate::proofs::Courses::write_fits, crate::proofs::Courses::write_lacks))]
    fn write(&mut self, at: u64, bytes: &[u8]) -> Result<(), Failed>
        requires { at ≤ length (tape_course self.old.tape).now }
        ensures later { self.old.faults ≤ self.new.faults }
        ensures exact { IsOk result ↔ (Fails self.old (1 + length bytes.now) → ⊥) }
        ensures after { self.new ≡
            after_call result
            (fitting_events self.old.tape.room (write_events at bytes.now)) self.old }
    {
        if self.tape.room() <= bytes.len() {
            return self.fail();
        }
        self.tape.write(at, bytes);
        self.answer()
    }

    fn cut_to(&mut self, len: u64) -> Result<(), Failed>
        requires { len ≤ length (tape_course self.old.tape).now }
        ensures later { self.old.faults ≤ self.new.faults }
        ensures exact { IsOk result ↔ (Fails self.old 1 → ⊥) }
        ensures after { self.new ≡
            after_call result (fitting_events self.old.tape.room (cut_events len result)) self.old }
    {
        if self.tape.room() == 0 {
            return self.fail();
        }
        if self.is_faulty() {
            self.tape.unsettle(len);
        } else {
            self.tape.cut(len);
        }
        self.answer()
    }

    fn settle(&mut self) -> Result<(), Failed>
        ensures later { self.old.faults ≤ self.new.faults }
        ensures exact { IsOk result ↔ (Fails self.old 1 → ⊥) }
        ensures after { self.new ≡
            after_call result (fitting_events self.old.tape.room (sync_events result)) self.old }
    {
        if self.tape.room() == 0 {
            return self.fail();
        }
        if self.is_faulty() {
            self.tape.note();
        } else {
            self.tape.settle();
        }
        self.answer()
    }
}

impl Disk for DiskMemory {
    ghost use Rattle.std.proofs.Common.{inl};
    ghost use Rattle.outside_disk.specs.Laws.{reads_image, only_now};

    ghost view = { disk_view };

    ghost reads_image = { reads_image };

    ghost counts_now = { λ disk t c le now. inl now };

    ghost only_now = { only_now };

    fn faults(&self) -> u64 {
        self.calls.faults
    }

    fn choose(&mut self, _name: &str) -> Result<(), Failed>
        ensures goes { Goes IsSame result (disk_view self.old) (disk_view self.new) }
        ensures told { (disk_view self.new).told ≡ (disk_view self.old).told }

        ensures exact { IsOk result ↔ (Fails self.old 1 → ⊥) }
        ensures after { self.new ≡
            after_call result (fitting_events self.old.tape.room (Nothing ∷ [])) self.old }
    {
        self.note()
    }

    fn size(&mut self) -> Result<u64, Failed>
        ensures goes { Goes IsSame result (disk_view self.old) (disk_view self.new) }
        ensures told { (disk_view self.new).told ≡ (disk_view self.old).told }
        ensures value { IfSome (disk_view self.old).told (λ f.
            IfOk result (λ n. n ≡ length f)) }

        ensures exact { IsOk result ↔ (IsFaulty self.old → ⊥) }
        ensures after { self.new ≡ after_call result [] self.old }
    {
        self.answer()?;
        Ok(self.tape.len() as u64)
    }

    fn read(&mut self, at: u64, into: &mut [u8]) -> Result<usize, Failed>
        requires { IfSome (disk_view self.old).told (λ f. at ≤ length f) }
        ensures goes { Goes IsSame result (disk_view self.old) (disk_view self.new) }
        ensures told { (disk_view self.new).told ≡ (disk_view self.old).told }
        ensures fits { IfOk result (λ n. n ≤ length into.new) }
        ensures piece { IfSome (disk_view self.old).told (λ f.
            IfOk result (λ n. IsPiece f at n into.new)) }

        ensures exact { IsOk result ↔ (IsFaulty self.old → ⊥) }
        ensures after { self.new ≡ after_call result [] self.old }
        // As many bytes as there are and the piece holds.
        ensures most { IfOk result (λ n.
            n ≡ min (length into.new) (length (tape_course self.old.tape).now - at)) }
    {
        self.answer()?;
        Ok(self.tape.read(at, into))
    }

    fn write_at(&mut self, at: u64, bytes: &[u8]) -> Result<(), Failed>
        requires { IfSome (disk_view self.old).told (λ f. at ≤ length f) }
        ensures goes { Goes (Torn at (length bytes.now)) result
            (disk_view self.old) (disk_view self.new) }
        ensures told { IfSome (disk_view self.old).told (λ f.
            OnOk result ((disk_view self.new).told ≡ Some (with_bytes at bytes.now f))) }

        ensures exact { IsOk result ↔ (Fails self.old (1 + length bytes.now) → ⊥) }
        ensures after { self.new ≡
            after_call result
            (fitting_events self.old.tape.room (write_events at bytes.now)) self.old }
    {
        self.write(at, bytes)
    }

    fn cut(&mut self, len: u64) -> Result<(), Failed>
        requires { IfSome (disk_view self.old).told (λ f. len ≤ length f) }
        ensures goes { Goes (AnyFrom len 0) result (disk_view self.old) (disk_view self.new) }
        ensures told { IfSome (disk_view self.old).told (λ f.
            OnOk result ((disk_view self.new).told ≡ Some (take len f))) }

        ensures exact { IsOk result ↔ (Fails self.old 1 → ⊥) }
        ensures after { self.new ≡
            after_call result (fitting_events self.old.tape.room (cut_events len result)) self.old }
    {
        self.cut_to(len)
    }

    fn sync(&mut self) -> Result<(), Failed>
        ensures goes { Goes IsSame result (disk_view self.old) (disk_view self.new) }
        ensures told { OnOk result ((disk_view self.new).told ≡ (disk_view self.old).told) }
        ensures synced { OnOk result (IsSynced (disk_view self.new)) }

        ensures exact { IsOk result ↔ (Fails self.old 1 → ⊥) }
        ensures after { self.new ≡
            after_call result (fitting_events self.old.tape.room (sync_events result)) self.old }
    {
        self.settle()
    }
}
