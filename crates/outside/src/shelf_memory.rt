//! A shelf whose files lie in memory, for tests and for what is said of whole runs.

ghost use Rattle.std.specs.Prelude.{◌≡◌, ◌≢◌, ◌↔◌, ◌-◌, ℕ, ◌≤◌, List, length, min, Some, None};
ghost use Rattle.std.specs.Option.{option_copied};
ghost use Rattle.outside.specs.Counts.{Rose, IsFailing};
ghost use Rattle.outside.specs.Files.{content_of, IsPiece};
ghost use Rattle.outside.specs.Told.{files_of};

use crate::answers::{ReadAnswer, SizeAnswer};
use crate::calls::Calls;
use crate::shelf::Shelf;
use std::marker::Model;

/// Files in memory. A call fails exactly where its number stands in `failing` or is 2^64 - 1.
#[derive(Debug, Drop)]
pub struct ShelfMemory {
    files: Vec<(String, Vec<u8>)>,
    calls: Calls,
    absences: u64,
}

impl Model for ShelfMemory {
    ghost use Rattle.outside.specs.Memory.{ShelfState};
    ghost use Rattle.outside.specs.Told.{files_of};

    ghost Value = { ShelfState };

    ghost view = { λ shelf. record {
      files = files_of shelf.files.items;
      failing = shelf.calls.failing.items;
      calls = shelf.calls.made;
      faults = shelf.calls.faults;
      absences = shelf.absences;
    } };
}

impl ShelfMemory {
    /// A shelf with these files, whose calls of these numbers fail. Of two files of one name the
    /// first is the one that is read.
    pub fn new(files: Vec<(String, Vec<u8>)>, failing: Vec<u64>) -> ShelfMemory
        ensures { result ≡ record {
          files = files_of files.items;
          failing = failing.items;
          calls = 0;
          faults = 0;
          absences = 0;
        } }
    {
        ShelfMemory {
            files,
            calls: Calls::new(failing),
            absences: 0,
        }
    }
}

impl Shelf for ShelfMemory {
    ghost use Rattle.outside.specs.Files.{TellsSize, TellsPiece};
    ghost use Rattle.outside.specs.Memory.{after_size, shelf_after_read, bytes_left};
    ghost use Rattle.outside.specs.ShelfCalls.{sized, with_call, read_call};

    ghost told = { λ shelf. Some shelf.files };

    ghost call_list = { λ _. None };

    ghost fault_count = { λ shelf. shelf.faults };

    ghost absence_count = { λ shelf. shelf.absences };

    fn faults(&self) -> u64 {
        self.calls.faults
    }

    fn size(&mut self, name: &str) -> SizeAnswer
        ensures same { Some self.new.files ≡ Some self.old.files }
        ensures later { self.old.faults ≤ self.new.faults }
        ensures failed { result ≡ SizeAnswer.Failed → Rose self.old.faults self.new.faults }
        ensures quiet { result ≢ SizeAnswer.Failed → self.new.faults ≡ self.old.faults }
        ensures absent { result ≡ SizeAnswer.Absent → Rose self.old.absences self.new.absences }
        ensures present { result ≢ SizeAnswer.Absent → self.new.absences ≡ self.old.absences }
        ensures call { None ≡ with_call (sized name.now result) None }
        ensures value { TellsSize (Some self.old.files) name.now result }

        ensures exact { result ≡ SizeAnswer.Failed ↔ IsFailing self.old.failing self.old.calls }
        ensures after { self.new ≡ after_size result self.old }
    {
        if self.calls.fails() {
            self.calls.count_fault();
            return SizeAnswer::Failed;
        }
        self.calls.count();
        match content(&self.files, name) {
            Some(bytes) => SizeAnswer::Size(bytes.len() as u64),
            None => {
                self.absences = self.absences.saturating_add(1);
                SizeAnswer::Absent
            }
        }
    }

    fn read(&mut self, name: &str, at: u64, into: &mut [u8]) -> ReadAnswer
        ensures same { Some self.new.files ≡ Some self.old.files }
        ensures later { self.old.faults ≤ self.new.faults }
        ensures failed { result ≡ ReadAnswer.Failed → Rose self.old.faults self.new.faults }
        ensures quiet { result ≢ ReadAnswer.Failed → self.new.faults ≡ self.old.faults }
        ensures absences { self.new.absences ≡ self.old.absences }
        ensures fits { (n : ℕ) → result ≡ ReadAnswer.Got n → n ≤ length into.new }
        ensures call { None ≡ with_call (read_call name.now at into.new result) None }
        ensures piece { TellsPiece (Some self.old.files) name.now at into.new result }

        ensures exact { result ≡ ReadAnswer.Failed ↔ IsFailing self.old.failing self.old.calls }
        ensures after { self.new ≡ shelf_after_read result self.old }
        // As many bytes as there are and the piece holds; none of an absent file.
        ensures most { result ≢ ReadAnswer.Failed →
            result ≡ ReadAnswer.Got
            (min (length into.new) (bytes_left self.old.files name.now at)) }
    {
        if self.calls.fails() {
            self.calls.count_fault();
            return ReadAnswer::Failed;
        }
        self.calls.count();
        match content(&self.files, name) {
            Some(bytes) => ReadAnswer::Got(copy_piece(bytes, at, into)),
            None => ReadAnswer::Got(0),
        }
    }
}

// The bytes of the first file of this name.
fn content<'a>(files: &'a [(String, Vec<u8>)], name: &str) -> Option<&'a [u8]>
    ensures { option_copied result ≡ content_of (files_of files.now) name.now }
{
    'files: for (own, bytes) in files {
        if own.as_str() == name {
            return Some(bytes.as_slice());
        }
    }
    None
}

// Copies bytes from `at` on to the front of a piece, and answers how many.
fn copy_piece(bytes: &[u8], at: u64, into: &mut [u8]) -> usize
    ensures most { result ≡ min (length into.new) (length bytes.now - at) }
    ensures piece { IsPiece bytes.now at result into.new }
{
    if bytes.len() as u64 <= at {
        return 0;
    }
    let rest = &bytes[at as usize..];
    let most = rest.len().min(into.len());
    into[..most].copy_from_slice(&rest[..most]);
    most
}
