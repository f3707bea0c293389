//! A shelf of real files.

ghost use Rattle.std.specs.Prelude.{◌≤◌, IfOk, length};

use outside::{ReadAnswer, Shelf, SizeAnswer};
use std::io::{ErrorKind, Read, Seek, SeekFrom};
use std::rt::Files;
use std::{fs, io};

/// The files of the system, by their paths. It tells nothing of what they hold. Each error but std's
/// NotFound of a size is a counted fault.
#[derive(Drop)]
pub struct FileShelf<'a, R> {
    files: &'a R,
    faults: u64,
    absences: u64,
}

impl<'a, R: Files> FileShelf<'a, R> {
    /// The files that a runtime reaches.
    pub fn new(files: &'a R) -> FileShelf<'a, R> {
        FileShelf {
            files,
            faults: 0,
            absences: 0,
        }
    }
}

fn read_at<R: Files>(files: &R, name: &str, at: u64, into: &mut [u8]) -> io::Result<usize>
    ensures { IfOk result (λ n. n ≤ length into.new) }
{
    let mut file = fs::open(files, name)?;
    file.seek(SeekFrom::Start(at))?;
    file.read(into)
}

impl<'a, R: Files> Shelf for FileShelf<'a, R> {
    ghost use Rattle.std.specs.Prelude.{None};

    ghost told = { λ _. None };

    ghost call_list = { λ _. None };

    ghost fault_count = { λ shelf. shelf.faults };

    ghost absence_count = { λ shelf. shelf.absences };

    fn faults(&self) -> u64 {
        self.faults
    }

    fn size(&mut self, name: &str) -> SizeAnswer {
        match fs::metadata(self.files, name) {
            Ok(metadata) => SizeAnswer::Size(metadata.len()),
            Err(error) if error.kind() == ErrorKind::NotFound => {
                self.absences = self.absences.saturating_add(1);
                SizeAnswer::Absent
            }
            Err(_) => {
                self.faults = self.faults.saturating_add(1);
                SizeAnswer::Failed
            }
        }
    }

    fn read(&mut self, name: &str, at: u64, into: &mut [u8]) -> ReadAnswer {
        match read_at(self.files, name, at, into) {
            Ok(n) => ReadAnswer::Got(n),
            Err(_) => {
                self.faults = self.faults.saturating_add(1);
                ReadAnswer::Failed
            }
        }
    }
}
