//! A disk over a real file.

ghost use Rattle.std.specs.Prelude.{◌≤◌, IfOk, IsErr, length};
ghost use Rattle.outside.specs.Counts.{Rose};

use outside_disk::{Disk, Failed};
use std::fs::{File, OpenFile, OpenOptions};
use std::io;
use std::io::{Read, Seek, SeekFrom, Write};
use std::path::Path;
use std::rt::Files;

/// A file of the system, which `choose` makes where it is absent. It tells nothing of what it holds. Each
/// error is a counted fault, and so is a call while no file is chosen. After a sync that failed none is.
#[derive(Drop)]
pub struct FileDisk<'a, R: Files> {
    files: &'a R,
    file: Option<R::File>,
    faults: u64,
}

impl<'a, R: Files> FileDisk<'a, R> {
    /// A disk whose file is still to be chosen among those that a runtime reaches.
    pub fn new(files: &'a R) -> FileDisk<'a, R> {
        FileDisk {
            files,
            file: None,
            faults: 0,
        }
    }

    // Counts a fault.
    fn fail<T>(&mut self) -> Result<T, Failed>
        ensures fails { IsErr result }
        ensures rose { Rose self.old.faults self.new.faults }
        ensures later { self.old.faults ≤ self.new.faults }
    {
        self.faults = self.faults.saturating_add(1);
        Err(Failed)
    }
}

// Opens a file, or makes an empty one. Both it and its entry in the folder are synced, since what an
// earlier program wrote may be read before it is safe.
fn open_synced<R: Files>(files: &R, name: &str) -> io::Result<R::File> {
    let file = OpenOptions::new()
        .read(true)
        .write(true)
        .create(true)
        .open(files, name)?;
    file.sync_all()?;
    File::open(files, folder_of(name))?.sync_all()?;
    Ok(file)
}

fn folder_of(name: &str) -> &str {
    match Path::new(name).parent() {
        Some(folder) if folder.as_os_str() != "" => folder.as_os_str(),
        _ => ".",
    }
}

fn read_at<F: Read + Seek>(file: &mut F, at: u64, into: &mut [u8]) -> io::Result<usize>
    ensures { IfOk result (λ n. n ≤ length into.new) }
{
    file.seek(SeekFrom::Start(at))?;
    file.read(into)
}

fn write_at<F: Write + Seek>(file: &mut F, at: u64, bytes: &[u8]) -> io::Result<()> {
    file.seek(SeekFrom::Start(at))?;
    file.write_all(bytes)
}

impl<'a, R: Files> Disk for FileDisk<'a, R> {
    ghost use Rattle.std.specs.Prelude.{None};
    ghost use Rattle.std.proofs.lemmas.Option.{none-some};

    // Where nothing is told, no clause asks for an image. All files would be too many: of these a cut
    // would have to leave those alone that are as long as it says.
    ghost view = { λ disk. record {
      told = None;
      image = λ _. ⊥;
      moment = 0;
      since = λ _ _. ⊥;
      faults = disk.faults;
    } };

    ghost reads_image = { λ disk f told. none-some f told };

    ghost counts_now = { λ disk t c le now. now };

    ghost only_now = { λ disk c now. now };

    fn faults(&self) -> u64 {
        self.faults
    }

    fn choose(&mut self, name: &str) -> Result<(), Failed> {
        self.file = open_synced(self.files, name).ok();
        if self.file.is_some() {
            return Ok(());
        }
        self.fail()
    }

    fn size(&mut self) -> Result<u64, Failed> {
        if let Some(file) = &self.file {
            if let Ok(metadata) = file.metadata() {
                return Ok(metadata.len());
            }
        }
        self.fail()
    }

    fn read(&mut self, at: u64, into: &mut [u8]) -> Result<usize, Failed> {
        if let Some(file) = &mut self.file {
            if let Ok(n) = read_at(file, at, into) {
                return Ok(n);
            }
        }
        self.fail()
    }

    fn write_at(&mut self, at: u64, bytes: &[u8]) -> Result<(), Failed> {
        if let Some(file) = &mut self.file {
            if write_at(file, at, bytes).is_ok() {
                return Ok(());
            }
        }
        self.fail()
    }

    fn cut(&mut self, len: u64) -> Result<(), Failed> {
        if let Some(file) = &self.file {
            if file.set_len(len).is_ok() {
                return Ok(());
            }
        }
        self.fail()
    }

    fn sync(&mut self) -> Result<(), Failed> {
        if let Some(file) = &self.file {
            if file.sync_all().is_ok() {
                return Ok(());
            }
        }
        // The system may have dropped bytes that it could not write, and the next sync would not say so.
        self.file = None;
        self.fail()
    }
}
