//! Which files a store is looked for in.

ghost use Rattle.std.specs.Prelude.{◌≤◌, IsErr};
ghost use Rattle.outside.specs.Counts.{Rose};

use crate::stores::cubes_of;
use opened_store::take_store;
use outside_disk::{Disk, Failed};
use std::alloc::{AllocError, Global};
use std::test::*;

/// A disk that keeps the name of the file that it was asked for, and fails at each other call.
#[derive(Drop)]
struct NamedDisk {
    alloc: Global,
    name: String,
    faults: u64,
}

impl NamedDisk {
    fn new(alloc: Global) -> NamedDisk {
        NamedDisk {
            alloc,
            name: String::new(alloc),
            faults: 0,
        }
    }

    // Counts a fault.
    fn fail<T>(&mut self) -> Result<T, Failed>
        ensures fails { IsErr result }
        ensures rose { Rose self.old.faults self.new.faults }
        ensures later { self.old.faults ≤ self.new.faults }
    {
        self.faults = self.faults.saturating_add(1);
        Err(Failed)
    }
}

impl Disk for NamedDisk {
    ghost use Rattle.std.specs.Prelude.{None};
    ghost use Rattle.std.proofs.lemmas.Option.{none-some};

    ghost view = { λ disk. record {
      told = None;
      image = λ _. ⊥;
      moment = 0;
      since = λ _ _. ⊥;
      faults = disk.faults;
    } };

    ghost reads_image = { λ disk f told. none-some f told };

    ghost counts_now = { λ disk t c le now. now };

    ghost only_now = { λ disk c now. now };

    fn faults(&self) -> u64 {
        self.faults
    }

    fn choose(&mut self, name: &str) -> Result<(), Failed> {
        match String::from_str(self.alloc, name) {
            Ok(name) => {
                self.name = name;
                Ok(())
            }
            Err(_) => self.fail(),
        }
    }

    fn size(&mut self) -> Result<u64, Failed> {
        self.fail()
    }

    fn read(&mut self, _at: u64, _into: &mut [u8]) -> Result<usize, Failed> {
        self.fail()
    }

    fn write_at(&mut self, _at: u64, _bytes: &[u8]) -> Result<(), Failed> {
        self.fail()
    }

    fn cut(&mut self, _len: u64) -> Result<(), Failed> {
        self.fail()
    }

    fn sync(&mut self) -> Result<(), Failed> {
        self.fail()
    }
}

// Whether a store of a name is looked for in the file of that name and in the one with `.2` behind it.
fn are_named(alloc: Global, is_new: bool) -> Result<bool, AllocError> {
    let cubes = cubes_of(alloc, "cube t\nmetric m\n")?;
    let mut disk = NamedDisk::new(alloc);
    let mut other = NamedDisk::new(alloc);
    let is_refused = take_store(
        alloc,
        "a/store",
        is_new,
        cubes.as_slice(),
        &mut disk,
        &mut other,
    )
    .is_err();
    Ok(is_refused && disk.name.as_str() == "a/store" && other.name.as_str() == "a/store.2")
}

#[test]
fn a_store_has_the_files_of_its_name(rt: HostRuntime) {
    assert!(rt; are_named(rt.alloc(), false) == Ok(true));
    assert!(rt; are_named(rt.alloc(), true) == Ok(true));
}
