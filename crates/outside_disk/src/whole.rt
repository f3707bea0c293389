//! Reading a disk's file whole.

ghost use Rattle.std.specs.Prelude.{◌≡◌, ◌≤◌, length, take, IfOk, OnOk, OnErr, IfSome};
ghost use Rattle.outside.specs.Counts.{Rose};
ghost use Rattle.outside_disk.specs.Reads.{IsUntouched, HasFailed};

use crate::disk::{Disk, Failed};
use cube_values::CallError;
use std::alloc::Global;

/// The bytes of a disk's file. The size is asked once, and no more bytes are taken than it says; a
/// read that gives none before that ends the file. The disk stays as it is.
pub fn read_disk<D: Disk>(alloc: Global, disk: &mut D) -> Result<Vec<u8>, CallError<Failed>>
    ensures bytes { IfSome (D.view disk.old).told (λ f.
        IfOk result (λ bytes. bytes.items ≡ f)) }
    ensures untouched { IsUntouched (D.view disk.old) (D.view disk.new) }
    ensures failed { HasFailed result → Rose (D.view disk.old).faults (D.view disk.new).faults }
    ensures quiet { ¬ HasFailed result → (D.view disk.new).faults ≡ (D.view disk.old).faults }
{
    let size = match disk.size() {
        Ok(size) => size,
        Err(fault) => return Err(CallError::Fault(fault)),
    };
    let mut bytes = vec![in alloc; 0; size as usize]?;
    match fill(disk, &mut bytes) {
        Ok(filled) => {
            bytes.truncate(filled);
            Ok(bytes)
        }
        Err(fault) => Err(CallError::Fault(fault)),
    }
}

// Puts the file into a piece of its length, and answers how many bytes there are.
fn fill<D: Disk>(disk: &mut D, into: &mut [u8]) -> Result<usize, Failed>
    requires { IfSome (D.view disk.old).told (λ f. length into.old ≡ length f) }
    ensures fits { IfOk result (λ n. n ≤ length into.new) }
    ensures bytes { IfSome (D.view disk.old).told (λ f.
        IfOk result (λ n. take n into.new ≡ f)) }
    ensures untouched { IsUntouched (D.view disk.old) (D.view disk.new) }
    ensures failed { OnErr result (Rose (D.view disk.old).faults (D.view disk.new).faults) }
    ensures quiet { OnOk result ((D.view disk.new).faults ≡ (D.view disk.old).faults) }
{
    let mut filled = 0;
    'pieces: while filled < into.len() {
        match disk.read(filled as u64, &mut into[filled..])? {
            0 => return Ok(filled),
            n => filled += n,
        }
    }
    Ok(filled)
}
