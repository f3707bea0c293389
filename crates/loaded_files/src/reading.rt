//! Reading the file of a LOAD.

ghost use Rattle.std.specs.Prelude.{◌≡◌, ◌≤◌};
ghost use Rattle.outside.specs.Counts.{Rose};
ghost use Rattle.loaded_files.specs.LoadedFiles.{OpensLoad, IsLoadFault, BeginsOrWants};

use csv_load::Loader;
use cube_schema::Schema;
use cube_values::CallError;
use outside::{FileFault, Shelf, read_whole};
use std::alloc::Global;

/// The most bytes of a file that is loaded.
pub const LOADED_BYTES: u64 = 67_108_864;

/// Begins the load of a file into a cube, of which it reads all bytes. Absent comes where the shelf
/// says so, TooLong where it tells a size above the limit, Failed where it counted a fault.
pub fn open_load<S: Shelf>(
    alloc: Global,
    shelf: &mut S,
    path: &str,
    cube: &Schema,
) -> Result<Loader, CallError<FileFault>>
    ensures same { S.told shelf.new ≡ S.told shelf.old }
    ensures later { S.fault_count shelf.old ≤ S.fault_count shelf.new }
    ensures failed { IsLoadFault result FileFault.Failed →
        Rose (S.fault_count shelf.old) (S.fault_count shelf.new) }
    ensures quiet { ¬ IsLoadFault result FileFault.Failed →
        S.fault_count shelf.new ≡ S.fault_count shelf.old }
    ensures absent { IsLoadFault result FileFault.Absent →
        Rose (S.absence_count shelf.old) (S.absence_count shelf.new) }
    ensures present { ¬ IsLoadFault result FileFault.Absent →
        S.absence_count shelf.new ≡ S.absence_count shelf.old }
    ensures opens { OpensLoad (S.told shelf.old) (S.call_list shelf.old) (S.call_list shelf.new)
        path.now cube.now result }
{
    match read_whole(alloc, shelf, path, LOADED_BYTES) {
        Ok(bytes) => begin_load(alloc, bytes, cube),
        Err(fault) => Err(fault),
    }
}

// Begins the load of these bytes.
fn begin_load(alloc: Global, bytes: Vec<u8>, cube: &Schema) -> Result<Loader, CallError<FileFault>>
    ensures { BeginsOrWants cube.now bytes.items result }
{
    Ok(Loader::new(alloc, bytes, cube)?)
}
