//! Disks: what a crash may leave of a file that is written, and a disk in memory. Gates, which may
//! hold threads up.
#![tactic(auto)]

mod disk;
mod disk_bytes;
mod disk_memory;
mod events;
mod gate;
mod synced_writes;
mod tape;
mod whole;

pub use disk::{Disk, Failed};
pub use disk_memory::DiskMemory;
pub use events::{DiskByte, DiskEvent};
pub use gate::{Gate, NoGate};
pub use synced_writes::{replace_from, write_through};
pub use whole::read_disk;
