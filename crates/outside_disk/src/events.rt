//! The bytes of a disk in memory, and what can happen to them.

/// A byte of a disk, and whether a crash leaves it as it is.
#[derive(Clone, Copy, Debug, PartialEq, Eq)]
pub struct DiskByte {
    pub byte: u8,
    pub settled: bool,
}

/// What a call did to a disk. A write has an event for each of its bytes.
#[derive(Clone, Copy, Debug, PartialEq, Eq)]
pub enum DiskEvent {
    /// Nothing: a file was chosen, or a sync failed.
    Nothing,
    /// All bytes were settled.
    Sync,
    /// The bytes from here on went.
    Cut { len: u64 },
    /// The bytes from here on were unsettled.
    FailedCut { len: u64 },
    /// A write began.
    Write,
    /// A byte of that write was put at this place, unsettled.
    Byte { at: u64, byte: u8 },
}
