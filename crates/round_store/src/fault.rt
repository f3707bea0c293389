//! Why a store was not opened.

use store_reading::PairFault;

/// Why a store was not opened.
#[derive(Clone, Copy, Debug, PartialEq, Eq)]
pub enum OpenFault {
    /// The two files do not stand for a store.
    Pair(PairFault),
    /// A disk counted a fault.
    Disk,
}
