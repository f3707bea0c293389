//! What the header of a store's file says.

use cube_values::Sequence;

/// Bytes that contracts see as a list.
pub type Bytes = Sequence<u8>;

/// The header of a file.
#[derive(Debug, Drop)]
pub struct Header {
    /// The canonical text of the cubes.
    pub cubes: Bytes,
    /// How many bytes the header has, the gate behind it included.
    pub size: u64,
    /// Which of the two files is newer; 0 under version 1.
    pub generation: u64,
}
