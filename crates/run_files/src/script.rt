//! A script as it was read.

use cube_language::Pieces;

/// The bytes of a script, and where its statements stand in them.
#[derive(Debug, Drop)]
pub struct Script {
    pub bytes: Vec<u8>,
    pub pieces: Pieces,
}
