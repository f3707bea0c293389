//! The cube of a name.

use cube_language::Decl;

/// The cube of a name.
#[derive(Debug, Drop)]
pub struct NamedCube {
    /// Its place in the list of cubes.
    pub place: u32,
    /// Its declaration.
    pub decl: Decl,
}
