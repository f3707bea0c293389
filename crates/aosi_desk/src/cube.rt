//! What is answered of a cube.

use cube_language::Decl;

/// What making a cube gives.
#[derive(Clone, Copy, Debug, PartialEq, Eq)]
pub enum CubeAnswer {
    /// It is made, with the epoch, and stands at the place in the list of cubes.
    Created { epoch: u64, place: u32 },
    /// A cube has its name.
    Exists,
    /// There are as many cubes as there can be.
    TooMany,
}

/// What looking for a cube gives.
#[derive(Debug, Drop)]
pub enum CubeFound {
    /// The place of the cube of the name in the list of cubes, and its declaration.
    Found { place: u32, decl: Decl },
    /// No cube has the name.
    Unknown,
}
