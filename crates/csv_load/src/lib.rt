//! The records of a file as rows of a cube, or why each of the others is none.
#![tactic(auto)]

mod field;
mod judge;
mod loader;
mod number;
mod row;
mod source;
mod step;

pub use cube_language::{BadRow, Reason};
pub use loader::Loader;
pub use source::Source;
pub use step::{Record, Step};
