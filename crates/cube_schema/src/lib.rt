//! Which declarations can be stored, and the cubes text both ways.
#![tactic(auto)]

mod fault;
mod gather;
mod law;
mod line;
mod print;
mod read;
mod repeat;
mod schema;
mod words;

pub use cube_language::{CubesFault, Decl, DimDecl, DimDecls, Names, SchemaFault};
pub use law::{a_text_declares_or_has_one_fault, what_is_printed_declares_its_cubes};
pub use print::print_cubes;
pub use read::read_cubes;
pub use schema::{Schema, Schemas, check, copy_cubes};
