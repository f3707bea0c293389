//! CREATE CUBE of a session of the core, and the cube of the name of which a statement speaks.
#![tactic(auto)]

mod cubes;
mod law;
mod looking;
mod naming;

pub use cubes::create_cube;
pub use law::statement_calls_change_no_rows;
pub use looking::find_named;
pub use naming::NamedCube;
