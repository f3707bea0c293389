//! The names of a cube, copied by a session for a query.
#![tactic(auto)]

mod asking;
mod cube_names;
mod law;

pub use cube_names::copy_names_of_cube;
pub use law::runs_pass_the_moment_after_calls;
