//! Who calls a core that opened over what a store kept.
#![tactic(auto)]

mod cubes;
mod law;

pub use cubes::{an_opened_core_has_its_dictionaries, an_opened_core_knows_its_cubes};
pub use law::an_opened_core_knows_its_callers;
