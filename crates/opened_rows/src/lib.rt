//! The rows of a core that opened over what a store kept, and how its runs open.
#![tactic(auto)]

mod law;

pub use law::{
    an_opened_core_has_the_kept_rows, an_opened_core_opens_for_rounds,
    an_opened_core_opens_with_its_cubes,
};
