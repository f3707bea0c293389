//! What a maker of rounds has kept when a run begins: the store that was taken for it, or none.
#![tactic(auto)]

mod law;
mod maker;

pub use law::{
    a_core_without_a_store_keeps_no_rounds, a_store_keeps_rounds_of_its_core,
    flusher_of_a_store_may_begin, flusher_without_a_store_may_begin,
    what_is_kept_is_there_in_each_run,
};
pub use maker::rounds_of_store;
