//! A run of the core as a run on record: its journal, its cubes and its dictionaries are those of
//! the core.
#![tactic(auto)]

mod law;

pub use law::{
    dictionaries_are_on_record, entries_are_of_own_calls, entries_have_owners, records_are_legal,
    records_have_the_cubes,
};
