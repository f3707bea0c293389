//! A brick in the words of the core.
#![tactic(auto)]

mod law;

pub use law::{
    calls_grow_the_same, contents_are_whole, copies_are_the_same, rollbacks_are_the_same,
    snapshots_see_the_same,
};
