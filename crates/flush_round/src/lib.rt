//! The round that the flusher has open, copied and added to the store.
#![tactic(auto)]

mod behind;
mod keeping;

pub use keeping::keep_round;
