//! Whether a store has bytes for a round: of its values it has by their types, so its epoch decides.
#![tactic(auto)]

mod names;
mod round;
mod rows;

pub use round::is_storable;
