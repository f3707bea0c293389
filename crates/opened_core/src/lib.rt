//! A core that opens over what a store kept.
#![tactic(auto)]

mod cells;
mod full;
mod law;
mod shard;

pub use cells::{Core, open_core, opening_cells};
pub use full::FullShard;
pub use law::kept_cells_open_runs;
