//! The store of a run: created, or opened for the cubes that the run declares.
#![tactic(auto)]

mod choosing;
mod creating;
mod digest;
mod fault;
mod fitting;
mod reopening;
mod same_cubes;
mod taking;

pub use creating::kept_at_start;
pub use digest::Digest;
pub use fault::StoreFault;
pub use reopening::OpenedStore;
pub use taking::take_store;
