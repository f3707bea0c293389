//! The store of two files.
#![tactic(auto)]

mod append_round;
mod data;
mod fault;
mod new_store;
mod next;
mod old_store;
mod round;
mod store;
mod whole_round;

pub use data::CubeShapes;
pub use fault::OpenFault;
pub use new_store::create_store;
pub use old_store::open_store;
pub use store::Store;
