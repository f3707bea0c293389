//! The file of a LOAD: nothing, one that is too large, or the load of its records.
#![tactic(auto)]

mod law;
mod reading;

pub use law::a_load_looks_at_the_records_of_its_file;
pub use reading::{LOADED_BYTES, open_load};
