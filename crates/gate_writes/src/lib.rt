//! Files that are written behind gates: the bytes first, and then the gate that makes them count.
#![tactic(auto)]

mod append;
mod fill;
mod gate;
mod replace;

pub use append::append_bytes;
pub use fill::{fill_file, shut_front};
pub use gate::{OPEN_GATE, has_shut_gate};
pub use replace::replace_file;
