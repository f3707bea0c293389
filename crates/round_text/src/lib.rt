//! The bytes of a store's headers and rounds.
#![tactic(auto)]

mod header;
mod header_reading;
mod header_writing;
mod law;
mod put;
mod round_writing;

pub use header::{Bytes, Header};
pub use header_reading::read_header;
pub use header_writing::write_header;
pub use law::canonical_texts_are_short;
pub use round_fields::FormatFault;
pub use round_writing::write_round;
