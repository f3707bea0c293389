//! What headers and rounds of a store's file are made of: numbers, names, digests and texts of
//! cubes, each read from the front of bytes.
#![tactic(auto)]

mod canonical;
mod digest;
mod fault;
mod fields;

pub use canonical::canonical_cubes;
pub use digest::{digest_in, digest_of};
pub use fault::FormatFault;
pub use fields::{count_of, eight_of, four_of, kind_of, number_within, short_of, signed_of};
