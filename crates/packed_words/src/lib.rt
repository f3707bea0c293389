//! Rows of small numbers, packed bit by bit in words of 64.
#![tactic(auto)]

mod counted;
mod packed_rows;
mod packed_words;
mod word_bits;

pub use counted::{MOST_COUNTED, NOTHING_COUNTED, counted_in, summed_in};
pub use packed_rows::{MOST_BITS, PackedRows};
