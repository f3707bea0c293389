//! Rows of values become rows by coordinates: each text becomes the number that a dictionary gives
//! it.
#![tactic(auto)]

mod encoder;
mod law;
mod load;
mod of_dicts;
mod records;
mod rows;
mod texts;
mod values;

pub use encoder::Encoder;
pub use law::{dictionaries_may_end_as_they_are, dictionaries_that_are_not_made_suit};
pub use load::{BATCH_ROWS, BadRecords, BatchEnd, load_rows};
pub use records::encode_record;
pub use rows::encode_rows;
pub use texts::encode_texts;
pub use values::encode_values;
