//! The rows of an INSERT by coordinates: a session's caller gives their texts numbers, and the session puts them on the
//! shards of their bricks.
#![tactic(auto)]

mod encoding;
mod law;
mod putting;

pub use encoding::{EncodedRows, encode_inserted};
pub use law::{names_end_as_dimensions_say, rows_stand_for_what_is_put};
pub use putting::put_told_rows;
