//! The records of a LOAD, batch by batch: a session's caller gives their texts codes, and puts their rows on the shards
//! of their bricks. While a batch is appended it reads the next.
#![tactic(auto)]

mod batches;
mod beside;
mod law;
mod putting;
mod records;
mod rest;
mod taking;
mod turns;

pub use law::load_calls_change_rows_alone;
pub use records::{LoadEnd, put_records};
