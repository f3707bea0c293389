//! What a store keeps of a run stands for what a reader at its epoch sees of the run's record.
#![tactic(auto)]

mod law;

pub use law::{kept_rows_stand_for_the_record, what_a_file_keeps_stands_for_the_record};
