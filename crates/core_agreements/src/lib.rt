//! What snapshots see of the record of a run is what the rows by coordinates of the core stand for,
//! and so the answers of queries are those over the record.
#![tactic(auto)]

mod law;

pub use law::{
    posts_leave_what_operations_leave, queries_answer_by_the_record, readers_see_the_record,
    tables_answer_by_the_record, writers_see_the_record,
};
