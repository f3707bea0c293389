//! A session puts rows on the shards of their bricks: all are asked before the first answer is fetched, at once or once
//! it has read more.
#![tactic(auto)]

mod answers;
mod appends;
mod posts;
mod rows;
mod rows_out;

pub use answers::PutEnd;
pub use posts::{fetch_rows, post_rows};
pub use rows::put_rows;
pub use rows_out::RowsOut;
