//! Work on rows: folded, appended to a brick, scanned and left in it, and written and read as a round; a store
//! opened; and the plain work that these are held against.
#![tactic(auto)]

mod bricks;
mod groups;
mod kept;
mod one_brick;
mod plain;
mod round_made;
mod rounds;
mod scans;
mod stores;

pub use bricks::measure_append;
pub use groups::{Fold, table_sum};
pub use kept::Keep;
pub use plain::{Copies, Sum};
pub use rounds::{Digest, ReadRound, measure_write};
pub use scans::{Count, Scan};
pub use stores::{measure_store_open, measure_store_read};
