//! A session's watch: it begins by the answers of all shards to a scan, and follows its rows by deltas
//! between two readers.
#![tactic(auto)]

mod first;
mod follow;
mod law;
mod numbers;
mod watch;

pub use first::begin_watch;
pub use follow::follow_watch;
pub use law::{changes_lead_from_reader_to_reader, scans_stand_for_their_readers, watches_stay};
pub use numbers::{first_number, other_number};
pub use watch::SessionWatch;
