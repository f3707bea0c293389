//! What is settled of the epochs and of open snapshots, whatever follows, over any list of events
//! of the core in which each call fits.
#![tactic(auto)]

mod law;

pub use law::{open_snapshots_are_settled, settled_epochs_stay};
