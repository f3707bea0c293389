//! The flusher's loop over its mail: it makes a round for each FLUSH and replies how that ended, until the
//! mail is closed, and then makes a last round.
#![tactic(auto)]

mod answers;
mod desk;
mod flushes;
mod maker;
mod no_store;
mod round_result;
mod service;

pub use desk::{close_round, open_round};
pub use flushes::flush_loop;
pub use maker::MakesRounds;
pub use no_store::NoStore;
pub use round_result::RoundResult;
