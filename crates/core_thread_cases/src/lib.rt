//! Cases of a core that runs on threads, with enough threads and with too few.
#![tactic(auto)]

mod committing;
mod runs;
