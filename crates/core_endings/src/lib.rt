//! The end of a session's script in the core.
#![tactic(auto)]

mod endings;

pub use endings::end_script;
