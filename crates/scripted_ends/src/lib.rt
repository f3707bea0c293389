//! From the scripts that the sessions of the core have played to the end, to the text of the run.
#![tactic(auto)]

mod ends;

pub use ends::scripts_end_in_a_run;
