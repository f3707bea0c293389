//! The files that a run reads before its sessions: the cubes file, and a script for each session.
#![tactic(auto)]

mod bad_file;
mod law;
mod reading;
mod script;

pub use bad_file::BadFile;
pub use law::files_decide_their_end;
pub use reading::{CUBES_BYTES, SCRIPT_BYTES, read_cubes, read_script};
pub use script::Script;
