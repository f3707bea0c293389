//! Cubes, scripts and files that are made from a number, for runs without files.
#![tactic(auto)]

mod files;
mod scripts;

pub use files::part;
pub use scripts::{cubes_text, part_name, script};
