//! Dictionaries: the distinct texts of each text dimension, numbered in the order of first sight.
#![tactic(auto)]

mod code;
mod cube_dicts;
mod dict;
mod dicts;

pub use code::Code;
pub use dict::Dict;
pub use dicts::Dicts;
