//! Texts that a session knows, with the codes that dictionaries gave them.
#![tactic(auto)]

mod known;
mod short_keys;
mod short_texts;

pub use known::Known;
