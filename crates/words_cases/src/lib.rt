//! Cases of words: which command they ask for, and why they ask for none.
#![tactic(auto)]

#[cfg(test)]
mod words;
