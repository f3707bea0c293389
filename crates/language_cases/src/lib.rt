//! Cases of the language, of names and of loads: each module tests one crate through its public calls alone.
#![tactic(auto)]

#[cfg(test)]
mod checks;
#[cfg(test)]
mod generated;
#[cfg(test)]
mod known;
#[cfg(test)]
mod loads;
#[cfg(test)]
mod names;
#[cfg(test)]
mod reports;
#[cfg(test)]
mod schemas;
#[cfg(test)]
mod tables;
#[cfg(test)]
mod trees;
#[cfg(test)]
mod words;
