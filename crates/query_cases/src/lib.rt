//! Cases of queries: each module tests one crate through its public calls alone.
#![tactic(auto)]

#[cfg(test)]
mod changes;
#[cfg(test)]
mod fields;
#[cfg(test)]
mod first_rows;
#[cfg(test)]
mod folds;
#[cfg(test)]
mod histories;
#[cfg(test)]
mod spans;
