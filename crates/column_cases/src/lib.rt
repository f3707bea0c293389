//! Cases of rows packed in words and of the columns of a brick, by their public calls.
#![tactic(auto)]

#[cfg(test)]
mod filters;
#[cfg(test)]
mod making;
#[cfg(test)]
mod packed;
#[cfg(test)]
mod rows;
#[cfg(test)]
mod tables;
