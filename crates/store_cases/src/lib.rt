//! Cases of one brick, by its public calls.
#![tactic(auto)]

#[cfg(test)]
mod extremes;
#[cfg(test)]
mod making;
#[cfg(test)]
mod plain;
#[cfg(test)]
mod plain_copies;
#[cfg(test)]
mod plain_lines;
#[cfg(test)]
mod steps;
#[cfg(test)]
mod tables;
#[cfg(test)]
mod worked;
