//! Cases of journals and of who writes them: each module tests one crate through its public calls alone.
#![tactic(auto)]

#[cfg(test)]
mod desks;
#[cfg(test)]
mod plain;
#[cfg(test)]
mod registers;
#[cfg(test)]
mod rolls;
#[cfg(test)]
mod states;
