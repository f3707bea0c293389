//! Cases of bricks: each module tests one crate, or a part of one, through its public calls alone.
#![tactic(auto)]

#[cfg(test)]
mod addresses;
#[cfg(test)]
mod batches;
#[cfg(test)]
mod bits;
#[cfg(test)]
mod looks;
#[cfg(test)]
mod purges;
#[cfg(test)]
mod vectors;
