//! A core that threads work on, tried. Worked cases are tables of the steps of its sessions, in the order in which they
//! are taken, with what the core says. Interleavings have three sessions, the workers of two shards and the flusher, in
//! orders that seeds fix: each answer to a query is compared with a plain program that has no more than lists.
#![tactic(auto)]

#[cfg(test)]
mod cases;
#[cfg(test)]
mod draws;
#[cfg(test)]
mod lines;
#[cfg(test)]
mod plain;
#[cfg(test)]
mod sessions;
#[cfg(test)]
mod tables;
#[cfg(test)]
mod tallies;
#[cfg(test)]
mod threads;
