//! Cases of the store of a run: files written by an independent program, taken for some cubes, and new stores on disks
//! that stop.
#![tactic(auto)]

#[cfg(test)]
mod bytes;
#[cfg(test)]
mod names;
#[cfg(test)]
mod stores;
#[cfg(test)]
mod texts;
