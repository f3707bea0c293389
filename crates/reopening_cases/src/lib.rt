//! Cases of two files that are opened again: bytes written by an independent program, cut, turned and paired; and
//! stores whose disks stop at each call.
#![tactic(auto)]

#[cfg(test)]
mod attempts;
#[cfg(test)]
mod bytes;
#[cfg(test)]
mod creations;
#[cfg(test)]
mod names;
#[cfg(test)]
mod openings;
#[cfg(test)]
mod pairs;
#[cfg(test)]
mod wholes;
