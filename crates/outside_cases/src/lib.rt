//! Cases of what stands for the world: shelves, sinks and disks in memory, through their public calls alone.
#![tactic(auto)]

#[cfg(test)]
mod disks;
#[cfg(test)]
mod files;
