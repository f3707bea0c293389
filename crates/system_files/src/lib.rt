//! The files and the standard output of the system: shelves of files that are read, disks of a store, and a sink.
//! What the system does with them is trusted.
#![tactic(auto)]

mod file_disk;
mod file_shelf;
mod out_sink;

pub use file_disk::FileDisk;
pub use file_shelf::FileShelf;
pub use out_sink::OutSink;

#[cfg(test)]
mod tests;
