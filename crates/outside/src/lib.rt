//! The traits that stand for files and output, their memory forms, and the two loops over them.
#![tactic(auto)]

mod answers;
mod calls;
mod reading;
mod shelf;
mod shelf_memory;
mod sink;
mod sink_memory;
mod writing;

pub use answers::{PutAnswer, ReadAnswer, SizeAnswer};
pub use calls::Calls;
pub use reading::{FileFault, read_whole};
pub use shelf::Shelf;
pub use shelf_memory::ShelfMemory;
pub use sink::Sink;
pub use sink_memory::SinkMemory;
pub use writing::{OutputFault, put_whole};
