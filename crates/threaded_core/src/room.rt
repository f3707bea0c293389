//! The memory of a run.
ghost use Rattle.std.specs.Prelude.{IfOk};
ghost use Rattle.threaded_core.specs.Rooms.{IsRoomFor};

use crate::numbered::NumberedWork;
use core_program::CoreSize;
use linked_shards::{CoreShard, ShardCells};
use run_threads::ShardWorker;
use std::alloc::{AllocError, Global};
use threaded_callers::Task;

/// Empty lists: for the tasks of a run, and for what it leaves.
#[derive(Drop)]
pub(crate) struct RunRoom<'g, W, G> {
    pub(crate) sessions: Vec<Task<ShardCells, NumberedWork<W>>>,
    pub(crate) workers: Vec<Task<ShardCells, ShardWorker<'g, G>>>,
    pub(crate) works: Vec<W>,
    pub(crate) shards: Vec<CoreShard>,
}

impl<'g, W: Drop, G> RunRoom<'g, W, G> {
    /// Lists with room for a core of this size.
    pub(crate) fn of(alloc: Global, size: &CoreSize) -> Result<RunRoom<'g, W, G>, AllocError>
        ensures { IfOk result (IsRoomFor size.now.shards size.now.sessions) }
    {
        let sessions = Vec::with_capacity(alloc, size.sessions as usize)?;
        let workers = Vec::with_capacity(alloc, size.shards as usize)?;
        let works = Vec::with_capacity(alloc, size.sessions as usize)?;
        let shards = Vec::with_capacity(alloc, size.shards as usize)?;
        Ok(RunRoom {
            sessions,
            workers,
            works,
            shards,
        })
    }
}
