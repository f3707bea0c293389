//! A core before a run on threads, and after it.

use aosi_desk::Desk;
use core_program::CoreSize;
use cube_core::CoreCell;
use cube_journal::Counters;
use flush_loop::RoundResult;
use linked_shards::CoreShard;
use names_dict::Dicts;
use threaded_callers::ThreadStarter;

/// A core that may run: the cells with which it opens, the work of each session, and what makes its
/// rounds.
#[derive(Drop)]
pub struct ReadyCore<W, M> {
    pub size: CoreSize,
    pub cells: Vec<CoreCell<CoreShard>>,
    pub sessions: Vec<W>,
    pub maker: M,
}

/// What the cells of a core held once a run was over: the desk with the journal, the names, and the
/// shards by their numbers.
#[derive(Drop)]
pub struct CoreLeft {
    pub desk: Desk,
    pub names: Dicts,
    pub shards: Vec<CoreShard>,
}

/// A core that has run.
#[derive(Drop)]
pub struct RanCore<W, M> {
    pub left: CoreLeft,
    pub sessions: Vec<W>,
    /// Whether the sessions began. They do unless a worker or the flusher was refused a thread.
    pub began: bool,
    pub maker: M,
    /// How the last round ended. None: a round was lost to the disk before, or the flusher did not begin.
    pub last_round: Option<RoundResult>,
    /// Whether the flusher began. It does unless a worker was refused a thread.
    pub flushed: bool,
    /// The counters up to whose LSE the shards purged at the end. None: no session had begun.
    pub counters: Option<Counters>,
    pub starter: ThreadStarter,
}
