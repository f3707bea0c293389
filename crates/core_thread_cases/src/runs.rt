//! Runs with as many threads as there may be.
ghost use Rattle.std.specs.Prelude.{◌≡◌, ◌+◌, ◌<◌, ◌≤◌, ℕ, IfOk, IfSome, length, slice_index_or};
ghost use Rattle.kept_data.specs.KeptFiles.{IsKeptByFile};
ghost use Rattle.core_thread_cases.specs.Sessions.{CommittersMayRun};

use crate::committing::Committer;
use core_program::CoreSize;
use cube_journal::JournalEntry;
use cube_schema::read_cubes;
use cube_values::Sequence;
use flush_loop::{NoStore, RoundResult};
use kept_data::kept_data_are_sound;
use opened_callers::an_opened_core_knows_its_callers;
use opened_core::opening_cells;
use outside_disk::NoGate;
use std::alloc::{AllocError, Global};
use std::sync::Wait;
use std::thread::Threads;
use store_reading::Kept;
use threaded_callers::ThreadStarter;
use threaded_core::{RanCore, ReadyCore, run_core};

const SHARDS: u32 = 2;

const SESSIONS: u32 = 3;

// What a store keeps of one cube before its first round.
fn kept_of_cube(alloc: Global) -> Option<Kept>
    ensures by_file { IfSome result IsKeptByFile }
    ensures begins { IfSome result (λ kept. kept.epoch ≡ 0) }
{
    kept_data_are_sound();
    match read_cubes(alloc, b"cube c\ndim d int 8 2\nmetric m\n") {
        Ok(cubes) => match Kept::of_cubes(alloc, Sequence::from_vec(cubes)) {
            Ok(kept) => Some(kept),
            Err(_) => None,
        },
        Err(_) => None,
    }
}

// The works of so many sessions.
fn committers(alloc: Global, size: CoreSize) -> Result<Vec<Committer>, AllocError>
    ensures long { IfOk result (λ works. length works.items ≡ size.sessions) }
    ensures numbers { IfOk result (λ works. (k : ℕ) (d : _) → k < size.sessions
        → (slice_index_or works.items k d).session ≡ 1 + k) }
    ensures sizes { IfOk result (λ works. (k : ℕ) (d : _) → k < size.sessions
        → (slice_index_or works.items k d).size ≡ size) }
{
    let mut works = Vec::with_capacity(alloc, size.sessions as usize)?;
    'sessions: for number in 0..size.sessions {
        works.push_reserved(Committer {
            size,
            session: number + 1,
            done: false,
        });
    }
    Ok(works)
}

// A core over what is kept, with these sessions and without a store. None: memory ran out.
fn core_over(
    alloc: Global,
    kept: &Kept,
    size: CoreSize,
    sessions: Vec<Committer>,
) -> Option<ReadyCore<Committer, NoStore>>
    requires kept { IsKeptByFile kept.now }
    requires begins { kept.now.epoch ≡ 0 }
    requires some_shards { 1 ≤ size.shards }
    requires some_sessions { 1 ≤ size.sessions }
    requires long { length sessions.items ≡ size.sessions }
    requires numbers { (k : ℕ) (d : _) → k < size.sessions
        → (slice_index_or sessions.items k d).session ≡ 1 + k }
    requires sizes { (k : ℕ) (d : _) → k < size.sessions
        → (slice_index_or sessions.items k d).size ≡ size }
    ensures { IfSome result CommittersMayRun }
{
    an_opened_core_knows_its_callers();
    match opening_cells(alloc, kept, size.shards, size.sessions) {
        Ok(cells) => Some(ReadyCore {
            size,
            cells,
            sessions,
            maker: NoStore,
        }),
        Err(_) => None,
    }
}

// A core over one cube.
fn ready_core(alloc: Global) -> Option<ReadyCore<Committer, NoStore>>
    ensures { IfSome result CommittersMayRun }
{
    let kept = kept_of_cube(alloc)?;
    let size = CoreSize::new(SHARDS, SESSIONS);
    match committers(alloc, size) {
        Ok(sessions) => core_over(alloc, &kept, size, sessions),
        Err(AllocError) => None,
    }
}

// How many commits a journal has.
fn commits_in(journal: &[JournalEntry]) -> usize {
    journal
        .iter()
        .filter(|entry| matches!(entry, JournalEntry::Committed { .. }))
        .count()
}

// The LSE up to which shards purged.
fn purged_up_to(ran: &RanCore<Committer, NoStore>) -> Option<u64> {
    match &ran.counters {
        Some(counters) => Some(counters.lse),
        None => None,
    }
}

// Whether a run ended as it may by how many threads it may have for two workers and the flusher. With a
// thread for each of these all sessions commit, all is safe in the end, and the shards purge up to there.
// With fewer no session begins, and the flusher makes its last round only where both workers have a
// thread.
fn ended_as_it_may(ran: &RanCore<Committer, NoStore>, most_threads: u64) -> bool {
    let begins = most_threads > 2;
    let flushes = most_threads > 1;
    let last = if begins { 3 } else { 0 };
    ran.began == begins
        && ran.flushed == flushes
        && ran.starter.has_refused() != begins
        && ran.sessions.len() == 3
        && ran.sessions.iter().all(|session| session.done == begins)
        && ran.last_round
            == if flushes {
                Some(RoundResult::Idle(last))
            } else {
                None
            }
        && purged_up_to(ran) == if begins { Some(last) } else { None }
        && commits_in(ran.left.desk.journal()) == last as usize
        && ran.left.shards.len() == 2
}

// Runs the core so.
fn runs_as_it_may<R: Threads + Wait + Sync>(rt: &R, alloc: Global, most_threads: u64) -> bool {
    match ready_core(alloc) {
        Some(core) => {
            match run_core(rt, alloc, ThreadStarter::new(most_threads), core, &NoGate) {
                Ok(ran) => ended_as_it_may(&ran, most_threads),
                Err(_) => false,
            }
        }
        None => false,
    }
}

#[test]
fn all_sessions_commit(rt: HostRuntime) {
    assert!(rt; runs_as_it_may(&rt, rt.alloc(), 3));
}

#[test]
fn runs_with_too_few_threads_end(rt: HostRuntime) {
    for most_threads in 0..3 {
        assert!(rt; runs_as_it_may(&rt, rt.alloc(), most_threads));
    }
}

#[test]
fn many_runs_end(rt: HostRuntime) {
    for _ in 0..100 {
        assert!(rt; runs_as_it_may(&rt, rt.alloc(), u64::MAX));
    }
}
