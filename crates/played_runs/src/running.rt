//! A run of scripts over what is kept.
ghost use Rattle.std.specs.Prelude.{◌≡◌, ◌+◌, ◌≤◌, ◌^◌, ◌++◌, ◌↔◌, IfErr, IfOk, IsTrue, List, OnOk, [], length, map, unwrap_or, vec_capacity};
ghost use Rattle.std.specs.List.{AllByRecursion};
ghost use Rattle.script_sentences.specs.GivenTexts.{MayBeSaid};
ghost use Rattle.cube_core.specs.declared.cell.CoreCell.{CoreCell};
ghost use Rattle.cube_journal.specs.Counters.{counters};
ghost use Rattle.cube_values.specs.declared.call_error.CallError.TheVariants.{NoMemory};
ghost use Rattle.kept_data.specs.KeptFiles.{IsKeptByFile};
ghost use Rattle.linked_shards.specs.declared.cell.CoreShard.{CoreShard};
ghost use Rattle.opened_core.specs.KeptShards.{TakeAllKept};
ghost use Rattle.opened_core.specs.Openings.{AreCellsOver, OpenOver};
ghost use Rattle.run_threads.specs.CoreWorks.{KeepsRounds};
ghost use Rattle.played_runs.specs.LeftByRuns.{IsFullFor, IsGivenBack, IsLeftByScripts};
ghost use Rattle.played_runs.specs.ReadySessions.{IsReadyScript, IsWhole, replies_of, script_ready, sentences_of, shelf_of};

use crate::law::what_is_left_is_on_record;
use crate::rooms::{RunRoom, run_room};
use crate::shelves::{GivenShelves, ReturnedShelves, give_shelves, return_shelves};
use core_program::CoreSize;
use core_scripts::{ScriptWork, play_on_threads};
use counted_scripts::replies_tell_the_counts;
use cube_core::CoreCell;
use cube_journal::{Counters, JournalEntry, Reply};
use cube_values::CallError;
use flush_loop::{MakesRounds, RoundResult};
use linked_shards::CoreShard;
use names_dict::Dicts;
use opened_core::{FullShard, opening_cells};
use outside::Shelf;
use outside_disk::Gate;
use run_ends::runs_on_threads_end_with_all_safe;
use script_sentences::Said;
use std::alloc::Global;
use std::sync::Wait;
use std::thread::Threads;
use store_reading::Kept;
use threaded_callers::ThreadStarter;
use threaded_core::{CoreLeft, RanCore, ReadyCore};

/// What a run of scripts left, and the shelves and the maker of rounds, which it gives back.
#[derive(Drop)]
pub struct PlayedRun<H, M> {
    /// The replies of each session.
    pub replies: Vec<Vec<Reply>>,
    /// Whether each script was played to its end. If not, memory ran out, or a thread was refused.
    pub whole: bool,
    pub journal: Vec<JournalEntry>,
    /// The counters in the end.
    pub counters: Counters,
    /// The dictionaries in the end.
    pub names: Dicts,
    /// The shards in the end, by their numbers.
    pub shards: Vec<CoreShard>,
    /// How the last round ended. None: a round was lost to the disk before, or a thread was refused.
    pub last_round: Option<RoundResult>,
    pub shelves: Vec<H>,
    pub maker: M,
}

/// A run that no session began, and why: what is kept is too much for a shard, or memory ran out.
#[derive(Drop)]
pub struct UnplayedRun<H, M> {
    pub cause: CallError<FullShard>,
    pub shelves: Vec<H>,
    pub maker: M,
}

// What the core left, with the shelves.
fn played_run<'g, H: Shelf + Drop, M, G>(
    ran: RanCore<ScriptWork<'g, H, G>, M>,
    rest: Vec<H>,
    replies: Vec<Vec<Reply>>,
    count: u32,
) -> PlayedRun<H, M>
    requires many { length ran.sessions.items ≡ count }
    requires empty { replies.items ≡ [] }
    requires room { count ≤ vec_capacity replies }
    requires places { length rest.items + count ≤ vec_capacity rest }
    ensures shelves { result.shelves.items ≡ map shelf_of ran.entry.sessions.items ++ rest.items }
    ensures replies { result.replies.items ≡ map replies_of ran.entry.sessions.items }
    ensures whole { IsTrue result.whole
        ↔ (IsTrue ran.entry.began × AllByRecursion IsWhole ran.entry.sessions.items) }
    ensures journal { result.journal.items ≡ ran.entry.left.desk.register.journal }
    ensures counters { result.counters
        ≡ counters ran.entry.left.desk.register.safe ran.entry.left.desk.register.journal }
    ensures names { result.names ≡ ran.entry.left.names }
    ensures shards { result.shards ≡ ran.entry.left.shards }
    ensures last_round { result.last_round ≡ ran.entry.last_round }
    ensures maker { result.maker ≡ ran.entry.maker }
{
    let RanCore {
        left,
        sessions,
        began,
        maker,
        last_round,
        ..
    } = ran;
    let ReturnedShelves {
        replies,
        shelves,
        whole,
    } = return_shelves(sessions, rest, replies, count);
    let CoreLeft {
        desk,
        names,
        shards,
    } = left;
    let counters = desk.counters();
    PlayedRun {
        replies,
        whole: began && whole,
        journal: desk.into_journal(),
        counters,
        names,
        shards,
        last_round,
        shelves,
        maker,
    }
}

// Plays the scripts over a core with these cells, which opened over what is kept. There is room.
fn play_over<
    'g,
    R: Threads + Wait + Sync,
    H: Shelf + Send + Drop,
    M: MakesRounds<CoreShard> + Send + Drop,
    G: Gate + Sync,
>(
    rt: &R,
    alloc: Global,
    starter: ThreadStarter,
    size: CoreSize,
    round_every: Option<u32>,
    kept: &Kept,
    cells: Vec<CoreCell<CoreShard>>,
    room: RunRoom<'g, H, G>,
    shelves: Vec<H>,
    maker: M,
    gate: &'g G,
) -> Result<PlayedRun<H, M>, UnplayedRun<H, M>>
    requires kept { IsKeptByFile kept.now }
    requires some { 1 ≤ size.shards }
    requires sessions { 1 ≤ size.sessions }
    requires over { AreCellsOver kept.now size.shards size.sessions cells.items }
    requires opens { OpenOver kept.now size.shards size.sessions cells.items }
    requires scripts { length room.scripts.items ≡ size.sessions }
    requires ready { AllByRecursion IsReadyScript room.scripts.items }
    requires no_work { room.works.items ≡ [] }
    requires for_works { size.sessions ≤ vec_capacity room.works }
    requires no_reply { room.replies.items ≡ [] }
    requires for_replies { size.sessions ≤ vec_capacity room.replies }
    requires shelves { size.sessions ≤ length shelves.items }
    requires keeps { KeepsRounds M.serves M.has_kept size.sessions maker maker cells.items
        (size.sessions + 1 + size.shards) [] }
    ensures left { IfOk result (IsLeftByScripts H.told H.fault_count H.absence_count M.has_kept
        M.becomes kept.now size (unwrap_or round_every 0) (map script_ready room.entry.scripts.items)
        shelves.items maker) }
    ensures back { IfErr result (λ u. IsGivenBack shelves.items maker u
        × (u.cause ≡ NoMemory)) }
{
    what_is_left_is_on_record();
    replies_tell_the_counts();
    runs_on_threads_end_with_all_safe::<ScriptWork<'g, H, G>, M>();
    let RunRoom {
        scripts,
        works,
        replies,
    } = room;
    let GivenShelves { works, rest } = give_shelves(
        alloc,
        size,
        round_every,
        scripts,
        shelves,
        works,
        gate,
    );
    match play_on_threads(rt, alloc, starter, size, cells, works, maker, gate) {
        Ok(ran) => Ok(played_run(ran, rest, replies, size.sessions)),
        Err(core) => {
            let ReadyCore {
                sessions,
                maker,
                ..
            } = core;
            let ReturnedShelves { shelves, .. } = return_shelves(
                sessions,
                rest,
                replies,
                size.sessions,
            );
            Err(UnplayedRun {
                cause: CallError::NoMemory,
                shelves,
                maker,
            })
        }
    }
}

/// Plays scripts over what a file keeps, each by a session of its own on a thread of its own, which reads the files
/// of its LOADs from a shelf of its own: that at the same place among the shelves. There is a worker for each shard,
/// and a flusher, which makes its rounds as `maker` does; after so many commits of a session one follows, if after
/// any. So many of the last statements of the first script wait until each session has played all others of its own. In
/// the end the flusher makes the closing round, and all shards purge.
///
/// No session begins where a shard would have more kept rows than it takes, and where memory runs out before. Want
/// of memory in a session ends its part, and the rest goes on; so does the refusal of a thread end all.
pub fn play_run<
    R: Threads + Wait + Sync,
    H: Shelf + Send + Drop,
    M: MakesRounds<CoreShard> + Send + Drop,
    G: Gate + Sync,
>(
    rt: &R,
    alloc: Global,
    starter: ThreadStarter,
    size: CoreSize,
    round_every: Option<u32>,
    kept: &Kept,
    scripts: Vec<Vec<Said>>,
    held_back: usize,
    shelves: Vec<H>,
    maker: M,
    gate: &G,
) -> Result<PlayedRun<H, M>, UnplayedRun<H, M>>
    requires kept { IsKeptByFile kept.now }
    requires small { kept.now.epoch ≤ 2 ^ 61 }
    requires some { 1 ≤ size.shards }
    requires sessions { 1 ≤ size.sessions }
    requires as_many { length scripts.items ≡ size.sessions }
    requires said { AllByRecursion MayBeSaid scripts.items }
    requires shelves { size.sessions ≤ length shelves.items }
    requires keeps { (cells : List (CoreCell CoreShard))
        → AreCellsOver kept.now size.shards size.sessions cells
        → KeepsRounds M.serves M.has_kept size.sessions maker maker cells
        (size.sessions + 1 + size.shards) [] }
    ensures left { IfOk result (IsLeftByScripts H.told H.fault_count H.absence_count M.has_kept
        M.becomes kept.now size (unwrap_or round_every 0) (map sentences_of scripts.items)
        shelves.items maker) }
    ensures takes { OnOk result (TakeAllKept kept.now size.shards) }
    ensures back { IfErr result (IsGivenBack shelves.items maker) }
    ensures full { IfErr result (λ u. IsFullFor kept.now size.shards u.cause) }
{
    let room = match run_room(alloc, scripts, held_back) {
        Ok(room) => room,
        Err(_) => {
            return Err(UnplayedRun {
                cause: CallError::NoMemory,
                shelves,
                maker,
            });
        }
    };
    match opening_cells(alloc, kept, size.shards, size.sessions) {
        Ok(cells) => play_over(
            rt,
            alloc,
            starter,
            size,
            round_every,
            kept,
            cells,
            room,
            shelves,
            maker,
            gate,
        ),
        Err(cause) => Err(UnplayedRun {
            cause,
            shelves,
            maker,
        }),
    }
}
