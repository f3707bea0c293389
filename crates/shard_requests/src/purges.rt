//! A purge, and its note.
ghost use Rattle.std.specs.Prelude.{◌≡◌, ◌+◌, ◌≤◌, [], ◌∷◌, Option};
ghost use Rattle.std.specs.Bool.{OnFalse, OnTrue};
ghost use Rattle.core_program.specs.Knowing.{IsClientOf, IsSessionOf};
ghost use Rattle.cube_journal.specs.declared.journal_entry.JournalEntry.TheVariants as entry;
ghost use Rattle.cube_values.specs.declared.snapshot.Snapshot.{Snapshot};
ghost use Rattle.job_groups.specs.AskedEach.{AreShardMails};
ghost use Rattle.session_snapshots.specs.KnownHolds.{HoldsReady, HoldsTheSame};
ghost use Rattle.linked_shards.specs.CellShards.{CoreShardStands};
ghost use Rattle.session_requests.specs.SessionRequests.{IsToldSafe};
ghost use Rattle.shard_events.specs.ShardsInRuns.{FitsShard, ShardAnswerSays};
ghost use Rattle.shard_statements.specs.OverShards.{LeavesOverShards};
ghost use Rattle.turn_board.specs.Passes.{callers_of};

use crate::notes::try_note;
use board_callers::CellCaller;
use core_program::CoreSize;
use cube_journal::Note;
use linked_shards::ShardCells;
use session_requests::purge_shards;
use std::alloc::Global;
use std::sync::Wait;
use turn_board::Board;

/// Has each shard purge up to the latest safe epoch that the session was told of, and notes that. False where there is
/// no memory for the one or the other.
pub(crate) fn purge_and_note<R: Wait, P: CellCaller<ShardCells>>(
    rt: &R,
    board: &Board<ShardCells>,
    caller: &mut P,
    size: &CoreSize,
    session: u32,
    statement: u32,
    epoch: u64,
    alloc: Global,
) -> bool
    requires board { P.calls_on board.now caller.old }
    requires callers { size.now.sessions + 2 + size.now.shards ≤ callers_of board.now }
    requires some { 1 ≤ size.now.shards }
    requires client { IsClientOf FitsShard CoreShardStands ShardAnswerSays (P.opening caller.old)
        (P.number caller.old) session }
    requires session { IsSessionOf FitsShard CoreShardStands ShardAnswerSays (P.opening caller.old)
        session }
    requires mails { AreShardMails FitsShard CoreShardStands ShardAnswerSays (P.opening caller.old)
        session size.now.shards (2 + size.now.shards) }
    requires ready { (held : Option Snapshot) × HoldsReady FitsShard CoreShardStands
        ShardAnswerSays (P.opening caller.old) (P.number caller.old) session (P.own caller.old)
        held }
    requires told { IsToldSafe (P.opening caller.old) (P.number caller.old) session
        (P.own caller.old) epoch }
    ensures board { P.calls_on board.now caller.new }
    ensures opening { P.opening caller.new ≡ P.opening caller.old }
    ensures number { P.number caller.new ≡ P.number caller.old }
    ensures others { P.others caller.new ≡ P.others caller.old }
    ensures same { HoldsTheSame FitsShard CoreShardStands ShardAnswerSays session
        (P.opening caller.old) (P.number caller.old) (P.own caller.old) (P.opening caller.new)
        (P.number caller.new) (P.own caller.new) }
    ensures left { OnTrue result (LeavesOverShards (P.opening caller.old) (P.number caller.old)
        session (P.own caller.old) (P.own caller.new)
        (entry.Purged session statement epoch ∷ [])) }
    ensures stopped { OnFalse result (LeavesOverShards (P.opening caller.old)
        (P.number caller.old) session (P.own caller.old) (P.own caller.new) []) }
{
    match purge_shards(rt, board, caller, size, session, statement, epoch, alloc) {
        Ok(()) => {
            let purged = Note::Purged {
                session,
                statement,
                epoch,
            };
            try_note(rt, board, caller, session, purged)
        }
        Err(_) => false,
    }
}
