//! Notes that a session leaves.
ghost use Rattle.std.specs.Prelude.{◌≡◌, [], ◌∷◌, Option};
ghost use Rattle.std.specs.Bool.{OnFalse, OnTrue};
ghost use Rattle.core_program.specs.Knowing.{IsClientOf, IsSessionOf};
ghost use Rattle.cube_journal.specs.Entries.{note_entry};
ghost use Rattle.cube_journal.specs.Refusals.{code};
ghost use Rattle.cube_journal.specs.declared.journal_entry.JournalEntry.TheVariants as entry;
ghost use Rattle.cube_journal.specs.declared.note.Note.TheVariants as note;
ghost use Rattle.cube_values.specs.declared.snapshot.Snapshot.{Snapshot};
ghost use Rattle.session_snapshots.specs.KnownHolds.{HoldsReady, HoldsTheSame};
ghost use Rattle.linked_shards.specs.CellShards.{CoreShardStands};
ghost use Rattle.session_requests.specs.SessionRequests.{MayNoteOfShards};
ghost use Rattle.shard_events.specs.ShardsInRuns.{FitsShard, ShardAnswerSays};
ghost use Rattle.shard_statements.specs.OverShards.{LeavesOverShards};

use board_callers::CellCaller;
use cube_journal::{Note, Refusal};
use linked_shards::{CoreShard, ShardCells};
use session_snapshots::leave_note;
use std::sync::Wait;
use turn_board::Board;

/// Leaves a note that the session may leave. False where the journal has no memory for it.
pub(crate) fn try_note<R: Wait, P: CellCaller<ShardCells>>(
    rt: &R,
    board: &Board<ShardCells>,
    caller: &mut P,
    session: u32,
    note: Note,
) -> bool
    requires board { P.calls_on board.now caller.old }
    requires client { IsClientOf FitsShard CoreShardStands ShardAnswerSays (P.opening caller.old)
        (P.number caller.old) session }
    requires session { IsSessionOf FitsShard CoreShardStands ShardAnswerSays (P.opening caller.old)
        session }
    requires ready { (held : Option Snapshot) × HoldsReady FitsShard CoreShardStands
        ShardAnswerSays (P.opening caller.old) (P.number caller.old) session (P.own caller.old)
        held }
    requires may { MayNoteOfShards (P.opening caller.old) (P.number caller.old) session
        (P.own caller.old) note }
    ensures board { P.calls_on board.now caller.new }
    ensures opening { P.opening caller.new ≡ P.opening caller.old }
    ensures number { P.number caller.new ≡ P.number caller.old }
    ensures others { P.others caller.new ≡ P.others caller.old }
    ensures same { HoldsTheSame FitsShard CoreShardStands ShardAnswerSays session
        (P.opening caller.old) (P.number caller.old) (P.own caller.old) (P.opening caller.new)
        (P.number caller.new) (P.own caller.new) }
    ensures left { OnTrue result (LeavesOverShards (P.opening caller.old) (P.number caller.old)
        session (P.own caller.old) (P.own caller.new) (note_entry note ∷ [])) }
    ensures stopped { OnFalse result (LeavesOverShards (P.opening caller.old)
        (P.number caller.old) session (P.own caller.old) (P.own caller.new) []) }
{
    match leave_note::<CoreShard, R, P>(rt, board, caller, session, note) {
        Some(_) => true,
        None => false,
    }
}

/// The same of the note that a statement was refused.
pub(crate) fn note_refusal<R: Wait, P: CellCaller<ShardCells>>(
    rt: &R,
    board: &Board<ShardCells>,
    caller: &mut P,
    session: u32,
    statement: u32,
    refusal: &Refusal,
) -> bool
    requires board { P.calls_on board.now caller.old }
    requires client { IsClientOf FitsShard CoreShardStands ShardAnswerSays (P.opening caller.old)
        (P.number caller.old) session }
    requires session { IsSessionOf FitsShard CoreShardStands ShardAnswerSays (P.opening caller.old)
        session }
    requires ready { (held : Option Snapshot) × HoldsReady FitsShard CoreShardStands
        ShardAnswerSays (P.opening caller.old) (P.number caller.old) session (P.own caller.old)
        held }
    requires may { MayNoteOfShards (P.opening caller.old) (P.number caller.old) session
        (P.own caller.old) (note.Refused session statement (code refusal.now)) }
    ensures board { P.calls_on board.now caller.new }
    ensures opening { P.opening caller.new ≡ P.opening caller.old }
    ensures number { P.number caller.new ≡ P.number caller.old }
    ensures others { P.others caller.new ≡ P.others caller.old }
    ensures same { HoldsTheSame FitsShard CoreShardStands ShardAnswerSays session
        (P.opening caller.old) (P.number caller.old) (P.own caller.old) (P.opening caller.new)
        (P.number caller.new) (P.own caller.new) }
    ensures left { OnTrue result (LeavesOverShards (P.opening caller.old) (P.number caller.old)
        session (P.own caller.old) (P.own caller.new)
        (entry.Refused session statement (code refusal.now) ∷ [])) }
    ensures stopped { OnFalse result (LeavesOverShards (P.opening caller.old)
        (P.number caller.old) session (P.own caller.old) (P.own caller.new) []) }
{
    let refused = Note::Refused {
        session,
        statement,
        code: refusal.code(),
    };
    try_note(rt, board, caller, session, refused)
}
