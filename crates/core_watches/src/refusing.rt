//! A statement of a watch that is refused.
ghost use Rattle.std.specs.Prelude.{◌≡◌, ◌≢◌, ◌+◌, ◌≤◌, [], ◌∷◌, false, ℕ};
ghost use Rattle.core_watches.specs.WatchEnds.{no_memory_entry, reader_closed};
ghost use Rattle.aosi_desk.specs.Desks.{is_cube_code};
ghost use Rattle.core_states.specs.StandingInCore.{HoldsForMode};
ghost use Rattle.core_watches.specs.KeptWatches.{HoldersHold, IsRefusedSo};
ghost use Rattle.cube_journal.specs.Refusals.{code};
ghost use Rattle.linked_shards.specs.CellShards.{CoreShardStands};
ghost use Rattle.scripted_pasts.specs.Served.{IsServed};
ghost use Rattle.session_desk.specs.Executed.{IfReplied};
ghost use Rattle.session_replies.specs.Modes.{mode_of};
ghost use Rattle.session_watches.specs.KnownReaders.{HoldersKeep};
ghost use Rattle.shard_events.specs.ShardsInRuns.{FitsShard, ShardAnswerSays};
ghost use Rattle.turn_board.specs.Passes.{callers_of};
ghost use Rattle.watch_holds.specs.HolderStates.{HasReaderUnder, HeldReaders, IsHolderOf, NoReader, OneReader, TwoReaders};
ghost use mathlib.Core.List.{IsPrefix};
ghost use Rattle.cube_journal.specs.declared.journal_entry.JournalEntry.TheVariants as entry;
ghost use Rattle.cube_journal.specs.declared.refusal.Refusal.TheVariants as cause;

use board_callers::CellCaller;
use core_program::CoreSize;
use core_states::{CoreSession, refuse_plainly};
use cube_journal::Refusal;
use linked_shards::{CoreShard, ShardCells};
use session_desk::Answered;
use session_watches::close_holder;
use std::sync::Wait;
use turn_board::Board;

/// Refuses the statement. What the session's holders held, they hold.
pub(crate) fn refuse_so<R: Wait, P: CellCaller<ShardCells>>(
    rt: &R,
    board: &Board<ShardCells>,
    caller: &mut P,
    size: &CoreSize,
    session: &CoreSession,
    refusal: Refusal,
) -> Answered
    requires board { P.calls_on board.now caller.old }
    requires callers { size.now.sessions + 2 + size.now.shards ≤ callers_of board.now }
    requires served { IsServed (P.opening caller.old) (P.number caller.old) session.now.number
        size.now.shards }
    requires holds { HoldsForMode FitsShard CoreShardStands ShardAnswerSays (P.opening caller.old)
        (P.number caller.old) session.now.number (P.own caller.old) (mode_of session.now.mode) }
    requires cubes { is_cube_code (code refusal) ≡ false }
    requires store { code refusal ≢ 17 }
    ensures board { P.calls_on board.now caller.new }
    ensures opening { P.opening caller.new ≡ P.opening caller.old }
    ensures number { P.number caller.new ≡ P.number caller.old }
    ensures others { P.others caller.new ≡ P.others caller.old }
    ensures holds { HoldsForMode FitsShard CoreShardStands ShardAnswerSays (P.opening caller.new)
        (P.number caller.new) session.now.number (P.own caller.new) (mode_of session.now.mode) }
    ensures prefix { IsPrefix (P.own caller.old) (P.own caller.new) }
    ensures holders { HoldersKeep FitsShard CoreShardStands ShardAnswerSays session.now.number
        (P.opening caller.old) (P.number caller.old) (P.own caller.old) (P.opening caller.new)
        (P.number caller.new) (P.own caller.new) }
    ensures refused { IfReplied result (IsRefusedSo (P.opening caller.old) (P.number caller.old)
        session.now.number (P.own caller.old) (P.own caller.new)
        (entry.Refused session.now.number session.now.statements (code refusal) ∷ []) refusal) }
{
    refuse_plainly::<CoreShard, R, P>(rt, board, caller, session, refusal)
}

/// Closes the reader that was opened last, under a holder's number, and refuses the statement for want of memory.
pub(crate) fn give_up<R: Wait, P: CellCaller<ShardCells>>(
    rt: &R,
    board: &Board<ShardCells>,
    caller: &mut P,
    size: &CoreSize,
    session: &CoreSession,
    holder: u32,
) -> Answered
    requires board { P.calls_on board.now caller.old }
    requires callers { size.now.sessions + 2 + size.now.shards ≤ callers_of board.now }
    requires served { IsServed (P.opening caller.old) (P.number caller.old) session.now.number
        size.now.shards }
    requires holds { HoldsForMode FitsShard CoreShardStands ShardAnswerSays (P.opening caller.old)
        (P.number caller.old) session.now.number (P.own caller.old) (mode_of session.now.mode) }
    requires holder { IsHolderOf session.now.number holder }
    requires reads { (readers : HeldReaders) × HasReaderUnder holder readers
        × HoldersHold (P.opening caller.old) (P.number caller.old) session.now.number
        (P.own caller.old) readers }
    ensures board { P.calls_on board.now caller.new }
    ensures opening { P.opening caller.new ≡ P.opening caller.old }
    ensures number { P.number caller.new ≡ P.number caller.old }
    ensures others { P.others caller.new ≡ P.others caller.old }
    ensures holds { HoldsForMode FitsShard CoreShardStands ShardAnswerSays (P.opening caller.new)
        (P.number caller.new) session.now.number (P.own caller.new) (mode_of session.now.mode) }
    ensures prefix { IsPrefix (P.own caller.old) (P.own caller.new) }
    ensures last { (epoch : ℕ) → HoldersHold (P.opening caller.old) (P.number caller.old)
        session.now.number (P.own caller.old) (OneReader holder epoch)
        → HoldersHold (P.opening caller.new) (P.number caller.new) session.now.number
        (P.own caller.new) NoReader }
    ensures newer { (older from to : ℕ) → HoldersHold (P.opening caller.old)
        (P.number caller.old) session.now.number (P.own caller.old)
        (TwoReaders older from holder to)
        → HoldersHold (P.opening caller.new) (P.number caller.new) session.now.number
        (P.own caller.new) (OneReader older from) }
    ensures refused { IfReplied result (IsRefusedSo (P.opening caller.old) (P.number caller.old)
        session.now.number (P.own caller.old) (P.own caller.new)
        (reader_closed session.now holder ∷ no_memory_entry session.now ∷ []) cause.NoMemory) }
{
    close_holder::<CoreShard, R, P>(
        rt,
        board,
        caller,
        session.number,
        holder,
        session.statements,
    );
    refuse_so(rt, board, caller, size, session, Refusal::NoMemory)
}
