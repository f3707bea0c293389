//! One round that is kept in a store.
ghost use Rattle.std.specs.Prelude.{◌≡◌, ◌+◌, ◌≤◌, false};
ghost use Rattle.aosi_desk.specs.declared.answer.RoundAnswer.TheVariants as asked;
ghost use Rattle.core_events.specs.Clients.{is_lost_to_disk};
ghost use Rattle.core_program.specs.Flushing.{IsFlusherOf};
ghost use Rattle.cube_rounds.specs.Stands.{Kept};
ghost use Rattle.flush_loop.specs.MadeRounds.{GoesOnKeeping, HasKeptSince, KnowsBetween, LearnsOfOwnRound};
ghost use Rattle.flush_loop.specs.RoundResults.{loses_store};
ghost use Rattle.job_groups.specs.AskedEach.{AreShardMails, HasMore};
ghost use Rattle.linked_shards.specs.CellShards.{CoreShardStands};
ghost use Rattle.shard_events.specs.ShardsInRuns.{FitsShard, ShardAnswerSays};
ghost use Rattle.round_copies.specs.RoundCopies.{HasOpened};
ghost use Rattle.round_copies.specs.WithinRounds.{KnowsOfFlusher};
ghost use Rattle.stored_rounds.specs.OwnKnowledge.{ClosesRound, IsReadyForRound, IsRoundOfRuns, KeepsOnByRound};
ghost use Rattle.stored_rounds.specs.RoundsInStore.{AlwaysOpenForRounds, EndsAs, KeepsOfRun, result_of_end};
ghost use Rattle.turn_board.specs.Passes.{callers_of};

use crate::stored::StoredRounds;
use aosi_desk::{RoundAnswer, RoundEnd};
use board_callers::CellCaller;
use core_program::CoreSize;
use flush_loop::{RoundResult, close_round, open_round};
use flush_round::keep_round;
use linked_shards::ShardCells;
use outside_disk::Disk;
use round_copies::RoundSpan;
use std::sync::Wait;
use turn_board::Board;

// How a round ended that was closed so.
fn result_of_end(epoch: u64, how: RoundEnd) -> RoundResult
    ensures { result ≡ result_of_end epoch how }
{
    match how {
        RoundEnd::Safe => RoundResult::Safe(epoch),
        RoundEnd::Lost(cause) => RoundResult::Lost(cause),
    }
}

impl<D: Disk> StoredRounds<D> {
    // Keeps the open round, all of it where the store wants a whole one, and closes it as it then is.
    fn keep_and_close<R: Wait, P: CellCaller<ShardCells>>(
        &mut self,
        rt: &R,
        board: &Board<ShardCells>,
        caller: &mut P,
        size: &CoreSize,
        span: RoundSpan,
    ) -> RoundEnd
        requires board { P.calls_on board.now caller.old }
        requires callers { size.now.sessions + 2 + size.now.shards ≤ callers_of board.now }
        requires some { 1 ≤ size.now.shards }
        requires flusher { IsFlusherOf FitsShard CoreShardStands ShardAnswerSays
            (P.opening caller.old) (P.number caller.old) (size.now.sessions + 1) size.now.shards }
        requires mails { AreShardMails FitsShard CoreShardStands ShardAnswerSays
            (P.opening caller.old) (size.now.sessions + 1) size.now.shards (2 + size.now.shards) }
        requires round { KnowsOfFlusher (P.opening caller.old) (P.number caller.old)
            (size.now.sessions + 1) (P.own caller.old) (HasOpened span) }
        requires ready { (kept : Kept) × IsReadyForRound (P.opening caller.old)
            (P.number caller.old) (size.now.sessions + 1) (P.own caller.old) D.view span self.old
            kept }
        ensures board { P.calls_on board.now caller.new }
        ensures opening { P.opening caller.new ≡ P.opening caller.old }
        ensures number { P.number caller.new ≡ P.number caller.old }
        ensures others { P.others caller.new ≡ P.others caller.old }
        ensures closes { ClosesRound (P.opening caller.old) (P.number caller.old)
            (size.now.sessions + 1) (P.own caller.old) span.epoch result (P.own caller.new) }
        ensures between { KnowsBetween FitsShard CoreShardStands ShardAnswerSays
            (P.opening caller.new) (P.number caller.new) (size.now.sessions + 1)
            (is_lost_to_disk result) (P.own caller.new) }
        ensures kept { KeepsOnByRound (P.opening caller.old) (P.number caller.old)
            (size.now.sessions + 1) (P.own caller.old) D.view span self.old self.new
            (P.own caller.new) }
        ensures ends { (kept : Kept) × EndsAs D.view (IsRoundOfRuns (P.opening caller.new)
            (P.number caller.new) (size.now.sessions + 1) (P.own caller.new))
            (result_of_end span.epoch result) kept self.old self.new }
    {
        let how = keep_round(
            rt,
            board,
            caller,
            size,
            size.sessions + 1,
            span,
            &mut self.store,
            &mut self.first,
            &mut self.second,
            self.alloc,
        );
        close_round(rt, board, caller, size, span.epoch, how);
        how
    }

    /// Makes one round, and keeps it in the store. It is closed as safe only where the store stands for it,
    /// with what was copied in the run, and as lost to the disk only where a disk failed.
    /// A round that is lost to memory, or for which there was none, or nothing to save, leaves the store and
    /// its disks as they were. In any case two images stand at every moment for what was kept, or for that
    /// with the round.
    pub fn make_stored_round<R: Wait, P: CellCaller<ShardCells>>(
        &mut self,
        rt: &R,
        board: &Board<ShardCells>,
        caller: &mut P,
        size: &CoreSize,
    ) -> RoundResult
        requires board { P.calls_on board.now caller.old }
        requires callers { size.now.sessions + 2 + size.now.shards ≤ callers_of board.now }
        requires some { 1 ≤ size.now.shards }
        requires flusher { IsFlusherOf FitsShard CoreShardStands ShardAnswerSays
            (P.opening caller.old) (P.number caller.old) (size.now.sessions + 1) size.now.shards }
        requires mails { AreShardMails FitsShard CoreShardStands ShardAnswerSays
            (P.opening caller.old) (size.now.sessions + 1) size.now.shards (2 + size.now.shards) }
        requires serves { AlwaysOpenForRounds (P.opening caller.old) }
        requires between { KnowsBetween FitsShard CoreShardStands ShardAnswerSays
            (P.opening caller.old) (P.number caller.old) (size.now.sessions + 1) false
            (P.own caller.old) }
        requires kept { HasKeptSince FitsShard CoreShardStands ShardAnswerSays
            (P.opening caller.old) (P.number caller.old) (size.now.sessions + 1)
            (KeepsOfRun D.view) self.old (P.own caller.old) }
        ensures board { P.calls_on board.now caller.new }
        ensures opening { P.opening caller.new ≡ P.opening caller.old }
        ensures number { P.number caller.new ≡ P.number caller.old }
        ensures others { P.others caller.new ≡ P.others caller.old }
        ensures more { HasMore (P.own caller.old) (P.own caller.new) }
        ensures learns { LearnsOfOwnRound FitsShard CoreShardStands ShardAnswerSays
            (P.opening caller.old) (P.number caller.old) (size.now.sessions + 1) result
            (P.own caller.old) (P.own caller.new) }
        ensures between { KnowsBetween FitsShard CoreShardStands ShardAnswerSays
            (P.opening caller.new) (P.number caller.new) (size.now.sessions + 1)
            (loses_store result) (P.own caller.new) }
        ensures kept { GoesOnKeeping FitsShard CoreShardStands ShardAnswerSays
            (P.opening caller.old) (P.number caller.old) (size.now.sessions + 1)
            (KeepsOfRun D.view) self.old self.new (P.own caller.old) (P.own caller.new) }
        ensures ends { (kept : Kept) × EndsAs D.view (IsRoundOfRuns (P.opening caller.new)
            (P.number caller.new) (size.now.sessions + 1) (P.own caller.new)) result kept self.old
            self.new }
    {
        match open_round(rt, board, caller, size) {
            None => RoundResult::NoMemory,
            Some(RoundAnswer::Nothing { epoch }) => RoundResult::Idle(epoch),
            Some(RoundAnswer::Target { from, epoch }) => {
                let whole = self.store.wants_whole();
                let span = RoundSpan { from, epoch, whole };
                result_of_end(epoch, self.keep_and_close(rt, board, caller, size, span))
            }
        }
    }
}
