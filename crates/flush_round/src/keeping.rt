//! A round that is open is copied and added to the store.
ghost use Rattle.std.specs.Prelude.{◌≡◌, ◌⊎◌, ◌+◌, ◌≤◌, true, false, length, IsErrOf, OnOk};
ghost use Rattle.aosi_desk.specs.declared.answer.RoundEnd.TheVariants as end;
ghost use Rattle.core_program.specs.Flushing.{IsFlusherOf};
ghost use Rattle.cube_journal.specs.declared.journal_entry.LostCause.TheVariants as cause;
ghost use Rattle.cube_rounds.specs.Stands.{Kept};
ghost use Rattle.cube_values.specs.declared.call_error.CallError.TheVariants.{NoMemory};
ghost use Rattle.cube_values.specs.Faults.{IfFault};
ghost use Rattle.flush_round.specs.KeptRounds.{HoldsAfterEnd, KeepsEither, TakesRound, counts_before, end_of, shapes_before};
ghost use Rattle.following_rounds.specs.FollowingRounds.{IsStorableRound};
ghost use Rattle.job_groups.specs.AskedEach.{AreShardMails, HasMore};
ghost use Rattle.linked_shards.specs.CellShards.{CoreShardStands};
ghost use Rattle.outside.specs.Counts.{Rose};
ghost use Rattle.round_copies.specs.RoundCopies.{HasOpened, IsToldOf, IsWithin};
ghost use Rattle.round_copies.specs.WithinRounds.{KnowsOfFlusher, StaysWithinRound};
ghost use Rattle.round_store.specs.States.{IsAt, MayFollowKept, goes_second, kept_after, kept_before};
ghost use Rattle.shard_events.specs.ShardsInRuns.{FitsShard, ShardAnswerSays};
ghost use Rattle.turn_board.specs.Passes.{callers_of};

use crate::behind::{counts_before, shapes_before};
use aosi_desk::RoundEnd;
use board_callers::CellCaller;
use core_program::CoreSize;
use cube_journal::LostCause;
use cube_rounds::Round;
use cube_values::CallError;
use linked_shards::ShardCells;
use outside_disk::{Disk, Failed};
use round_copies::{RoundSpan, copy_round};
use round_store::Store;
use std::alloc::Global;
use std::sync::Wait;
use storable_rounds::is_storable;
use turn_board::Board;

// How a round ends that was added so.
fn end_of(added: Result<(), CallError<Failed>>) -> RoundEnd
    ensures { result ≡ end_of added }
{
    match added {
        Ok(()) => RoundEnd::Safe,
        Err(CallError::NoMemory) => RoundEnd::Lost(LostCause::Memory),
        Err(CallError::Fault(_)) => RoundEnd::Lost(LostCause::Disk),
    }
}

// Adds a round that may follow if a store has bytes for it. An epoch for which it has none counts as
// want of memory.
fn add_copied<D: Disk>(
    store: &mut Store,
    disk: &mut D,
    other: &mut D,
    round: &Round,
) -> Result<(), CallError<Failed>>
    requires { (kept : Kept) × IsAt store.old kept (D.view disk.old) (D.view other.old)
        × (IsStorableRound round.now → MayFollowKept (kept_before store.old kept) round.now) }
    ensures first_still { goes_second store.old ≡ true → disk.new ≡ disk.old }
    ensures second_still { goes_second store.old ≡ false → other.new ≡ other.old }
    ensures either { (kept : Kept) → IsAt store.old kept (D.view disk.old) (D.view other.old)
        → (IsStorableRound round.now → MayFollowKept (kept_before store.old kept) round.now)
        → (IsErrOf result NoMemory → ⊥)
        → KeepsEither store.old kept round.now (D.view disk.old) (D.view other.old)
        (D.view disk.new) (D.view other.new) }
    ensures added { (kept : Kept) → IsAt store.old kept (D.view disk.old) (D.view other.old)
        → (IsStorableRound round.now → MayFollowKept (kept_before store.old kept) round.now)
        → OnOk result (IsAt store.new (kept_after store.old kept round.now)
        (D.view disk.new) (D.view other.new)) }
    ensures memory { IsErrOf result NoMemory → (store.new ≡ store.old)
        × (disk.new ≡ disk.old) × (other.new ≡ other.old) }
    ensures failed { IfFault result (λ f.
        Rose (D.view disk.old).faults (D.view disk.new).faults
        ⊎ Rose (D.view other.old).faults (D.view other.new).faults) }
    ensures first_count { (D.view disk.old).faults ≤ (D.view disk.new).faults }
    ensures second_count { (D.view other.old).faults ≤ (D.view other.new).faults }
{
    if is_storable(round) {
        store.add_round(disk, other, round)
    } else {
        Err(CallError::NoMemory)
    }
}

/// Copies the open round, all of it where the store wants a whole one, and adds it to the store.
pub fn keep_round<R: Wait, P: CellCaller<ShardCells>, D: Disk>(
    rt: &R,
    board: &Board<ShardCells>,
    caller: &mut P,
    size: &CoreSize,
    client: u32,
    span: RoundSpan,
    store: &mut Store,
    disk: &mut D,
    other: &mut D,
    alloc: Global,
) -> RoundEnd
    requires board { P.calls_on board.now caller.old }
    requires callers { size.now.sessions + 2 + size.now.shards ≤ callers_of board.now }
    requires some { 1 ≤ size.now.shards }
    requires flusher { IsFlusherOf FitsShard CoreShardStands ShardAnswerSays
        (P.opening caller.old) (P.number caller.old) client size.now.shards }
    requires mails { AreShardMails FitsShard CoreShardStands ShardAnswerSays (P.opening caller.old)
        client size.now.shards (2 + size.now.shards) }
    requires round { KnowsOfFlusher (P.opening caller.old) (P.number caller.old) client
        (P.own caller.old) (HasOpened span) }
    requires told { KnowsOfFlusher (P.opening caller.old) (P.number caller.old) client
        (P.own caller.old)
        (λ o k. IsToldOf (length (shapes_before store.old)) (counts_before store.old) k) }
    requires ready { (kept : Kept) × TakesRound (P.opening caller.old) (P.number caller.old)
        (P.own caller.old) store.old kept span (D.view disk.old) (D.view other.old) }
    ensures board { P.calls_on board.now caller.new }
    ensures opening { P.opening caller.new ≡ P.opening caller.old }
    ensures number { P.number caller.new ≡ P.number caller.old }
    ensures others { P.others caller.new ≡ P.others caller.old }
    ensures more { HasMore (P.own caller.old) (P.own caller.new) }
    ensures within { StaysWithinRound (P.opening caller.new) (P.number caller.new) client
        (P.own caller.old) (P.own caller.new) }
    ensures open { KnowsOfFlusher (P.opening caller.new) (P.number caller.new) client
        (P.own caller.new) (IsWithin span) }
    ensures first_still { goes_second store.old ≡ true → disk.new ≡ disk.old }
    ensures second_still { goes_second store.old ≡ false → other.new ≡ other.old }
    ensures memory { result ≡ end.Lost cause.Memory → (store.new ≡ store.old)
        × (disk.new ≡ disk.old) × (other.new ≡ other.old) }
    ensures failed { result ≡ end.Lost cause.Disk
        → Rose (D.view disk.old).faults (D.view disk.new).faults
        ⊎ Rose (D.view other.old).faults (D.view other.new).faults }
    ensures first_count { (D.view disk.old).faults ≤ (D.view disk.new).faults }
    ensures second_count { (D.view other.old).faults ≤ (D.view other.new).faults }
    ensures kept { (kept : Kept) → TakesRound (P.opening caller.old) (P.number caller.old)
        (P.own caller.old) store.old kept span (D.view disk.old) (D.view other.old)
        → HoldsAfterEnd (P.opening caller.new) (P.number caller.new) client (P.own caller.old)
        (P.own caller.new) store.old store.new kept span (D.view disk.old) (D.view other.old)
        (D.view disk.new) (D.view other.new) result }
{
    let shapes = shapes_before(store);
    let counts = counts_before(store);
    match copy_round(rt, board, caller, size, client, span, shapes, counts, alloc) {
        Ok(round) => end_of(add_copied(store, disk, other, &round)),
        Err(_) => RoundEnd::Lost(LostCause::Memory),
    }
}
