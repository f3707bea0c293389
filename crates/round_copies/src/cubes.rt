//! The cubes that a store has not yet.
ghost use Rattle.std.specs.Prelude.{◌≡◌, ◌+◌, ◌<◌, ◌≤◌, ◌^◌, ℕ, List, [], ◌∷◌, ◌++◌, length, IfOk};
ghost use Rattle.core_program.specs.ClientCalls.{desk_entry};
ghost use Rattle.core_cells.specs.declared.desk.DeskAnswer.TheVariants as answer;
ghost use Rattle.core_cells.specs.declared.desk.DeskCall.TheVariants as call;
ghost use Rattle.core_program.specs.Flushing.{IsFlusherOf};
ghost use Rattle.job_groups.specs.AskedEach.{HasMore};
ghost use Rattle.joined_copies.specs.JoinedCopies.{ShardCopy};
ghost use Rattle.linked_shards.specs.CellShards.{CoreShardStands};
ghost use Rattle.round_copies.specs.RoundCopies.{HasCubes, HasRows, IsToldOf, IsWithin};
ghost use Rattle.round_copies.specs.WithinRounds.{HasHistory, KnowsOfFlusher, StaysWithinRound};
ghost use Rattle.shard_events.specs.ShardsInRuns.{FitsShard, ShardAnswerSays};

use crate::answers::cubes_in;
use crate::calls::ask_desk;
use crate::span::RoundSpan;
use aosi_desk::Decls;
use board_callers::CellCaller;
use core_cells::DeskCall;
use core_program::the_flusher_is_a_client;
use linked_shards::{CoreShard, ShardCells};
use std::alloc::AllocError;
use std::sync::Wait;
use turn_board::Board;

/// The cubes from a place on, once the rows of each shard are copied. The flusher was told of as many
/// cubes as stand before. It is an error where the desk is out of memory.
pub(crate) fn copy_cubes<R: Wait, P: CellCaller<ShardCells>>(
    rt: &R,
    board: &Board<ShardCells>,
    caller: &mut P,
    client: u32,
    span: RoundSpan,
    place: u32,
) -> Result<Decls, AllocError>
    requires board { P.calls_on board.now caller.old }
    requires flusher { (shards : ℕ) × IsFlusherOf FitsShard CoreShardStands ShardAnswerSays
        (P.opening caller.old) (P.number caller.old) client shards }
    requires rows { (copies : List ShardCopy) × KnowsOfFlusher (P.opening caller.old)
        (P.number caller.old) client (P.own caller.old) (HasRows span copies) }
    requires told { (counts : List (List ℕ)) × KnowsOfFlusher (P.opening caller.old)
        (P.number caller.old) client (P.own caller.old) (λ o k. IsToldOf place counts k) }
    ensures board { P.calls_on board.now caller.new }
    ensures opening { P.opening caller.new ≡ P.opening caller.old }
    ensures number { P.number caller.new ≡ P.number caller.old }
    ensures others { P.others caller.new ≡ P.others caller.old }
    ensures more { HasMore (P.own caller.old) (P.own caller.new) }
    ensures within { StaysWithinRound (P.opening caller.new) (P.number caller.new) client
        (P.own caller.old) (P.own caller.new) }
    ensures history { HasHistory (P.opening caller.new) (P.number caller.new) (P.own caller.new) }
    ensures listed { IfOk result (λ made. P.own caller.new ≡ P.own caller.old
        ++ desk_entry (P.number caller.new) (call.CubesFrom place) (answer.Cubes made) ∷ []) }
    ensures copied { IfOk result (λ made. (copies : List ShardCopy) (counts : List (List ℕ))
        → KnowsOfFlusher (P.opening caller.old) (P.number caller.old) client (P.own caller.old)
        (HasRows span copies) → KnowsOfFlusher (P.opening caller.old) (P.number caller.old) client
        (P.own caller.old) (λ o k. IsToldOf place counts k)
        → KnowsOfFlusher (P.opening caller.new) (P.number caller.new) client (P.own caller.new)
        (HasCubes span copies (place + length made) counts)) }
    ensures open { KnowsOfFlusher (P.opening caller.new) (P.number caller.new) client
        (P.own caller.new) (IsWithin span) }
{
    the_flusher_is_a_client::<CoreShard>();
    let list = DeskCall::CubesFrom { place };
    let said = ask_desk(rt, board, caller, client, list);
    cubes_in(said).ok_or(AllocError)
}
