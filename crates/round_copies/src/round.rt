//! All that a round has.
ghost use Rattle.std.specs.Prelude.{◌≡◌, ◌+◌, ◌≤◌, length, IfOk, OnOk};
ghost use Rattle.core_program.specs.Flushing.{IsFlusherOf};
ghost use Rattle.job_groups.specs.AskedEach.{AreShardMails, HasMore};
ghost use Rattle.linked_shards.specs.CellShards.{CoreShardStands};
ghost use Rattle.round_copies.specs.RoundCopies.{AreCubesOfRound, HasOpened, IsCopiedRound, IsRoundOfCopies, IsToldOf, IsWithin};
ghost use Rattle.round_copies.specs.WithinRounds.{HasHistory, KnowsOfFlusher, StaysWithinRound};
ghost use Rattle.shard_events.specs.ShardsInRuns.{FitsShard, ShardAnswerSays};
ghost use Rattle.turn_board.specs.Passes.{callers_of};

use crate::cubes::copy_cubes;
use crate::names::copy_names;
use crate::rows::copy_rows;
use crate::span::RoundSpan;
use crate::texts::short_count;
use aosi_desk::Decls;
use board_callers::CellCaller;
use core_program::CoreSize;
use cube_rounds::{Round, RoundBrickList, RoundBricks, RoundCube, RoundCubes};
use cube_values::{CubeShape, Sequence, TextLists};
use joined_copies::join_copies;
use linked_shards::ShardCells;
use std::alloc::{AllocError, Global};
use std::sync::Wait;
use turn_board::Board;

// Each cube's names with its bricks.
fn cubes_of(
    alloc: Global,
    names: Vec<TextLists>,
    bricks: Vec<RoundBrickList>,
) -> Result<RoundCubes, AllocError>
    requires { length names.items ≡ length bricks.items }
    ensures { IfOk result (AreCubesOfRound names.items bricks.items) }
{
    let count = names.len();
    let mut names = names;
    let mut bricks = bricks;
    let mut cubes = Vec::with_capacity(alloc, count)?;
    'cubes: for _ in 0..count {
        cubes.push_reserved(RoundCube {
            names: names.remove(0),
            bricks: bricks.remove(0),
        });
    }
    Ok(Sequence::from_vec(cubes))
}

// A round of what was copied.
fn round_of(
    alloc: Global,
    span: RoundSpan,
    copies: Vec<RoundBricks>,
    made: Decls,
    names: Vec<TextLists>,
) -> Result<Round, AllocError>
    requires { 1 ≤ length copies.items }
    ensures { IfOk result (IsRoundOfCopies span copies.items made names.items) }
{
    let bricks = join_copies(alloc, copies, names.len())?;
    let cubes = cubes_of(alloc, names, bricks)?;
    Ok(Round {
        from: span.first_epoch(),
        epoch: span.epoch,
        made,
        cubes,
    })
}

/// Copies for a round that the flusher has opened: the rows of each shard, then the cubes behind those
/// of a store, then the names behind those that the store has. The store has cubes of these shapes and
/// so many names, of which the flusher was told. It is an error where this thread, a shard, the desk or
/// the dictionaries are out of memory. Either way the round is open then, and no answer is out.
pub fn copy_round<R: Wait, P: CellCaller<ShardCells>>(
    rt: &R,
    board: &Board<ShardCells>,
    caller: &mut P,
    size: &CoreSize,
    client: u32,
    span: RoundSpan,
    shapes: &[CubeShape],
    counts: &[Sequence<u64>],
    alloc: Global,
) -> Result<Round, AllocError>
    requires board { P.calls_on board.now caller.old }
    requires callers { size.now.sessions + 2 + size.now.shards ≤ callers_of board.now }
    requires some { 1 ≤ size.now.shards }
    requires flusher { IsFlusherOf FitsShard CoreShardStands ShardAnswerSays
        (P.opening caller.old) (P.number caller.old) client size.now.shards }
    requires mails { AreShardMails FitsShard CoreShardStands ShardAnswerSays (P.opening caller.old)
        client size.now.shards (2 + size.now.shards) }
    requires round { KnowsOfFlusher (P.opening caller.old) (P.number caller.old) client
        (P.own caller.old) (HasOpened span) }
    requires told { KnowsOfFlusher (P.opening caller.old) (P.number caller.old) client
        (P.own caller.old) (λ o k. IsToldOf (length shapes.now) counts.now k) }
    ensures board { P.calls_on board.now caller.new }
    ensures opening { P.opening caller.new ≡ P.opening caller.old }
    ensures number { P.number caller.new ≡ P.number caller.old }
    ensures others { P.others caller.new ≡ P.others caller.old }
    ensures more { HasMore (P.own caller.old) (P.own caller.new) }
    ensures within { StaysWithinRound (P.opening caller.new) (P.number caller.new) client
        (P.own caller.old) (P.own caller.new) }
    ensures history { OnOk result (HasHistory (P.opening caller.new) (P.number caller.new)
        (P.own caller.new)) }
    ensures copied { IfOk result (IsCopiedRound (P.opening caller.new) (P.number caller.new) client
        (P.own caller.old) (P.own caller.new) span shapes.now counts.now) }
    ensures open { KnowsOfFlusher (P.opening caller.new) (P.number caller.new) client
        (P.own caller.new) (IsWithin span) }
{
    let place = short_count(shapes.len())?;
    let copies = copy_rows(rt, board, caller, size, client, span, alloc)?;
    let made = copy_cubes(rt, board, caller, client, span, place)?;
    let cubes = made.as_slice();
    let names = copy_names(
        rt, board, caller, client, span, shapes, cubes, counts, alloc,
    )?;
    round_of(alloc, span, copies, made, names)
}
