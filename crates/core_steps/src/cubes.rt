//! A session looks for its cube.
ghost use Rattle.std.specs.Prelude.{◌≡◌, IfSome, Option};
ghost use Rattle.aosi_desk.specs.declared.cube.CubeFound.TheVariants.{Found};
ghost use Rattle.core_steps.specs.OnCore.{IsOnCore, KnowsCubeOnCore};
ghost use Rattle.cube_values.specs.declared.snapshot.Snapshot.{Snapshot};
ghost use Rattle.session_snapshots.specs.KnownHolds.{HoldsReady, HoldsTheSame};
ghost use Rattle.linked_shards.specs.CellShards.{CoreShardStands};
ghost use Rattle.shard_events.specs.ShardsInRuns.{FitsShard, ShardAnswerSays};

use aosi_desk::CubeFound;
use board_callers::CellCaller;
use core_program::CoreSize;
use cube_schema::{Schema, check};
use cube_values::Text;
use linked_shards::ShardCells;
use session_snapshots::find_cube;
use std::alloc::Global;
use std::sync::Wait;
use turn_board::Board;

/// A cube that a session was told of: its place among the cubes, and its declaration.
#[derive(Drop)]
pub struct ToldCube {
    pub place: u32,
    pub schema: Schema,
}

/// Looks for a cube by its name, whatever the session holds, which it then still does. None: there is no
/// such cube, or memory ran out.
pub(crate) fn look_for<R: Wait, P: CellCaller<ShardCells>>(
    rt: &R,
    board: &Board<ShardCells>,
    caller: &mut P,
    size: &CoreSize,
    session: u32,
    name: &str,
    alloc: Global,
) -> Option<ToldCube>
    requires board { P.calls_on board.now caller.old }
    requires on_core { IsOnCore size.now.shards (P.opening caller.old) (P.number caller.old)
        session }
    requires ready { (held : Option Snapshot) × HoldsReady FitsShard CoreShardStands
        ShardAnswerSays (P.opening caller.old) (P.number caller.old) session (P.own caller.old)
        held }
    ensures board { P.calls_on board.now caller.new }
    ensures on_core { IsOnCore size.now.shards (P.opening caller.new) (P.number caller.new)
        session }
    ensures knows { IfSome result (λ cube. KnowsCubeOnCore size.now.shards cube.place cube.schema
        (P.opening caller.new) (P.number caller.new) session (P.own caller.new)) }
    ensures same { IfSome result (λ _. HoldsTheSame FitsShard CoreShardStands ShardAnswerSays
        session (P.opening caller.old) (P.number caller.old) (P.own caller.old)
        (P.opening caller.new) (P.number caller.new) (P.own caller.new)) }
{
    let text = Text::new(alloc, name).ok()?;
    let found = find_cube(rt, board, caller, session, 0, text)?;
    told_cube(alloc, found)
}

// The cube that was found.
fn told_cube(alloc: Global, found: CubeFound) -> Option<ToldCube>
    ensures { IfSome result (λ cube. found ≡ Found cube.place cube.schema) }
{
    match found {
        CubeFound::Found { place, decl } => match check(alloc, &decl) {
            Ok(schema) => Some(ToldCube { place, schema }),
            Err(_) => None,
        },
        CubeFound::Unknown => None,
    }
}
