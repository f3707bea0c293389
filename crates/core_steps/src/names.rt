//! A session inserts a row by a name of a text dimension, and looks for names.
ghost use Rattle.std.specs.Prelude.{◌≡◌, ◌+◌, ◌≤◌, ◌∷◌, ◌++◌, [], IsTrue, IfSome};
ghost use Rattle.core_program.specs.ClientCalls.{names_entry};
ghost use Rattle.core_cells.specs.declared.names.NamesAnswer.TheVariants as answer;
ghost use Rattle.core_program.specs.Knowing.{Knows, MayCallNames};
ghost use Rattle.core_steps.specs.OnCore.{IsOnCore, IsToldOfCode, IsToldOfNumber, KnowsCubeOnCore};
ghost use Rattle.cube_schema.specs.Schemas.{cube_of};
ghost use Rattle.cube_values.specs.Shapes.{IsSoundCube};
ghost use Rattle.session_snapshots.specs.KnownHolds.{HoldsNothing, HoldsTheSame, HoldsWriter};
ghost use Rattle.linked_shards.specs.CellShards.{CoreShardStands};
ghost use Rattle.names_dict.specs.Dictionaries.{IsTextDimension};
ghost use Rattle.shard_events.specs.ShardsInRuns.{FitsShard, ShardAnswerSays};
ghost use Rattle.turn_board.specs.Passes.{callers_of};

use crate::cubes::{ToldCube, look_for};
use crate::rows::one_row;
use crate::transactions::{begin, commit_writer};
use crate::writes::put_batch;
use board_callers::CellCaller;
use core_cells::{NamesAnswer, NamesCall};
use core_program::{CoreSize, call_names_cell};
use cube_values::{SharedShape, Snapshot, Text};
use known_cubes::{clients_know_names_they_were_told_of, sessions_may_ask_names_of_told_cubes};
use linked_shards::{CoreShard, ShardCells};
use names_dict::Code;
use std::alloc::Global;
use std::sync::Wait;
use turn_board::Board;

/// What came of a name that was inserted.
#[derive(Clone, Copy)]
pub enum NameAdded {
    /// The row is stored, at an epoch.
    Stored { epoch: u64 },
    /// The dictionary has as many names as it may have, and not this one.
    DictionaryFull,
}

// The shape of a cube.
fn shape_of_cube(cube: &ToldCube) -> Option<SharedShape>
    ensures value { IfSome result (λ shape. shape ≡ cube_of cube.now.schema) }
    ensures sound { IfSome result IsSoundCube }
{
    cube.schema.shared_shape().share().ok()
}

// Whether the first dimension has texts.
fn begins_with_texts(shape: &SharedShape) -> bool
    ensures { IsTrue result → IsTextDimension shape.now 0 }
{
    let [text, ..] = shape.shape().texts.as_slice() else {
        return false;
    };
    *text
}

// The code of a name, None where the names were out of memory.
fn code_in(said: NamesAnswer) -> Option<Code>
    ensures { IfSome result (λ code. said ≡ answer.Coded code) }
{
    match said {
        NamesAnswer::Coded(code) => Some(code),
        _ => None,
    }
}

// The number of a name, None where the answer is no such.
fn number_in(said: NamesAnswer) -> Option<Option<u32>> {
    match said {
        NamesAnswer::Found(number) => Some(number),
        _ => None,
    }
}

// Makes a call on the names.
fn ask_names<R: Wait, P: CellCaller<ShardCells>>(
    rt: &R,
    board: &Board<ShardCells>,
    caller: &mut P,
    size: &CoreSize,
    session: u32,
    call: NamesCall,
) -> NamesAnswer
    requires board { P.calls_on board.now caller.old }
    requires on_core { IsOnCore size.now.shards (P.opening caller.old) (P.number caller.old)
        session }
    requires may { Knows FitsShard CoreShardStands ShardAnswerSays (P.opening caller.old)
        (P.number caller.old) session (P.own caller.old) (MayCallNames session call) }
    ensures board { P.calls_on board.now caller.new }
    ensures on_core { IsOnCore size.now.shards (P.opening caller.new) (P.number caller.new)
        session }
    ensures number { P.number caller.new ≡ P.number caller.old }
    ensures opening { P.opening caller.new ≡ P.opening caller.old }
    ensures own { P.own caller.new ≡ P.own caller.old
        ++ names_entry (P.number caller.old) call result ∷ [] }
    ensures same { HoldsTheSame FitsShard CoreShardStands ShardAnswerSays session
        (P.opening caller.old) (P.number caller.old) (P.own caller.old) (P.opening caller.new)
        (P.number caller.new) (P.own caller.new) }
{
    call_names_cell(rt, board, caller, session, call)
}

// Encodes a name in the first dimension of a cube. None: that has no texts, the name is too long, or
// memory ran out.
fn encode_name<R: Wait, P: CellCaller<ShardCells>>(
    rt: &R,
    board: &Board<ShardCells>,
    caller: &mut P,
    size: &CoreSize,
    session: u32,
    cube: &ToldCube,
    name: &str,
    alloc: Global,
) -> Option<Code>
    requires board { P.calls_on board.now caller.old }
    requires on_core { IsOnCore size.now.shards (P.opening caller.old) (P.number caller.old)
        session }
    requires knows { KnowsCubeOnCore size.now.shards cube.now.place cube.now.schema
        (P.opening caller.old) (P.number caller.old) session (P.own caller.old) }
    requires holds { HoldsNothing FitsShard CoreShardStands ShardAnswerSays (P.opening caller.old)
        (P.number caller.old) session (P.own caller.old) }
    ensures board { P.calls_on board.now caller.new }
    ensures on_core { IsOnCore size.now.shards (P.opening caller.new) (P.number caller.new)
        session }
    ensures knows { IfSome result (λ _. KnowsCubeOnCore size.now.shards cube.now.place
        cube.now.schema (P.opening caller.new) (P.number caller.new) session (P.own caller.new)) }
    ensures holds { IfSome result (λ _. HoldsNothing FitsShard CoreShardStands ShardAnswerSays
        (P.opening caller.new) (P.number caller.new) session (P.own caller.new)) }
    ensures told { IfSome result (λ code. IsToldOfCode (P.own caller.new) cube.now.place code) }
{
    sessions_may_ask_names_of_told_cubes::<CoreShard>();
    let shape = shape_of_cube(cube)?;
    if !begins_with_texts(&shape) {
        return None;
    }
    if name.len() > 255 {
        return None;
    }
    let name = Text::new(alloc, name).ok()?;
    let encode = NamesCall::Encode {
        cube: cube.place,
        dim: 0,
        shape,
        name,
    };
    let code = code_in(ask_names(rt, board, caller, size, session, encode))?;
    Some(code)
}

// Puts the row of a name by its number, with 1 as its metric, in a transaction of its own, and gives the epoch.
fn store_named<R: Wait, P: CellCaller<ShardCells>>(
    rt: &R,
    board: &Board<ShardCells>,
    caller: &mut P,
    size: &CoreSize,
    session: u32,
    cube: &ToldCube,
    number: u32,
    alloc: Global,
) -> Option<u64>
    requires board { P.calls_on board.now caller.old }
    requires callers { size.now.sessions + 2 + size.now.shards ≤ callers_of board.now }
    requires some { 1 ≤ size.now.shards }
    requires on_core { IsOnCore size.now.shards (P.opening caller.old) (P.number caller.old)
        session }
    requires knows { KnowsCubeOnCore size.now.shards cube.now.place cube.now.schema
        (P.opening caller.old) (P.number caller.old) session (P.own caller.old) }
    requires holds { HoldsNothing FitsShard CoreShardStands ShardAnswerSays (P.opening caller.old)
        (P.number caller.old) session (P.own caller.old) }
    requires told { IsToldOfNumber (P.own caller.old) cube.now.place number }
    ensures board { P.calls_on board.now caller.new }
    ensures on_core { IsOnCore size.now.shards (P.opening caller.new) (P.number caller.new)
        session }
    ensures holds { IfSome result (λ _. HoldsNothing FitsShard CoreShardStands ShardAnswerSays
        (P.opening caller.new) (P.number caller.new) session (P.own caller.new)) }
{
    let writer = begin(rt, board, caller, size, session)?;
    put_named(
        rt, board, caller, size, session, cube, number, &writer, alloc,
    )?;
    Some(commit_writer(rt, board, caller, size, session, writer))
}

// Puts the row of a name by its number.
fn put_named<R: Wait, P: CellCaller<ShardCells>>(
    rt: &R,
    board: &Board<ShardCells>,
    caller: &mut P,
    size: &CoreSize,
    session: u32,
    cube: &ToldCube,
    number: u32,
    writer: &Snapshot,
    alloc: Global,
) -> Option<()>
    requires board { P.calls_on board.now caller.old }
    requires callers { size.now.sessions + 2 + size.now.shards ≤ callers_of board.now }
    requires some { 1 ≤ size.now.shards }
    requires on_core { IsOnCore size.now.shards (P.opening caller.old) (P.number caller.old)
        session }
    requires knows { KnowsCubeOnCore size.now.shards cube.now.place cube.now.schema
        (P.opening caller.old) (P.number caller.old) session (P.own caller.old) }
    requires holds { HoldsWriter FitsShard CoreShardStands ShardAnswerSays (P.opening caller.old)
        (P.number caller.old) session (P.own caller.old) writer.now }
    requires told { IsToldOfNumber (P.own caller.old) cube.now.place number }
    ensures board { P.calls_on board.now caller.new }
    ensures on_core { IsOnCore size.now.shards (P.opening caller.new) (P.number caller.new)
        session }
    ensures holds { IfSome result (λ _. HoldsWriter FitsShard CoreShardStands ShardAnswerSays
        (P.opening caller.new) (P.number caller.new) session (P.own caller.new) writer.now) }
{
    clients_know_names_they_were_told_of::<CoreShard>();
    let shape = cube.schema.shared_shape();
    let rows = one_row(alloc, shape.shape(), &[number], &[1])?;
    put_batch(
        rt, board, caller, size, session, cube.place, shape, rows, writer, alloc,
    )
}

/// Inserts the row of a name, with 1 as its metric, into a cube of one dimension of texts. None: there is no
/// such cube, the row was refused, or memory ran out.
pub(crate) fn insert_named<R: Wait, P: CellCaller<ShardCells>>(
    rt: &R,
    board: &Board<ShardCells>,
    caller: &mut P,
    size: &CoreSize,
    session: u32,
    cube: &str,
    name: &str,
    alloc: Global,
) -> Option<NameAdded>
    requires board { P.calls_on board.now caller.old }
    requires callers { size.now.sessions + 2 + size.now.shards ≤ callers_of board.now }
    requires some { 1 ≤ size.now.shards }
    requires on_core { IsOnCore size.now.shards (P.opening caller.old) (P.number caller.old)
        session }
    requires holds { HoldsNothing FitsShard CoreShardStands ShardAnswerSays (P.opening caller.old)
        (P.number caller.old) session (P.own caller.old) }
    ensures board { P.calls_on board.now caller.new }
    ensures on_core { IsOnCore size.now.shards (P.opening caller.new) (P.number caller.new)
        session }
    ensures holds { IfSome result (λ _. HoldsNothing FitsShard CoreShardStands ShardAnswerSays
        (P.opening caller.new) (P.number caller.new) session (P.own caller.new)) }
{
    let cube = look_for(rt, board, caller, size, session, cube, alloc)?;
    match encode_name(rt, board, caller, size, session, &cube, name, alloc)? {
        Code::Known(number) | Code::Added(number) => {
            let epoch = store_named(rt, board, caller, size, session, &cube, number, alloc)?;
            Some(NameAdded::Stored { epoch })
        }
        Code::Full => Some(NameAdded::DictionaryFull),
    }
}

/// The number of a name in the first dimension of a cube. None: there is no such cube, that dimension has no
/// texts, or memory ran out.
pub(crate) fn find_name<R: Wait, P: CellCaller<ShardCells>>(
    rt: &R,
    board: &Board<ShardCells>,
    caller: &mut P,
    size: &CoreSize,
    session: u32,
    cube: &str,
    name: &str,
    alloc: Global,
) -> Option<Option<u32>>
    requires board { P.calls_on board.now caller.old }
    requires on_core { IsOnCore size.now.shards (P.opening caller.old) (P.number caller.old)
        session }
    requires holds { HoldsNothing FitsShard CoreShardStands ShardAnswerSays (P.opening caller.old)
        (P.number caller.old) session (P.own caller.old) }
    ensures board { P.calls_on board.now caller.new }
    ensures on_core { IsOnCore size.now.shards (P.opening caller.new) (P.number caller.new)
        session }
    ensures holds { IfSome result (λ _. HoldsNothing FitsShard CoreShardStands ShardAnswerSays
        (P.opening caller.new) (P.number caller.new) session (P.own caller.new)) }
{
    sessions_may_ask_names_of_told_cubes::<CoreShard>();
    let cube = look_for(rt, board, caller, size, session, cube, alloc)?;
    let shape = cube.schema.shared_shape();
    if !begins_with_texts(shape) {
        return None;
    }
    let name = Text::new(alloc, name).ok()?;
    let find = NamesCall::Find {
        cube: cube.place,
        dim: 0,
        name,
    };
    let number = number_in(ask_names(rt, board, caller, size, session, find))?;
    Some(number)
}
