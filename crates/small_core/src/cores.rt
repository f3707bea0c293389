//! A core of two shards and three sessions on a board, and a pass for each of its callers.
ghost use Rattle.std.specs.Prelude.{◌≡◌, ◌<◌, IfSome, suc};
ghost use Rattle.small_core.specs.Openings.{AreCellsOfCore, IsNewCaller};
ghost use Rattle.kept_data.specs.KeptFiles.{IsKeptByFile};
ghost use Rattle.turn_board.specs.Hands.{new_hands};
ghost use Rattle.turn_board.specs.Passes.{IsPassOf, callers_of, hands_of, opening_of};

use cube_schema::read_cubes;
use cube_values::Sequence;
use kept_data::kept_data_are_sound;
use linked_shards::ShardCells;
use opened_core::opening_cells;
use std::alloc::Global;
use std::sync::Wait;
use store_reading::Kept;
use turn_board::{Board, NoMemory, Pass};

/// How many shards the core has.
pub const SHARDS: u32 = 2;

/// How many sessions it has.
pub const SESSIONS: u32 = 3;

// What a store keeps of the cubes of a text before its first round.
fn kept_of_text(alloc: Global, text: &str) -> Option<Kept>
    ensures by_file { IfSome result IsKeptByFile }
    ensures begins { IfSome result (λ kept. kept.epoch ≡ 0) }
{
    kept_data_are_sound();
    match read_cubes(alloc, text.as_bytes()) {
        Ok(cubes) => match Kept::of_cubes(alloc, Sequence::from_vec(cubes)) {
            Ok(kept) => Some(kept),
            Err(_) => None,
        },
        Err(_) => None,
    }
}

/// The callers of a core, by what they are.
pub struct CoreCallers {
    pub main: Pass<ShardCells>,
    pub first: Pass<ShardCells>,
    pub second: Pass<ShardCells>,
    pub third: Pass<ShardCells>,
    pub worker: Pass<ShardCells>,
    pub other_worker: Pass<ShardCells>,
    pub flusher: Pass<ShardCells>,
}

/// A core on a board, and its callers.
pub struct CoreOnBoard {
    pub board: Board<ShardCells>,
    pub callers: CoreCallers,
}

// A core over the cubes of a text, without rows, on a board, and the pass of all its callers.
fn core_with_pass(alloc: Global, text: &str) -> Option<(Board<ShardCells>, Pass<ShardCells>)>
    ensures cells { IfSome result (λ r. AreCellsOfCore 2 3 (opening_of r.0)) }
    ensures callers { IfSome result (λ r. callers_of r.0 ≡ 7) }
    ensures pass { IfSome result (λ r. IsPassOf r.0 r.1) }
    ensures hands { IfSome result (λ r. hands_of r.1 ≡ new_hands 0 7) }
{
    let kept = kept_of_text(alloc, text)?;
    match opening_cells(alloc, &kept, SHARDS, SESSIONS) {
        Ok(cells) => match Board::<ShardCells>::new(alloc, cells, 7) {
            Ok(made) => Some(made),
            Err(NoMemory { cells: _ }) => None,
        },
        Err(_) => None,
    }
}

// The last of the callers of a pass, which has so many before it.
fn last_caller(
    board: &Board<ShardCells>,
    pass: &mut Pass<ShardCells>,
    _before: u32,
) -> Pass<ShardCells>
    requires cells { AreCellsOfCore 2 3 (opening_of board.now) }
    requires pass { IsPassOf board.now pass.old }
    requires hands { hands_of pass.old ≡ new_hands 0 (suc _before) }
    requires some { 0 < _before }
    ensures pass { IsPassOf board.now pass.new }
    ensures hands { hands_of pass.new ≡ new_hands 0 _before }
    ensures last { IsNewCaller board.now _before result }
{
    board.split(pass, 1)
}

// The first caller of a pass, which has no other.
fn only_caller(_board: &Board<ShardCells>, pass: Pass<ShardCells>) -> Pass<ShardCells>
    requires cells { AreCellsOfCore 2 3 (opening_of _board.now) }
    requires pass { IsPassOf _board.now pass }
    requires hands { hands_of pass ≡ new_hands 0 1 }
    ensures { IsNewCaller _board.now 0 result }
{
    pass
}

// A pass for each caller.
fn split_callers(board: &Board<ShardCells>, pass: Pass<ShardCells>) -> CoreCallers
    requires cells { AreCellsOfCore 2 3 (opening_of board.now) }
    requires pass { IsPassOf board.now pass }
    requires hands { hands_of pass ≡ new_hands 0 7 }
    ensures main { IsNewCaller board.now 0 result.main }
    ensures first { IsNewCaller board.now 1 result.first }
    ensures second { IsNewCaller board.now 2 result.second }
    ensures third { IsNewCaller board.now 3 result.third }
    ensures worker { IsNewCaller board.now 4 result.worker }
    ensures other_worker { IsNewCaller board.now 5 result.other_worker }
    ensures flusher { IsNewCaller board.now 6 result.flusher }
{
    let mut main = pass;
    let flusher = last_caller(board, &mut main, 6);
    let other_worker = last_caller(board, &mut main, 5);
    let worker = last_caller(board, &mut main, 4);
    let third = last_caller(board, &mut main, 3);
    let second = last_caller(board, &mut main, 2);
    let first = last_caller(board, &mut main, 1);
    CoreCallers {
        main: only_caller(board, main),
        first,
        second,
        third,
        worker,
        other_worker,
        flusher,
    }
}

/// A core over the cubes of a text, without rows, on a board, and its callers, none of which has made a call.
/// None: the text declares no cubes, or memory ran out.
pub fn core_on_board(alloc: Global, text: &str) -> Option<CoreOnBoard>
    ensures board { IfSome result (λ core. callers_of core.board ≡ 7) }
    ensures main { IfSome result (λ core. IsNewCaller core.board 0 core.callers.main) }
    ensures first { IfSome result (λ core. IsNewCaller core.board 1 core.callers.first) }
    ensures second { IfSome result (λ core. IsNewCaller core.board 2 core.callers.second) }
    ensures third { IfSome result (λ core. IsNewCaller core.board 3 core.callers.third) }
    ensures worker { IfSome result (λ core. IsNewCaller core.board 4 core.callers.worker) }
    ensures other_worker { IfSome result
        (λ core. IsNewCaller core.board 5 core.callers.other_worker) }
    ensures flusher { IfSome result (λ core. IsNewCaller core.board 6 core.callers.flusher) }
{
    let (board, pass) = core_with_pass(alloc, text)?;
    let callers = split_callers(&board, pass);
    Some(CoreOnBoard { board, callers })
}

/// Ends the core, once all its callers are given back.
pub fn end_core<R: Wait>(rt: &R, board: Board<ShardCells>, callers: CoreCallers)
    requires main { IsPassOf board callers.main }
    requires first { IsPassOf board callers.first }
    requires second { IsPassOf board callers.second }
    requires third { IsPassOf board callers.third }
    requires worker { IsPassOf board callers.worker }
    requires other_worker { IsPassOf board callers.other_worker }
    requires flusher { IsPassOf board callers.flusher }
{
    let CoreCallers {
        main,
        first,
        second,
        third,
        worker,
        other_worker,
        flusher,
    } = callers;
    let mut all = main;
    board.gather(&mut all, first);
    board.gather(&mut all, second);
    board.gather(&mut all, third);
    board.gather(&mut all, worker);
    board.gather(&mut all, other_worker);
    board.gather(&mut all, flusher);
    board.shut(rt, all);
}
