//! The names of each dimension of a cube, as a query takes them.

ghost use Rattle.std.specs.Prelude.{◌≡◌, ℕ, List, [], length, map, slice_get, Some, All, IfOk};
ghost use Rattle.std.specs.List.{IsDistinct};
ghost use Rattle.std.specs.Str.{bytes_eq};
ghost use Rattle.condition_spans.specs.Codes.{lists_at};
ghost use Rattle.copied_names.specs.CopiedNames.{AreCopiedBetween, MayCopyCube};
ghost use Rattle.core_names.specs.AskedNames.{GoOnByCopies};
ghost use Rattle.session_snapshots.specs.KnownHolds.{HoldsTheSame};
ghost use Rattle.query_plan.specs.Ties.{AreDistinct};
ghost use Rattle.round_copies.specs.RoundCopies.{AreNamesTold, HasMoreWith, HasNamesTold};

use crate::asking::ask_for_copy;
use board_callers::CellCaller;
use core_names::names_calls_keep_what_is_held;
use core_program::{CoreCells, clients_know_their_runs};
use cube_core::LinkedShard;
use cube_schema::Schema;
use cube_values::{NameLists, TextLists, Texts};
use std::alloc::{AllocError, Global};
use std::sync::Wait;
use turn_board::Board;

// As a number of 32 bits. More items than these can stand for are want of memory.
fn short_count(count: usize) -> Result<u32, AllocError>
    ensures { IfOk result (λ n. n ≡ count) }
{
    u32::try_from(count).ok().ok_or(AllocError)
}

// As many cubes without names.
fn no_names(alloc: Global, count: u32) -> Result<NameLists, AllocError>
    ensures { IfOk result (λ lists. length lists ≡ count) }
{
    let mut lists = NameLists::new(alloc);
    'cubes: for _place in 0..count {
        lists.push(TextLists::new(alloc))?;
    }
    Ok(lists)
}

// The names of a cube, behind as many cubes without names as stand before its place.
fn names_at_place(alloc: Global, place: u32, lists: TextLists) -> Result<NameLists, AllocError>
    ensures { IfOk result (λ names. lists_at names place ≡ lists) }
{
    let mut names = no_names(alloc, place)?;
    names.push(lists)?;
    Ok(names)
}

/// The names of a dimension of the cube that the session was told of. A dimension of numbers has
/// none.
fn copy_dim<S: LinkedShard, R: Wait, P: CellCaller<CoreCells<S>>>(
    rt: &R,
    board: &Board<CoreCells<S>>,
    caller: &mut P,
    alloc: Global,
    session: u32,
    place: u32,
    cube: &Schema,
    dim: u32,
    text: bool,
) -> Result<Texts, AllocError>
    requires board { P.calls_on board.now caller.old }
    requires may { MayCopyCube S.fits S.stands S.says (P.opening caller.old)
        (P.number caller.old) (P.own caller.old) session place cube.now }
    requires kind { slice_get (map (λ dim. dim.text) cube.now.dims) dim ≡ Some text }
    ensures board { P.calls_on board.now caller.new }
    ensures opening { P.opening caller.new ≡ P.opening caller.old }
    ensures number { P.number caller.new ≡ P.number caller.old }
    ensures others { P.others caller.new ≡ P.others caller.old }
    ensures asks { GoOnByCopies (P.number caller.old) (P.own caller.old) (P.own caller.new) }
    ensures told { IfOk result (λ list. HasMoreWith (P.own caller.old) (P.own caller.new)
        (λ added. AreNamesTold (P.number caller.old) added place dim 0 text list)) }
    ensures distinct { IfOk result (IsDistinct bytes_eq) }
{
    clients_know_their_runs::<S>();
    if !text {
        let none = Texts::new(alloc);
        return Ok(none);
    }
    ask_for_copy(rt, board, caller, session, place, dim)
}

// Which dimensions of a cube have texts.
fn texts_of(cube: &Schema) -> &[bool]
    ensures { result.now ≡ map (λ dim. dim.text) cube.now.dims }
{
    cube.cube_shape().texts.as_slice()
}

/// The names of each dimension of the cube.
fn copy_dims<S: LinkedShard, R: Wait, P: CellCaller<CoreCells<S>>>(
    rt: &R,
    board: &Board<CoreCells<S>>,
    caller: &mut P,
    alloc: Global,
    session: u32,
    place: u32,
    cube: &Schema,
    texts: &[bool],
) -> Result<TextLists, AllocError>
    requires board { P.calls_on board.now caller.old }
    requires may { MayCopyCube S.fits S.stands S.says (P.opening caller.old)
        (P.number caller.old) (P.own caller.old) session place cube.now }
    requires kinds { texts.now ≡ map (λ dim. dim.text) cube.now.dims }
    ensures board { P.calls_on board.now caller.new }
    ensures opening { P.opening caller.new ≡ P.opening caller.old }
    ensures number { P.number caller.new ≡ P.number caller.old }
    ensures others { P.others caller.new ≡ P.others caller.old }
    ensures asks { GoOnByCopies (P.number caller.old) (P.own caller.old) (P.own caller.new) }
    ensures told { IfOk result (λ lists. HasMoreWith (P.own caller.old) (P.own caller.new)
        (λ added. HasNamesTold (P.number caller.old) added place []
        (map (λ dim. dim.text) cube.now.dims) lists)) }
    ensures distinct { IfOk result (All (IsDistinct bytes_eq)) }
{
    let dims = short_count(texts.len())?;
    let mut lists = TextLists::new(alloc);
    'dims: for dim in 0..dims {
        let text = texts[dim as usize];
        let list = copy_dim(rt, board, caller, alloc, session, place, cube, dim, text)?;
        lists.push(list)?;
    }
    Ok(lists)
}

/// Copies the names of each dimension of a cube that the session was told of, behind as many cubes
/// without names as stand before its place. The error is out of memory, of the names or here.
pub fn copy_names_of_cube<S: LinkedShard, R: Wait, P: CellCaller<CoreCells<S>>>(
    rt: &R,
    board: &Board<CoreCells<S>>,
    caller: &mut P,
    alloc: Global,
    session: u32,
    place: u32,
    cube: &Schema,
) -> Result<NameLists, AllocError>
    requires board { P.calls_on board.now caller.old }
    requires may { MayCopyCube S.fits S.stands S.says (P.opening caller.old)
        (P.number caller.old) (P.own caller.old) session place cube.now }
    ensures board { P.calls_on board.now caller.new }
    ensures opening { P.opening caller.new ≡ P.opening caller.old }
    ensures number { P.number caller.new ≡ P.number caller.old }
    ensures others { P.others caller.new ≡ P.others caller.old }
    ensures asks { GoOnByCopies (P.number caller.old) (P.own caller.old) (P.own caller.new) }
    ensures holds { HoldsTheSame S.fits S.stands S.says session (P.opening caller.old)
        (P.number caller.old) (P.own caller.old) (P.opening caller.new) (P.number caller.new)
        (P.own caller.new) }
    ensures copied { IfOk result (AreCopiedBetween S.fits S.stands S.says (P.opening caller.old)
        (P.number caller.old) (P.own caller.old) (P.own caller.new) place cube.now) }
    ensures distinct { IfOk result (λ names. AreDistinct (lists_at names place)) }
{
    names_calls_keep_what_is_held::<S>();
    let texts = texts_of(cube);
    let lists = copy_dims(rt, board, caller, alloc, session, place, cube, texts)?;
    names_at_place(alloc, place, lists)
}
