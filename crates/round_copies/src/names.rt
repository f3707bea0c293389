//! The names of each text dimension that a store has not yet.
ghost use Rattle.std.specs.Prelude.{◌≡◌, ◌+◌, ◌<◌, ℕ, List, [], ◌∷◌, ◌++◌, length, get_or, IfOk};
ghost use Rattle.core_program.specs.ClientCalls.{names_entry};
ghost use Rattle.core_cells.specs.declared.names.NamesAnswer.TheVariants as told;
ghost use Rattle.core_cells.specs.declared.names.NamesCall.TheVariants as names;
ghost use Rattle.core_program.specs.Flushing.{IsFlusherOf};
ghost use Rattle.joined_copies.specs.JoinedCopies.{ShardCopy};
ghost use Rattle.linked_shards.specs.CellShards.{CoreShardStands};
ghost use Rattle.round_copies.specs.RoundCopies.{AreNamesTold, GoesOnCopying, HasCubes, HasMoreWith, HasNamesTold, HaveNamesTold, count_at, texts_by_cube};
ghost use Rattle.round_copies.specs.WithinRounds.{HasHistory, KnowsOfFlusher};
ghost use Rattle.shard_events.specs.ShardsInRuns.{FitsShard, ShardAnswerSays};

use crate::answers::names_in;
use crate::calls::ask_names;
use crate::span::RoundSpan;
use crate::texts::{count_of_dim, counts_of_cube, short_count, texts_by_cube};
use board_callers::CellCaller;
use core_cells::NamesCall;
use core_program::the_flusher_is_a_client;
use cube_language::Decl;
use cube_values::{CubeShape, Flags, Sequence, TextLists, Texts};
use linked_shards::{CoreShard, ShardCells};
use std::alloc::{AllocError, Global};
use std::sync::Wait;
use turn_board::Board;

/// The names of a text dimension behind so many, once the cubes are copied. It is an error where the
/// dictionaries are out of memory.
fn copy_list<R: Wait, P: CellCaller<ShardCells>>(
    rt: &R,
    board: &Board<ShardCells>,
    caller: &mut P,
    client: u32,
    span: RoundSpan,
    cube: u32,
    dim: u32,
    count: u32,
) -> Result<Texts, AllocError>
    requires board { P.calls_on board.now caller.old }
    requires flusher { (shards : ℕ) × IsFlusherOf FitsShard CoreShardStands ShardAnswerSays
        (P.opening caller.old) (P.number caller.old) client shards }
    requires may { (copies : List ShardCopy) × (cubes : ℕ) × (counts : List (List ℕ))
        × (cube < cubes) × (count ≡ count_at counts cube dim)
        × KnowsOfFlusher (P.opening caller.old) (P.number caller.old) client (P.own caller.old)
        (HasCubes span copies cubes counts) }
    ensures board { P.calls_on board.now caller.new }
    ensures opening { P.opening caller.new ≡ P.opening caller.old }
    ensures number { P.number caller.new ≡ P.number caller.old }
    ensures others { P.others caller.new ≡ P.others caller.old }
    ensures goes { GoesOnCopying span client (P.opening caller.old) (P.number caller.old)
        (P.own caller.old) (P.opening caller.new) (P.number caller.new) (P.own caller.new) }
    ensures told { IfOk result (λ list. P.own caller.new ≡ P.own caller.old ++ names_entry
        (P.number caller.new) (names.CopyFrom cube dim count) (told.Copied list) ∷ []) }
{
    the_flusher_is_a_client::<CoreShard>();
    let copy = NamesCall::CopyFrom {
        cube,
        dim,
        from: count,
    };
    let said = ask_names(rt, board, caller, client, copy);
    names_in(said).ok_or(AllocError)
}

/// The names of a dimension behind so many. A dimension of numbers has none.
fn copy_dim<R: Wait, P: CellCaller<ShardCells>>(
    rt: &R,
    board: &Board<ShardCells>,
    caller: &mut P,
    client: u32,
    span: RoundSpan,
    cube: u32,
    dim: u32,
    text: bool,
    count: u64,
    alloc: Global,
) -> Result<Texts, AllocError>
    requires board { P.calls_on board.now caller.old }
    requires flusher { (shards : ℕ) × IsFlusherOf FitsShard CoreShardStands ShardAnswerSays
        (P.opening caller.old) (P.number caller.old) client shards }
    requires history { HasHistory (P.opening caller.old) (P.number caller.old) (P.own caller.old) }
    requires may { (copies : List ShardCopy) × (cubes : ℕ) × (counts : List (List ℕ))
        × (cube < cubes) × (count ≡ count_at counts cube dim)
        × KnowsOfFlusher (P.opening caller.old) (P.number caller.old) client (P.own caller.old)
        (HasCubes span copies cubes counts) }
    ensures board { P.calls_on board.now caller.new }
    ensures opening { P.opening caller.new ≡ P.opening caller.old }
    ensures number { P.number caller.new ≡ P.number caller.old }
    ensures others { P.others caller.new ≡ P.others caller.old }
    ensures goes { GoesOnCopying span client (P.opening caller.old) (P.number caller.old)
        (P.own caller.old) (P.opening caller.new) (P.number caller.new) (P.own caller.new) }
    ensures told { IfOk result (λ list. HasMoreWith (P.own caller.old) (P.own caller.new)
        (λ later. AreNamesTold (P.number caller.new) later cube dim count text list)) }
{
    if !text {
        return Ok(Texts::new(alloc));
    }
    let count = short_count(count as usize)?;
    copy_list(rt, board, caller, client, span, cube, dim, count)
}

/// The names of each dimension of a cube, behind those that the store has.
fn copy_dims<R: Wait, P: CellCaller<ShardCells>>(
    rt: &R,
    board: &Board<ShardCells>,
    caller: &mut P,
    client: u32,
    span: RoundSpan,
    cube: u32,
    texts: &[bool],
    counts: &[u64],
    alloc: Global,
) -> Result<TextLists, AllocError>
    requires board { P.calls_on board.now caller.old }
    requires flusher { (shards : ℕ) × IsFlusherOf FitsShard CoreShardStands ShardAnswerSays
        (P.opening caller.old) (P.number caller.old) client shards }
    requires history { HasHistory (P.opening caller.old) (P.number caller.old) (P.own caller.old) }
    requires may { (copies : List ShardCopy) × (cubes : ℕ) × (all : List (List ℕ))
        × (cube < cubes) × (counts.now ≡ get_or all cube [])
        × KnowsOfFlusher (P.opening caller.old) (P.number caller.old) client (P.own caller.old)
        (HasCubes span copies cubes all) }
    ensures board { P.calls_on board.now caller.new }
    ensures opening { P.opening caller.new ≡ P.opening caller.old }
    ensures number { P.number caller.new ≡ P.number caller.old }
    ensures others { P.others caller.new ≡ P.others caller.old }
    ensures goes { GoesOnCopying span client (P.opening caller.old) (P.number caller.old)
        (P.own caller.old) (P.opening caller.new) (P.number caller.new) (P.own caller.new) }
    ensures told { IfOk result (λ lists. HasMoreWith (P.own caller.old) (P.own caller.new)
        (λ later. HasNamesTold (P.number caller.new) later cube counts.now texts.now lists)) }
{
    let dims = short_count(texts.len())?;
    let mut lists = TextLists::new(alloc);
    'dims: for dim in 0..dims {
        let text = texts[dim as usize];
        let count = count_of_dim(counts, dim as usize);
        let names = copy_dim(
            rt, board, caller, client, span, cube, dim, text, count, alloc,
        )?;
        lists.push(names)?;
    }
    Ok(lists)
}

/// The names of each dimension of some cubes, behind those that the store has.
fn copy_lists<R: Wait, P: CellCaller<ShardCells>>(
    rt: &R,
    board: &Board<ShardCells>,
    caller: &mut P,
    client: u32,
    span: RoundSpan,
    texts: &[Flags],
    counts: &[Sequence<u64>],
    alloc: Global,
) -> Result<Vec<TextLists>, AllocError>
    requires board { P.calls_on board.now caller.old }
    requires flusher { (shards : ℕ) × IsFlusherOf FitsShard CoreShardStands ShardAnswerSays
        (P.opening caller.old) (P.number caller.old) client shards }
    requires history { HasHistory (P.opening caller.old) (P.number caller.old) (P.own caller.old) }
    requires may { (copies : List ShardCopy) × KnowsOfFlusher (P.opening caller.old)
        (P.number caller.old) client (P.own caller.old)
        (HasCubes span copies (length texts.now) counts.now) }
    ensures board { P.calls_on board.now caller.new }
    ensures opening { P.opening caller.new ≡ P.opening caller.old }
    ensures number { P.number caller.new ≡ P.number caller.old }
    ensures others { P.others caller.new ≡ P.others caller.old }
    ensures goes { GoesOnCopying span client (P.opening caller.old) (P.number caller.old)
        (P.own caller.old) (P.opening caller.new) (P.number caller.new) (P.own caller.new) }
    ensures told { IfOk result (λ lists. HasMoreWith (P.own caller.old) (P.own caller.new)
        (λ later. HaveNamesTold (P.number caller.new) later counts.now texts.now lists.items)) }
{
    let cubes = short_count(texts.len())?;
    let mut lists = Vec::new(alloc);
    'cubes: for cube in 0..cubes {
        let flags = texts[cube as usize].as_slice();
        let own = counts_of_cube(counts, cube as usize);
        let names = copy_dims(rt, board, caller, client, span, cube, flags, own, alloc)?;
        lists.push(names)?;
    }
    Ok(lists)
}

/// The names of each dimension of each cube of a store and of those that were made, behind those that
/// the store has.
pub(crate) fn copy_names<R: Wait, P: CellCaller<ShardCells>>(
    rt: &R,
    board: &Board<ShardCells>,
    caller: &mut P,
    client: u32,
    span: RoundSpan,
    shapes: &[CubeShape],
    made: &[Decl],
    counts: &[Sequence<u64>],
    alloc: Global,
) -> Result<Vec<TextLists>, AllocError>
    requires board { P.calls_on board.now caller.old }
    requires flusher { (shards : ℕ) × IsFlusherOf FitsShard CoreShardStands ShardAnswerSays
        (P.opening caller.old) (P.number caller.old) client shards }
    requires history { HasHistory (P.opening caller.old) (P.number caller.old) (P.own caller.old) }
    requires may { (copies : List ShardCopy) × KnowsOfFlusher (P.opening caller.old)
        (P.number caller.old) client (P.own caller.old)
        (HasCubes span copies (length shapes.now + length made.now) counts.now) }
    ensures board { P.calls_on board.now caller.new }
    ensures opening { P.opening caller.new ≡ P.opening caller.old }
    ensures number { P.number caller.new ≡ P.number caller.old }
    ensures others { P.others caller.new ≡ P.others caller.old }
    ensures goes { GoesOnCopying span client (P.opening caller.old) (P.number caller.old)
        (P.own caller.old) (P.opening caller.new) (P.number caller.new) (P.own caller.new) }
    ensures told { IfOk result (λ lists. HasMoreWith (P.own caller.old) (P.own caller.new)
        (λ later. HaveNamesTold (P.number caller.new) later counts.now
        (texts_by_cube shapes.now made.now) lists.items)) }
{
    let texts = texts_by_cube(alloc, shapes, made)?;
    copy_lists(
        rt,
        board,
        caller,
        client,
        span,
        texts.as_slice(),
        counts,
        alloc,
    )
}
