//! The rows of an INSERT get their numbers.

ghost use Rattle.std.specs.Prelude.{◌≡◌, ◌⊎◌, ℕ, List, None, IfOk};
ghost use Rattle.core_names.specs.AskedNames.{GoOnByNames, HasAskedFor};
ghost use Rattle.core_names.specs.CoreEncoders.{MayAskForCodes};
ghost use Rattle.core_names.specs.NamesInTheEnd.{OpenWithNames};
ghost use Rattle.core_program.specs.Knowing.{IsClientOf, IsSessionOf};
ghost use Rattle.cube_language.specs.RowFaults.{first_bad_row};
ghost use Rattle.inserted_rows.specs.RowsInTheEnd.{AreEncodedRows, IsToldOfCubeAt};
ghost use Rattle.known_cubes.specs.KnownCubes.{OpenWithStorableCubes};
ghost use Rattle.linked_shards.specs.CellShards.{CoreShardStands};
ghost use Rattle.row_encoding.specs.CodedInserts.{HaveTextIn};
ghost use Rattle.session_texts.specs.ToldTexts.{AreTextsTold};
ghost use Rattle.shard_events.specs.ShardsInRuns.{FitsShard, ShardAnswerSays};

use board_callers::CellCaller;
use core_names::{CubeTexts, encode_rows_by_caller};
use cube_schema::Schema;
use cube_values::{CodedRows, Text, Values};
use linked_shards::{CoreShard, ShardCells};
use session_texts::{SessionTexts, told_texts_stay_told};
use std::alloc::{AllocError, Global};
use std::sync::Wait;
use turn_board::Board;

/// The rows of an INSERT by coordinates, or its first text that finds no place.
#[derive(Debug, Drop)]
pub enum EncodedRows {
    Rows(CodedRows),
    Lacking(Text),
}

// The same as `encode_inserted`, by the texts that are known of the cube.
fn encode_by_known<R: Wait, P: CellCaller<ShardCells>>(
    rt: &R,
    board: &Board<ShardCells>,
    caller: &mut P,
    known: &mut CubeTexts,
    alloc: Global,
    session: u32,
    place: u32,
    cube: &Schema,
    rows: &[Values],
) -> Result<EncodedRows, AllocError>
    requires board { P.calls_on board.now caller.old }
    requires may { MayAskForCodes FitsShard CoreShardStands ShardAnswerSays (P.opening caller.old)
        (P.number caller.old) (P.own caller.old) session known.old place cube.now }
    requires fit { first_bad_row cube.now rows.now ≡ None }
    ensures board { P.calls_on board.now caller.new }
    ensures opening { P.opening caller.new ≡ P.opening caller.old }
    ensures number { P.number caller.new ≡ P.number caller.old }
    ensures others { P.others caller.new ≡ P.others caller.old }
    ensures asks { GoOnByNames (P.number caller.old) (P.own caller.old) (P.own caller.new) }
    ensures asked { (p k : ℕ) (t : List ℕ) → HasAskedFor (P.own caller.new) p k t
        → HasAskedFor (P.own caller.old) p k t ⊎ ((p ≡ place) × HaveTextIn rows.now k t) }
    ensures may { MayAskForCodes FitsShard CoreShardStands ShardAnswerSays (P.opening caller.new)
        (P.number caller.new) (P.own caller.new) session known.new place cube.now }
    ensures rows { IfOk result (AreEncodedRows (P.opening caller.new) (P.number caller.new)
        (P.own caller.new) place cube.now rows.now) }
{
    let decl = cube.decl();
    let mut batch = CodedRows::new(alloc, decl.dims.len(), decl.metrics.len());
    match encode_rows_by_caller::<CoreShard, R, P>(
        rt, board, caller, known, alloc, session, place, cube, rows, &mut batch,
    )? {
        None => Ok(EncodedRows::Rows(batch)),
        Some(text) => Ok(EncodedRows::Lacking(text)),
    }
}

/// The rows of an INSERT, which fit, by coordinates, or its first text that finds no place. The session makes calls on
/// the names alone, and asks for no text but those of the rows. It knows more texts of the cube from then on. The
/// error is out of memory.
#[tactic(auto, using(crate::proofs::TextsOn::names_go_on, crate::proofs::TextsOn::no_names_asked))]
pub fn encode_inserted<R: Wait, P: CellCaller<ShardCells>>(
    rt: &R,
    board: &Board<ShardCells>,
    caller: &mut P,
    texts: &mut SessionTexts,
    alloc: Global,
    session: u32,
    place: u32,
    cube: &Schema,
    rows: &[Values],
) -> Result<EncodedRows, AllocError>
    requires board { P.calls_on board.now caller.old }
    requires client { IsClientOf FitsShard CoreShardStands ShardAnswerSays (P.opening caller.old)
        (P.number caller.old) session }
    requires session { IsSessionOf FitsShard CoreShardStands ShardAnswerSays (P.opening caller.old)
        session }
    requires storable { OpenWithStorableCubes FitsShard CoreShardStands ShardAnswerSays
        (P.opening caller.old) }
    requires named { OpenWithNames FitsShard CoreShardStands ShardAnswerSays (P.opening caller.old) }
    requires told { IsToldOfCubeAt (P.own caller.old) place cube.now }
    requires texts { AreTextsTold (P.own caller.old) texts.old }
    requires fit { first_bad_row cube.now rows.now ≡ None }
    ensures board { P.calls_on board.now caller.new }
    ensures opening { P.opening caller.new ≡ P.opening caller.old }
    ensures number { P.number caller.new ≡ P.number caller.old }
    ensures others { P.others caller.new ≡ P.others caller.old }
    ensures asks { GoOnByNames (P.number caller.old) (P.own caller.old) (P.own caller.new) }
    ensures asked { (p k : ℕ) (t : List ℕ) → HasAskedFor (P.own caller.new) p k t
        → HasAskedFor (P.own caller.old) p k t ⊎ ((p ≡ place) × HaveTextIn rows.now k t) }
    ensures texts { AreTextsTold (P.own caller.new) texts.new }
    ensures rows { IfOk result (AreEncodedRows (P.opening caller.new) (P.number caller.new)
        (P.own caller.new) place cube.now rows.now) }
{
    told_texts_stay_told();
    let mut taken = texts.take(alloc, place, cube.decl().dims.as_slice())?;
    let encoded = encode_by_known(
        rt,
        board,
        caller,
        &mut taken.texts,
        alloc,
        session,
        place,
        cube,
        rows,
    );
    texts.put_back(place, taken);
    encoded
}
