//! The rows of an INSERT by coordinates, where the session's caller gives the codes.

ghost use Rattle.std.specs.Prelude.{◌≡◌, ◌⊎◌, ℕ, List, None, length, All, IfOk, IfNone};
ghost use Rattle.cube_language.specs.RowFaults.{first_bad_row};
ghost use Rattle.row_encoding.specs.FinalCodes.{InTheEnd};
ghost use Rattle.row_encoding.specs.CodedInserts.{HaveTextIn, HasCoords, HasNumbers, AreCodedRows};
ghost use Rattle.core_names.specs.AskedNames.{GoOnByNames, HasAskedFor};
ghost use Rattle.core_names.specs.KnownNumbers.{HasToldNumber};
ghost use Rattle.core_names.specs.NamesInTheEnd.{MayLeaveNames};
ghost use Rattle.core_names.specs.CoreEncoders.{MayAskForCodes};

use crate::cube_texts::CubeTexts;
use crate::encoder::CoreNames;
use board_callers::CellCaller;
use core_program::CoreCells;
use cube_core::LinkedShard;
use cube_schema::Schema;
use cube_values::{CodedRows, Text, Values};
use row_encoding::encode_rows;
use std::alloc::{AllocError, Global};
use std::sync::Wait;
use turn_board::Board;

/// Leaves the rows of an INSERT, which fit, in a batch of their cube, as `encode_rows` does. The
/// session makes calls on the names alone, and asks for no text but those of the rows; it was told
/// of each number that these have, and what they stand for is so in whatever run goes on.
pub fn encode_rows_by_caller<S: LinkedShard, R: Wait, P: CellCaller<CoreCells<S>>>(
    rt: &R,
    board: &Board<CoreCells<S>>,
    caller: &mut P,
    known: &mut CubeTexts,
    alloc: Global,
    session: u32,
    place: u32,
    cube: &Schema,
    rows: &[Values],
    batch: &mut CodedRows,
) -> Result<Option<Text>, AllocError>
    requires board { P.calls_on board.now caller.old }
    requires may { MayAskForCodes S.fits S.stands S.says (P.opening caller.old)
        (P.number caller.old) (P.own caller.old) session known.old place cube.now }
    requires fit { first_bad_row cube.now rows.now ≡ None }
    requires dims { batch.old.dims ≡ length cube.now.dims }
    requires width { batch.old.width ≡ length cube.now.metrics }
    ensures board { P.calls_on board.now caller.new }
    ensures opening { P.opening caller.new ≡ P.opening caller.old }
    ensures number { P.number caller.new ≡ P.number caller.old }
    ensures others { P.others caller.new ≡ P.others caller.old }
    ensures asks { GoOnByNames (P.number caller.old) (P.own caller.old) (P.own caller.new) }
    ensures asked { (p k : ℕ) (t : List ℕ) → HasAskedFor (P.own caller.new) p k t
        → HasAskedFor (P.own caller.old) p k t ⊎ ((p ≡ place) × HaveTextIn rows.now k t) }
    ensures may { MayAskForCodes S.fits S.stands S.says (P.opening caller.new)
        (P.number caller.new) (P.own caller.new) session known.new place cube.now }
    ensures rows { IfOk result (λ lacking. InTheEnd (MayLeaveNames S.fits S.stands S.says
        (P.opening caller.new) (P.number caller.new) (P.own caller.new)) place (λ lists.
        AreCodedRows cube.now lists rows.now batch.new.rows lacking)) }
    ensures inside { IfOk result (λ lacking.
        IfNone lacking (All (HasCoords cube.now) batch.new.rows)) }
    ensures told { IfOk result (λ lacking. IfNone lacking
        (All (HasNumbers (HasToldNumber (P.own caller.new) place) cube.now) batch.new.rows)) }
    ensures dims { batch.new.dims ≡ batch.old.dims }
    ensures width { batch.new.width ≡ batch.old.width }
{
    let mut names = CoreNames::new(rt, board, caller, known, alloc, session, place);
    encode_rows(alloc, &mut names, place, cube, rows, batch)
}
