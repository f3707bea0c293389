//! The next records of a file by coordinates, where the session's caller gives the codes.

ghost use Rattle.std.specs.Prelude.{◌≡◌, ◌⊎◌, ℕ, ◌≤◌, ◌-◌, List, length, All, IfOk, OnOk};
ghost use Rattle.row_encoding.specs.FinalCodes.{InTheEnd};
ghost use Rattle.row_encoding.specs.CodedInserts.{HasCoords, HasNumbers};
ghost use Rattle.row_encoding.specs.CodedLoads.{BatchHasEnded, HaveTextLookedAt, LoadGoesOn, TakesBatch};
ghost use Rattle.core_names.specs.AskedNames.{GoOnByNames, HasAskedFor};
ghost use Rattle.core_names.specs.KnownNumbers.{HasToldNumber};
ghost use Rattle.core_names.specs.NamesInTheEnd.{MayLeaveNames};
ghost use Rattle.core_names.specs.CoreEncoders.{MayAskForCodes};

use board_callers::CellCaller;
use core_names::{CoreNames, CubeTexts};
use core_program::CoreCells;
use csv_load::Loader;
use cube_core::LinkedShard;
use cube_schema::Schema;
use cube_values::CodedRows;
use row_encoding::{BadRecords, BatchEnd, load_rows};
use std::alloc::{AllocError, Global};
use std::sync::Wait;
use turn_board::Board;

/// Leaves the next rows of a file in a batch of their cube, as `load_rows` does. The session makes calls on
/// the names alone, and asks for no text but those of records at which the LOAD looks; it was told of each
/// number that the rows have, and what they stand for is so in whatever run goes on.
pub(crate) fn load_rows_by_caller<S: LinkedShard, R: Wait, P: CellCaller<CoreCells<S>>>(
    rt: &R,
    board: &Board<CoreCells<S>>,
    caller: &mut P,
    known: &mut CubeTexts,
    alloc: Global,
    session: u32,
    place: u32,
    cube: &Schema,
    load: &mut Loader,
    allowed: u64,
    bad: &mut BadRecords,
    batch: &mut CodedRows,
) -> Result<BatchEnd, AllocError>
    requires board { P.calls_on board.now caller.old }
    requires may { MayAskForCodes S.fits S.stands S.says (P.opening caller.old)
        (P.number caller.old) (P.own caller.old) session known.old place cube.now }
    requires cube { load.old.decl ≡ cube.now }
    requires few { bad.old.count ≤ allowed }
    requires counted { bad.old.count ≤ load.old.number }
    requires dims { batch.old.dims ≡ length cube.now.dims }
    requires width { batch.old.width ≡ length cube.now.metrics }
    ensures board { P.calls_on board.now caller.new }
    ensures opening { P.opening caller.new ≡ P.opening caller.old }
    ensures number { P.number caller.new ≡ P.number caller.old }
    ensures others { P.others caller.new ≡ P.others caller.old }
    ensures asks { GoOnByNames (P.number caller.old) (P.own caller.old) (P.own caller.new) }
    ensures asked { (p k : ℕ) (t : List ℕ) → HasAskedFor (P.own caller.new) p k t
        → HasAskedFor (P.own caller.old) p k t ⊎ ((p ≡ place) × HaveTextLookedAt
        (MayLeaveNames S.fits S.stands S.says (P.opening caller.new) (P.number caller.new)
        (P.own caller.new)) place cube.now (allowed - bad.old.count) load.old k t) }
    ensures may { MayAskForCodes S.fits S.stands S.says (P.opening caller.new)
        (P.number caller.new) (P.own caller.new) session known.new place cube.now }
    ensures goes_on { OnOk result (LoadGoesOn load.old load.new) }
    ensures batch { IfOk result (λ ended. InTheEnd (MayLeaveNames S.fits S.stands S.says
        (P.opening caller.new) (P.number caller.new) (P.own caller.new)) place (λ lists.
        TakesBatch cube.now lists allowed load.old load.new bad.old bad.new batch.new.rows ended)) }
    ensures ended { IfOk result (BatchHasEnded allowed load.new bad.new batch.new.rows) }
    ensures inside { OnOk result (All (HasCoords cube.now) batch.new.rows) }
    ensures told { OnOk result
        (All (HasNumbers (HasToldNumber (P.own caller.new) place) cube.now) batch.new.rows) }
    ensures counted { OnOk result (bad.new.count ≤ load.new.number) }
    ensures dims { OnOk result (batch.new.dims ≡ batch.old.dims) }
    ensures width { OnOk result (batch.new.width ≡ batch.old.width) }
{
    let mut names = CoreNames::new(rt, board, caller, known, alloc, session, place);
    load_rows(alloc, &mut names, place, cube, load, allowed, bad, batch)
}
