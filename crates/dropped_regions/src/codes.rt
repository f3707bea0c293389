//! The codes of the texts that conditions compare with, where the session's caller gives them.

ghost use Rattle.std.specs.Prelude.{◌≡◌, ◌⊎◌, ℕ, List, IfOk, OnOk};
ghost use Rattle.condition_spans.specs.Codes.{codes_in};
ghost use Rattle.row_encoding.specs.CodedTexts.{AreNames, AskTheirKinds, ComparesWith, HavePlaces};
ghost use Rattle.row_encoding.specs.FinalCodes.{InTheEnd};
ghost use Rattle.core_names.specs.AskedNames.{GoOnByNames, HasAskedFor};
ghost use Rattle.core_names.specs.NamesInTheEnd.{MayLeaveNames};
ghost use Rattle.core_names.specs.CoreEncoders.{MayAskForCodes};

use board_callers::CellCaller;
use core_names::{CoreNames, CubeTexts};
use core_program::CoreCells;
use cube_core::LinkedShard;
use cube_schema::Schema;
use cube_values::Condition;
use row_encoding::encode_texts;
use std::alloc::{AllocError, Global};
use std::sync::Wait;
use turn_board::Board;

/// The codes of the texts of conditions on the cube that the session was told of, as `encode_texts` gives them: None for
/// one that no row can ever have. The session makes calls on the names alone, and asks for no text but those of the
/// conditions; the codes are right in whatever run goes on. The error is out of memory, of the names or here.
pub fn encode_conditions<S: LinkedShard, R: Wait, P: CellCaller<CoreCells<S>>>(
    rt: &R,
    board: &Board<CoreCells<S>>,
    caller: &mut P,
    known: &mut CubeTexts,
    alloc: Global,
    session: u32,
    place: u32,
    cube: &Schema,
    conditions: &[Condition],
) -> Result<Vec<Option<u32>>, AllocError>
    requires board { P.calls_on board.now caller.old }
    requires may { MayAskForCodes S.fits S.stands S.says (P.opening caller.old)
        (P.number caller.old) (P.own caller.old) session known.old place cube.now }
    requires kinds { AskTheirKinds cube.now.dims conditions.now }
    ensures board { P.calls_on board.now caller.new }
    ensures opening { P.opening caller.new ≡ P.opening caller.old }
    ensures number { P.number caller.new ≡ P.number caller.old }
    ensures others { P.others caller.new ≡ P.others caller.old }
    ensures asks { GoOnByNames (P.number caller.old) (P.own caller.old) (P.own caller.new) }
    ensures asked { (p k : ℕ) (t : List ℕ) → HasAskedFor (P.own caller.new) p k t
        → HasAskedFor (P.own caller.old) p k t ⊎ ((p ≡ place) × ComparesWith conditions.now k t) }
    ensures may { MayAskForCodes S.fits S.stands S.says (P.opening caller.new)
        (P.number caller.new) (P.own caller.new) session known.new place cube.now }
    ensures codes { IfOk result (λ codes. InTheEnd (MayLeaveNames S.fits S.stands S.says
        (P.opening caller.new) (P.number caller.new) (P.own caller.new)) place
        (λ lists. AreNames lists → codes.items ≡ codes_in lists conditions.now)) }
    ensures places { OnOk result (InTheEnd (MayLeaveNames S.fits S.stands S.says
        (P.opening caller.new) (P.number caller.new) (P.own caller.new)) place
        (λ lists. HavePlaces cube.now.dims lists conditions.now)) }
{
    let mut names = CoreNames::new(rt, board, caller, known, alloc, session, place);
    encode_texts(alloc, &mut names, place, cube, conditions)
}
