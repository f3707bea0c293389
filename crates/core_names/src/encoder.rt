//! The session's caller gives codes.

ghost use Rattle.std.specs.Prelude.{◌≡◌, ◌⊎◌, ℕ, ◌≤◌, true, List, length, Ok, IfOk, IfSome};
ghost use Rattle.cube_language.specs.declared.bad_row.TheConstants.{TEXT_BYTES};
ghost use Rattle.names_dict.specs.declared.code.Code.TheVariants.{Known};
ghost use Rattle.row_encoding.specs.FinalCodes.{dim_at, IsDimText};
ghost use Rattle.core_names.specs.AskedNames.{GoOnByNames, HasAskedFor};
ghost use Rattle.core_names.specs.KnownNumbers.{HasToldNumber, number_known};
ghost use Rattle.core_names.specs.NamesInTheEnd.{MayLeaveNames};
ghost use Rattle.core_names.specs.CoreEncoders.{IsCodeInTheEnd, MayAskForCodes, SuitsCube};
ghost use Rattle.core_names.specs.StaysAsWhoAsks.{StaysAndAsks, stays-and-asks};

use crate::asking::ask_for_code;
use crate::cube_texts::CubeTexts;
use board_callers::CellCaller;
use core_program::{CoreCells, clients_know_their_runs};
use cube_core::LinkedShard;
use cube_schema::Schema;
use cube_values::Text;
use known_cubes::sessions_may_ask_names_of_told_cubes;
use names_dict::Code;
use row_encoding::Encoder;
use std::alloc::{AllocError, Global};
use std::sync::Wait;
use turn_board::Board;

/// The code of a text in a dimension of texts of the cube that the session was told of. Where the
/// text is known it makes no call; else it asks the dictionary, and knows from then on what number
/// that gave. The error is out of memory, of the names or here.
fn code_of_text<S: LinkedShard, R: Wait, P: CellCaller<CoreCells<S>>>(
    rt: &R,
    board: &Board<CoreCells<S>>,
    caller: &mut P,
    known: &mut CubeTexts,
    alloc: Global,
    session: u32,
    place: u32,
    cube: &Schema,
    dim: u32,
    text: &str,
) -> Result<Code, AllocError>
    requires board { P.calls_on board.now caller.old }
    requires may { MayAskForCodes S.fits S.stands S.says (P.opening caller.old)
        (P.number caller.old) (P.own caller.old) session known.old place cube.now }
    requires text { (dim_at cube.now.dims dim).text ≡ true }
    requires short { length text.now ≤ TEXT_BYTES }
    ensures board { P.calls_on board.now caller.new }
    ensures opening { P.opening caller.new ≡ P.opening caller.old }
    ensures number { P.number caller.new ≡ P.number caller.old }
    ensures others { P.others caller.new ≡ P.others caller.old }
    ensures known { IfSome (number_known known.old dim text.now) (λ n. result ≡ Ok (Known n)) }
    ensures no_call { IfSome (number_known known.old dim text.now)
        (λ _. P.own caller.new ≡ P.own caller.old) }
    ensures asks { GoOnByNames (P.number caller.old) (P.own caller.old) (P.own caller.new) }
    ensures asked { (p k : ℕ) (t : List ℕ) → HasAskedFor (P.own caller.new) p k t
        → HasAskedFor (P.own caller.old) p k t ⊎ ((p ≡ place) × IsDimText dim text.now k t) }
    ensures may { MayAskForCodes S.fits S.stands S.says (P.opening caller.old)
        (P.number caller.old) (P.own caller.new) session known.new place cube.now }
    ensures code { IfOk result (IsCodeInTheEnd S.fits S.stands S.says (P.opening caller.old)
        (P.number caller.old) (P.own caller.new) place cube.now dim text.now) }
{
    clients_know_their_runs::<S>();
    sessions_may_ask_names_of_told_cubes::<S>();
    if let Some(number) = known.find(dim, text.as_bytes()) {
        return Ok(Code::Known(number));
    }
    let shape = cube.shared_shape().share()?;
    let name = Text::new(alloc, text)?;
    let code = ask_for_code(rt, board, caller, session, place, dim, shape, name)?;
    known.learn(dim, text.as_bytes(), code)?;
    Ok(code)
}

/// A session's caller of a core, with the place of a cube that the session was told of and the
/// texts of it that it knows. While it gives codes nobody else makes calls by that caller.
#[derive(Drop)]
pub struct CoreNames<'a, S: LinkedShard, R, P> {
    rt: &'a R,
    board: &'a Board<CoreCells<S>>,
    caller: &'a mut P,
    known: &'a mut CubeTexts,
    alloc: Global,
    session: u32,
    place: u32,
}

impl<'a, S: LinkedShard, R: Wait, P: CellCaller<CoreCells<S>>> CoreNames<'a, S, R, P> {
    /// The caller of a session, with a place and the texts that it knows of the cube there.
    pub fn new(
        rt: &'a R,
        board: &'a Board<CoreCells<S>>,
        caller: &'a mut P,
        known: &'a mut CubeTexts,
        alloc: Global,
        session: u32,
        place: u32,
    ) -> CoreNames<'a, S, R, P>
        ensures same_caller { result.caller.ghost_name ≡ caller.entry.ghost_name }
        ensures same_known { result.known.ghost_name ≡ known.entry.ghost_name }
        ensures caller { result.caller.now ≡ caller.old }
        ensures known { result.known.now ≡ known.old }
        ensures board { result.board.now ≡ board.now }
        ensures session { result.session ≡ session }
        ensures place { result.place ≡ place }
    {
        CoreNames {
            rt,
            board,
            caller,
            known,
            alloc,
            session,
            place,
        }
    }
}

impl<'a, S: LinkedShard, R: Wait, P: CellCaller<CoreCells<S>>> Encoder for CoreNames<'a, S, R, P> {
    ghost may_end = { λ c. MayLeaveNames S.fits S.stands S.says (P.opening c.caller.now)
        (P.number c.caller.now) (P.own c.caller.now) };

    ghost suits = { λ c p d. SuitsCube S.fits S.stands S.says (P.opening c.caller.now)
        (P.calls_on c.board.now c.caller.now) c.place (P.number c.caller.now)
        (P.own c.caller.now) c.session c.known.now p d };

    ghost has_name = { λ c. HasAskedFor (P.own c.caller.now) };

    ghost has_given = { λ c. HasToldNumber (P.own c.caller.now) };

    ghost keeps = { λ old new. StaysAndAsks
        (record {
          caller = old.caller.ghost_name;
          known = old.known.ghost_name;
          board = old.board.now;
          opening = P.opening old.caller.now;
          number = P.number old.caller.now;
          others = P.others old.caller.now;
          session = old.session;
          place = old.place;
        })
        (record {
          caller = new.caller.ghost_name;
          known = new.known.ghost_name;
          board = new.board.now;
          opening = P.opening new.caller.now;
          number = P.number new.caller.now;
          others = P.others new.caller.now;
          session = new.session;
          place = new.place;
        })
        (P.own old.caller.now) (P.own new.caller.now) };

    ghost carries_on = { stays-and-asks
        (λ c. record {
          caller = c.caller.ghost_name;
          known = c.known.ghost_name;
          board = c.board.now;
          opening = P.opening c.caller.now;
          number = P.number c.caller.now;
          others = P.others c.caller.now;
          session = c.session;
          place = c.place;
        })
        (λ c. P.own c.caller.now) };

    fn encode(
        &mut self,
        place: u32,
        cube: &Schema,
        dim: u32,
        text: &str,
    ) -> Result<Code, AllocError> {
        code_of_text(
            self.rt,
            self.board,
            self.caller,
            self.known,
            self.alloc,
            self.session,
            place,
            cube,
            dim,
            text,
        )
    }
}
