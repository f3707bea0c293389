//! The law of the board, for all cells that are linked to the core.
ghost use Rattle.std.specs.Prelude.{◌≡◌, ℕ, List};
ghost use Rattle.turn_board.specs.declared.history.Event.{Event};
ghost use Rattle.turn_board.specs.History.{IsHistory, LeadsTo, of_cell};
ghost use Rattle.cube_core.specs.Links.{AreEventsOf, HangsOn, HasOwnEvents, HasRun, HasRunTo, IsToldByCaller, MakesCalls, MakesMoves, MakesRounds};
ghost use Rattle.core_events.specs.Cells.{worker_of};
ghost use Rattle.core_events.specs.Clients.{calls_of};
ghost use Rattle.core_events.specs.Events.{Opening, CoreEvent};
ghost use Rattle.core_events.specs.Fitting.{round_progress};
ghost use lib.ListN.{get_elem?};
ghost use mathlib.Core.Option.{some};

use crate::link::CoreBoard;

/// The board runs the core: a history of calls on linked cells is a run of the core, each entry one
/// event in its order, and each cell is what the events have made of it.
pub fn histories_are_core_runs<C: CoreBoard>()
    ensures run { (o : Opening) (opening : List C.Cell) (log : List (Event C.Call C.Answer))
        → C.opens o opening log → IsHistory C.step C.fits opening log → HasRun o (C.event o) log }
    ensures cells { (o : Opening) (opening : List C.Cell) (log : List (Event C.Call C.Answer))
        (values : ℕ → C.Cell) → C.opens o opening log → IsHistory C.step C.fits opening log
        → ((k : ℕ) (x : C.Cell) → get_elem? opening k ≡ some x
        → LeadsTo C.step x (of_cell k log) (values k))
        → HasRunTo o (C.event o) (C.stands o) opening log values }
{}

/// What is told of one caller's entries alone is told of these entries: the calls of the client that
/// it acts as, what its worker does, and how far its rounds have come.
pub fn callers_know_their_part<C: CoreBoard, X>()
    ensures calls { (o : Opening) (caller client : ℕ) → MakesCalls (C.event o) caller client
        → IsToldByCaller (C.event o) caller (calls_of client) }
    ensures moves { (o : Opening) (caller mail : ℕ) → MakesMoves (C.event o) caller mail
        → IsToldByCaller (C.event o) caller (worker_of mail) }
    ensures rounds { (o : Opening) (caller : ℕ) → MakesRounds o (C.event o) caller
        → IsToldByCaller (C.event o) caller (round_progress o) }
    ensures own { (o : Opening) (caller : ℕ) (told : List CoreEvent → X)
        (log : List (Event C.Call C.Answer)) (es : List CoreEvent)
        → IsToldByCaller (C.event o) caller told → HangsOn (C.event o) caller told
        → AreEventsOf (C.event o) log es → HasOwnEvents (C.event o) caller told log es }
{}
