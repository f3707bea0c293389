//! What callers do: each its work, and main besides.
ghost use Rattle.std.specs.Prelude.{◌≡◌, ℕ, Bool, MatchBool, List, []};
ghost use Rattle.std.specs.Bool.{OnFalse};
ghost use Rattle.turn_board.specs.Passes.{callers_of};
ghost use Rattle.turn_board.specs.declared.history.Event.{Event};

use board_callers::CellCaller;
use std::sync::Wait;
use turn_board::{Board, Cells};

/// The work of one caller of a board, from its first call to its last.
pub trait CallerWork<C: Cells> {
    /// What has to hold before it begins: of the work, how many callers the board has, the cells that it
    /// opened with, and the caller's number.
    ghost may_begin: { Self → ℕ → List C.Cell → ℕ → Type 0 };

    /// What was done: of the work before and after, the cells that the board opened with, the caller's
    /// number, and all calls that it made.
    ghost has_done: { Self → Self → List C.Cell → ℕ → List (Event C.Call C.Answer) → Type 0 };

    /// Does the work, by the calls of a caller that has made none.
    fn work<R: Wait, P: CellCaller<C>>(&mut self, rt: &R, board: &Board<C>, caller: &mut P)
        requires board { P.calls_on board.now caller.old }
        requires fresh { P.own caller.old ≡ [] }
        requires may { may_begin self.old (callers_of board.now) (P.opening caller.old)
            (P.number caller.old) }
        ensures board { P.calls_on board.now caller.new }
        ensures opening { P.opening caller.new ≡ P.opening caller.old }
        ensures number { P.number caller.new ≡ P.number caller.old }
        ensures others { P.others caller.new ≡ P.others caller.old }
        ensures done { has_done self.old self.new (P.opening caller.old) (P.number caller.old)
            (P.own caller.new) };

    /// Goes on once the works of all that began beside it are done, by more calls of its caller. Most works have nothing
    /// left to do then.
    fn finish<R: Wait, P: CellCaller<C>>(&mut self, _rt: &R, _board: &Board<C>, _caller: &mut P)
        requires board { P.calls_on _board.now _caller.old }
        requires done { (first : Self) × may_begin first (callers_of _board.now) (P.opening _caller.old)
            (P.number _caller.old) × has_done first self.old (P.opening _caller.old)
            (P.number _caller.old) (P.own _caller.old) }
        ensures board { P.calls_on _board.now _caller.new }
        ensures opening { P.opening _caller.new ≡ P.opening _caller.old }
        ensures number { P.number _caller.new ≡ P.number _caller.old }
        ensures others { P.others _caller.new ≡ P.others _caller.old }
        ensures done { (first : Self) → may_begin first (callers_of _board.now) (P.opening _caller.old)
            (P.number _caller.old) → has_done first self.old (P.opening _caller.old)
            (P.number _caller.old) (P.own _caller.old) → has_done first self.new
            (P.opening _caller.old) (P.number _caller.old) (P.own _caller.new) }
    {}
}

/// Work that may be done in steps, by whoever has time for one.
pub trait StepWork<C: Cells>: CallerWork<C> {
    /// What was done so far: of the work before and after, the cells that the board opened with, the caller's number,
    /// and all calls that it made.
    ghost so_far: { Self → Self → List C.Cell → ℕ → List (Event C.Call C.Answer) → Type 0 };

    /// What a step did that leaves the work to go on: of the work before it, the cells that the board opened with, the
    /// caller's number, and its calls before and after.
    ghost has_stepped: { Self → List C.Cell → ℕ → List (Event C.Call C.Answer)
        → List (Event C.Call C.Answer) → Type 0 };

    /// Does what is there to do now, and waits for nobody. It tells whether the work is done.
    fn step<R: Wait, P: CellCaller<C>>(&mut self, rt: &R, board: &Board<C>, caller: &mut P) -> bool
        requires board { P.calls_on board.now caller.old }
        requires begun { (first : Self) × Self.may_begin first (callers_of board.now)
            (P.opening caller.old) (P.number caller.old) × so_far first self.old (P.opening caller.old)
            (P.number caller.old) (P.own caller.old) }
        ensures board { P.calls_on board.now caller.new }
        ensures opening { P.opening caller.new ≡ P.opening caller.old }
        ensures number { P.number caller.new ≡ P.number caller.old }
        ensures others { P.others caller.new ≡ P.others caller.old }
        ensures goes_on { (first : Self) → Self.may_begin first (callers_of board.now)
            (P.opening caller.old) (P.number caller.old) → so_far first self.old (P.opening caller.old)
            (P.number caller.old) (P.own caller.old) → MatchBool result
            (Self.has_done first self.new (P.opening caller.old) (P.number caller.old)
            (P.own caller.new)) (so_far first self.new (P.opening caller.old) (P.number caller.old)
            (P.own caller.new)) }
        ensures stepped { OnFalse result (has_stepped self.old (P.opening caller.old) (P.number caller.old)
            (P.own caller.old) (P.own caller.new)) };

    /// The place, among so many of these works, of the one that does what a call on this cell leaves to do. It is a
    /// hint, and may be any other number.
    fn server_of(cell: u32, works: usize) -> usize;

    /// A work that may begin was done so far by no call.
    ghost begun: { (work : Self) (callers : ℕ) (cells : List C.Cell) (caller : ℕ)
        → Self.may_begin work callers cells caller → so_far work work cells caller [] };
}

/// The work of main, the caller that waits for the others: it stops the flusher once the sessions have
/// ended, and the workers once the flusher has.
pub trait MainWork<C: Cells> {
    /// What has to hold before its first call: of the work, how many callers the board has, and the cells
    /// that it opened with.
    ghost may_begin: { Self → ℕ → List C.Cell → Type 0 };

    /// What it did once the sessions had ended: of the work before and after, how many callers the board
    /// has, the cells that it opened with, and the calls that main made.
    ghost has_stopped: { Self → Self → ℕ → List C.Cell → List (Event C.Call C.Answer) → Type 0 };

    /// What it did once the flusher had: of the work before and after, the cells that the board opened
    /// with, whether the sessions had begun, and main's calls before and after.
    ghost has_ended: { Self → Self → List C.Cell → Bool → List (Event C.Call C.Answer)
        → List (Event C.Call C.Answer) → Type 0 };

    /// Stops the flusher.
    fn stop_flusher<R: Wait, P: CellCaller<C>>(&mut self, rt: &R, board: &Board<C>, caller: &mut P)
        requires board { P.calls_on board.now caller.old }
        requires number { P.number caller.old ≡ 0 }
        requires fresh { P.own caller.old ≡ [] }
        requires may { may_begin self.old (callers_of board.now) (P.opening caller.old) }
        ensures board { P.calls_on board.now caller.new }
        ensures opening { P.opening caller.new ≡ P.opening caller.old }
        ensures number { P.number caller.new ≡ P.number caller.old }
        ensures others { P.others caller.new ≡ P.others caller.old }
        ensures stopped { has_stopped self.old self.new (callers_of board.now) (P.opening caller.old)
            (P.own caller.new) };

    /// Does what is left for main to do where the sessions had begun, and stops the workers.
    fn stop_workers<R: Wait, P: CellCaller<C>>(
        &mut self,
        rt: &R,
        board: &Board<C>,
        caller: &mut P,
        began: bool,
    )
        requires board { P.calls_on board.now caller.old }
        requires number { P.number caller.old ≡ 0 }
        requires stopped { (first : Self) × has_stopped first self.old (callers_of board.now)
            (P.opening caller.old) (P.own caller.old) }
        ensures board { P.calls_on board.now caller.new }
        ensures opening { P.opening caller.new ≡ P.opening caller.old }
        ensures number { P.number caller.new ≡ P.number caller.old }
        ensures others { P.others caller.new ≡ P.others caller.old }
        ensures ended { has_ended self.old self.new (P.opening caller.old) began (P.own caller.old)
            (P.own caller.new) };
}
