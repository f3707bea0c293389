//! The law of answers.

ghost use Rattle.std.specs.Prelude.{ℕ, List, [], ◌∷◌, ◌++◌};
ghost use Rattle.board_callers.specs.Callers.{HasHistoryOf};
ghost use Rattle.core_program.specs.AnswersOfCalls.{CoreAnswers, HaveAnswers};
ghost use Rattle.core_program.specs.CoreFits.{CoreEntry, FitsOwnCalls};
ghost use Rattle.cube_core.specs.CoreSteps.{CoreStep};
ghost use Rattle.cube_core.specs.declared.cell.CoreCell.{CoreCell};

use cube_core::LinkedShard;

/// Each call that a caller made has an answer that it may have, and so has the last.
pub fn answers_fit_their_calls<S: LinkedShard>()
    ensures all { (cells : List (CoreCell S)) (caller : ℕ) (own : List CoreEntry)
        → HasHistoryOf (CoreStep S.step) (FitsOwnCalls S.fits S.stands S.says) cells caller own
        → HaveAnswers own }
    ensures last { (own : List CoreEntry) (e : CoreEntry) → HaveAnswers (own ++ e ∷ [])
        → CoreAnswers e.call e.answer }
{}
