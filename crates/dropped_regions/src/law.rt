//! The law of boxes in later runs.

ghost use Rattle.std.specs.Prelude.{ℕ, List};
ghost use mathlib.Core.List.{IsPrefix};
ghost use Rattle.core_program.specs.CoreFits.{CoreEntry};
ghost use Rattle.cube_core.specs.declared.cell.CoreCell.{CoreCell};
ghost use Rattle.cube_language.specs.declared.decl.Decl.{Decl};
ghost use Rattle.cube_language.specs.declared.statement.Statement.{Statement};
ghost use Rattle.cube_values.specs.declared.span.Span.{Span};
ghost use Rattle.dropped_regions.specs.DeleteBoxes.{IsBoxOf};

use cube_core::LinkedShard;

/// The box of a DELETE is that after more calls of the session.
pub fn boxes_stay_after_calls<S: LinkedShard>()
    ensures { (cells : List (CoreCell S)) (caller place : ℕ) (own now : List CoreEntry) (d : Decl)
        (s : Statement) (box : Span) → IsPrefix own now
        → IsBoxOf S.fits S.stands S.says cells caller own place d s box
        → IsBoxOf S.fits S.stands S.says cells caller now place d s box }
{}
