//! The law of the moment from which names are copied.

ghost use Rattle.std.specs.Prelude.{ℕ, List};
ghost use Rattle.copied_names.specs.CopiedNames.{IsMomentAfter};
ghost use Rattle.core_program.specs.Knowing.{IsLaterRun};
ghost use Rattle.core_events.specs.Events.{CoreEvent, Opening};
ghost use Rattle.core_program.specs.CoreFits.{CoreEntry};
ghost use Rattle.cube_core.specs.declared.cell.CoreCell.{CoreCell};

use cube_core::LinkedShard;

/// Each run that goes on from a caller's calls passes the moment at which it has made just these.
pub fn runs_pass_the_moment_after_calls<S: LinkedShard>()
    ensures { (cells : List (CoreCell S)) (o : Opening) (caller : ℕ) (own log : List CoreEntry)
        (run : List CoreEvent) → IsLaterRun S.fits S.stands S.says cells o caller own log run
        → (es : List CoreEvent)
        × IsMomentAfter S.fits S.stands S.says cells o caller own log run es }
{}
