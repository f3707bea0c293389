//! The law of texts that a session was told of.

ghost use Rattle.std.specs.Prelude.{List};
ghost use mathlib.Core.List.{IsPrefix};
ghost use Rattle.core_program.specs.CoreFits.{CoreEntry};
ghost use Rattle.session_texts.specs.ToldTexts.{AreTextsTold, KeptTexts};

/// What was told of cubes and texts stays told with more calls.
pub fn told_texts_stay_told()
    ensures { (own now : List CoreEntry) (kept : KeptTexts) → IsPrefix own now
        → AreTextsTold own kept → AreTextsTold now kept }
{}
