//! The law of scripts that were read.
ghost use Rattle.std.specs.Global.{Vec};
ghost use Rattle.std.specs.List.{AllByRecursion};
ghost use Rattle.std.specs.Prelude.{◌≤◌, ℕ, All, List, length};
ghost use Rattle.cube_language.specs.declared.piece.TheConstants.{MOST_STATEMENTS};
ghost use Rattle.run_files.specs.RunFiles.{FileReading, RunFile};
ghost use Rattle.run_inputs.specs.ReadInputs.{GiveScripts};
ghost use Rattle.script_sentences.specs.declared.said.Said.{Said};
ghost use Rattle.script_sentences.specs.GivenTexts.{MayBeSaid};

/// What the texts of scripts say, as their files give it, may be given to sessions, where there are no more texts than
/// may be.
pub fn scripts_that_were_read_may_be_given()
    ensures { (names : List (List ℕ)) (reading : RunFile → FileReading) (scripts : Vec (Vec Said))
        → GiveScripts names reading scripts
        → All (λ said. length said.items ≤ MOST_STATEMENTS) scripts.items
        → AllByRecursion MayBeSaid scripts.items }
{}
