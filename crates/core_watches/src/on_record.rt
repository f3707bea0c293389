//! The laws of WATCH and SHOW WATCH.

ghost use Rattle.std.specs.Prelude.{◌≡◌, ℕ, ◌+◌, true, List, None, Option, Some};
ghost use Rattle.core_watches.specs.WatchEnds.{EndsShow, EndsWatch, HasFoundCube, WatchesCube};
ghost use Rattle.core_program.specs.CoreFits.{CoreEntry};
ghost use Rattle.core_states.specs.declared.session.CoreSession.{CoreSession};
ghost use Rattle.cube_core.specs.declared.cell.CoreCell.{CoreCell};
ghost use Rattle.cube_journal.specs.declared.reply.Reply.{Reply};
ghost use Rattle.cube_language.specs.declared.decl.Decl.{Decl};
ghost use Rattle.cube_language.specs.declared.statement.Statement.{Statement};
ghost use Rattle.cube_language.specs.declared.statement.Statement.TheVariants as asked;
ghost use Rattle.cube_run.specs.RunRecords.{Says};
ghost use Rattle.cube_run.specs.SessionStates.{KeptWatch};
ghost use Rattle.cube_run.specs.StatementEntries.{is_watch};
ghost use Rattle.cube_run.specs.StepOutcomes.{refused_by_mode};
ghost use Rattle.linked_shards.specs.declared.cell.CoreShard.{CoreShard};
ghost use Rattle.scripted_pasts.specs.Performed.{WhateverFile};
ghost use Rattle.scripted_pasts.specs.Served.{PerformsOverShards};
ghost use Rattle.session_replies.specs.Modes.{mode_of};

/// A WATCH that its session's mode does not refuse, of a session without a watch, is performed, however it ends
/// once its cube is found. Where it is done, in each run of scripts its reply has the answer over what the reader
/// sees.
pub fn watches_are_performed()
    ensures { (cells : List (CoreCell CoreShard)) (caller place : ℕ) (old new : CoreSession)
        (s : Statement) (d : Decl) (own found now : List CoreEntry) (kept : Option KeptWatch)
        (said : Reply) → is_watch s ≡ true → refused_by_mode (mode_of old.mode) s ≡ None
        → new ≡ record old { statements = old.statements + 1 }
        → HasFoundCube cells caller old.number (old.statements + 1) s place d own found
        → EndsWatch cells caller new s d found now kept said
        → PerformsOverShards cells caller WhateverFile (Says s) old None own new kept now said }
{}

/// A SHOW WATCH that its session's mode does not refuse, of a session with a watch, is performed, however it
/// ends. Where it is done, in each run of scripts its reply has the answer to the WATCH over what the newer reader
/// sees.
pub fn shows_are_performed()
    ensures { (cells : List (CoreCell CoreShard)) (caller place : ℕ) (old new : CoreSession)
        (d : Decl) (own now : List CoreEntry) (kept next : KeptWatch) (said : Reply)
        → refused_by_mode (mode_of old.mode) asked.ShowWatch ≡ None
        → new ≡ record old { statements = old.statements + 1 }
        → WatchesCube kept.asked place d own
        → EndsShow cells caller new kept d own now next said
        → PerformsOverShards cells caller WhateverFile (Says asked.ShowWatch) old (Some kept) own
        new (Some next) now said }
{}
