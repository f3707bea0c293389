//! The law of scripts that are played statement by statement.

ghost use Rattle.std.specs.Prelude.{◌≡◌, ℕ, ◌+◌, List, [], ◌∷◌, ◌++◌, length, Option, None};
ghost use Rattle.core_program.specs.CoreFits.{CoreEntry};
ghost use Rattle.core_states.specs.ExecutedInCore.{HasOneMore};
ghost use Rattle.core_states.specs.StandingInCore.{state_of_session};
ghost use Rattle.core_states.specs.declared.session.CoreSession.{CoreSession};
ghost use Rattle.cube_core.specs.declared.cell.CoreCell.{CoreCell};
ghost use Rattle.cube_journal.specs.declared.reply.Reply.{Reply};
ghost use Rattle.cube_run.specs.RunRecords.{LoadedFile, Sentence};
ghost use Rattle.cube_run.specs.SessionStates.{KeptWatch, fresh_session};
ghost use Rattle.scripted_pasts.specs.Performed.{Performs, WhateverFile};
ghost use Rattle.scripted_pasts.specs.PlayedScripts.{HasPlayedScript};
ghost use Rattle.scripted_pasts.specs.QuietCalls.{LeavesQuietly};

use crate::files::KnowsFiles;
use cube_core::LinkedShard;

/// A session that is fresh and has made no call has played nothing. With a statement that it performs it has played one
/// more. Quiet calls that leave no entry change nothing of what it has played. A statement that is performed with
/// whatever file is performed with one of which something is known that is so of each file.
pub fn scripts_are_played<S: LinkedShard, F: KnowsFiles>()
    ensures none { (known : F) (cells : List (CoreCell S)) (caller : ℕ) (session : CoreSession)
        → state_of_session session None ≡ fresh_session → session.statements ≡ 0
        → HasPlayedScript S.fits S.stands S.says cells caller (F.is_file known) session None [] []
        [] }
    ensures next { (known : F) (cells : List (CoreCell S)) (caller : ℕ) (old new : CoreSession)
        (watch kept : Option KeptWatch) (own now : List CoreEntry) (script : List Sentence)
        (replies : List Reply) (sentence : Sentence) (said : Reply) → HasOneMore old new
        → HasPlayedScript S.fits S.stands S.says cells caller (F.is_file known) old watch own script
        replies
        → Performs S.fits S.stands S.says cells caller
        (F.is_file known (length script + 1) sentence said) sentence old watch own new kept now said
        → HasPlayedScript S.fits S.stands S.says cells caller (F.is_file known) new kept now
        (script ++ sentence ∷ []) (replies ++ said ∷ []) }
    ensures whatever { (known : F) (cells : List (CoreCell S)) (caller number : ℕ)
        (old new : CoreSession) (watch kept : Option KeptWatch) (own now : List CoreEntry)
        (sentence : Sentence) (said : Reply)
        → ((file : LoadedFile) → F.is_file known number sentence said file)
        → Performs S.fits S.stands S.says cells caller WhateverFile sentence old watch own new kept
        now said
        → Performs S.fits S.stands S.says cells caller (F.is_file known number sentence said)
        sentence old watch own new kept now said }
    ensures stays { (known : F) (cells : List (CoreCell S)) (caller : ℕ) (session : CoreSession)
        (watch : Option KeptWatch) (own now : List CoreEntry) (script : List Sentence)
        (replies : List Reply)
        → LeavesQuietly S.fits S.stands S.says cells caller session.number own now []
        → HasPlayedScript S.fits S.stands S.says cells caller (F.is_file known) session watch own
        script replies
        → HasPlayedScript S.fits S.stands S.says cells caller (F.is_file known) session watch now
        script replies }
{}
