//! The laws of a SELECT, over every run of scripts that goes on from it.

ghost use Rattle.std.specs.Prelude.{◌≡◌, ℕ, ◌+◌, true, List, None};
ghost use mathlib.Core.List.{IsPrefix};
ghost use Rattle.core_selects.specs.ReadingCalls.{GoesOnByReading};
ghost use Rattle.core_selects.specs.SelectEnds.{EndsSelect, HasFoundCube};
ghost use Rattle.core_cubes.specs.StatementCalls.{IsCallFor};
ghost use Rattle.core_program.specs.CoreFits.{CoreEntry};
ghost use Rattle.core_states.specs.LeftBehind.{GoOnByCalls, IsPlainCall};
ghost use Rattle.core_states.specs.declared.session.CoreSession.{CoreSession};
ghost use Rattle.cube_core.specs.declared.cell.CoreCell.{CoreCell};
ghost use Rattle.cube_journal.specs.declared.reply.Reply.{Reply};
ghost use Rattle.cube_language.specs.declared.decl.Decl.{Decl};
ghost use Rattle.cube_language.specs.declared.statement.Statement.{Statement};
ghost use Rattle.cube_run.specs.StatementEntries.{is_select};
ghost use Rattle.cube_run.specs.StepOutcomes.{refused_by_mode};
ghost use Rattle.linked_shards.specs.CellShards.{CoreShardStands};
ghost use Rattle.shard_events.specs.ShardsInRuns.{FitsShard, ShardAnswerSays};
ghost use Rattle.linked_shards.specs.declared.cell.CoreShard.{CoreShard};
ghost use Rattle.scripted_pasts.specs.Performed.{WhateverFile};
ghost use Rattle.scripted_pasts.specs.Served.{IsServed, LeavesItsWatch, PerformsWatchedOverShards};
ghost use Rattle.session_replies.specs.Modes.{mode_of};

/// A SELECT that neither mode nor watch refuses is performed, however it ends once its cube is found. In each run of
/// scripts its lines are the first, as it asks for them, of its answer over the rows that its snapshot sees: a reader's,
/// or those of the open transaction with what that has done so far.
pub fn selects_are_performed()
    ensures { (cells : List (CoreCell CoreShard)) (caller shards place : ℕ)
        (old new : CoreSession) (s : Statement) (d : Decl) (own found now : List CoreEntry)
        (said : Reply) → IsServed cells caller old.number shards → is_select s ≡ true
        → refused_by_mode (mode_of old.mode) s ≡ None
        → new ≡ record old { statements = old.statements + 1 }
        → HasFoundCube cells caller old.number (old.statements + 1) s place d own found
        → EndsSelect cells caller new s place d found now said
        → PerformsWatchedOverShards cells caller WhateverFile s old own new now said }
{}

/// Calls that read leave the session's watch as it is, and so do those of a statement that neither open nor close a
/// reader.
pub fn calls_leave_the_watch()
    ensures reading { (cells : List (CoreCell CoreShard)) (caller session : ℕ)
        (own now : List CoreEntry) → GoesOnByReading cells caller session own now
        → LeavesItsWatch cells caller session own now }
    ensures statement { (cells : List (CoreCell CoreShard)) (caller session number : ℕ)
        (s : Statement) (own now : List CoreEntry)
        → GoOnByCalls FitsShard CoreShardStands ShardAnswerSays cells caller session
        (IsCallFor number s) own now → LeavesItsWatch cells caller session own now }
{}

/// Plain calls are calls that read, and calls that read go on by more of them.
pub fn reading_calls_go_on()
    ensures plain { (cells : List (CoreCell CoreShard)) (caller session : ℕ)
        (own now : List CoreEntry)
        → GoOnByCalls FitsShard CoreShardStands ShardAnswerSays cells caller session IsPlainCall
        own now → GoesOnByReading cells caller session own now }
    ensures more { (cells : List (CoreCell CoreShard)) (caller session : ℕ)
        (own mid now : List CoreEntry) → IsPrefix mid now
        → GoesOnByReading cells caller session own mid
        → GoesOnByReading cells caller session mid now
        → GoesOnByReading cells caller session own now }
{}
