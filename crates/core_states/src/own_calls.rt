//! The laws of what a client's own calls leave in the journal.

ghost use Rattle.std.specs.Prelude.{ℕ, List, [], ◌∷◌, ◌++◌};
ghost use Rattle.core_program.specs.ClientCalls.{HasFetched, ask_entry, desk_entry, names_entry, post_entry};
ghost use Rattle.core_cells.specs.declared.desk.DeskAnswer.{DeskAnswer};
ghost use Rattle.core_cells.specs.declared.desk.DeskCall.{DeskCall};
ghost use Rattle.core_cells.specs.declared.desk.DeskCall.TheVariants as call;
ghost use Rattle.core_cells.specs.declared.names.NamesAnswer.{NamesAnswer};
ghost use Rattle.core_cells.specs.declared.names.NamesCall.{NamesCall};
ghost use Rattle.core_program.specs.Knowing.{IsClientOf, IsMailAt};
ghost use Rattle.core_states.specs.CorePasts.{nothing_behind};
ghost use Rattle.core_states.specs.OwnCalls.{KnowsEnd, OwnCallsLeave, Tells, desk_leaves};
ghost use Rattle.core_program.specs.CoreFits.{CoreEntry};
ghost use Rattle.cube_core.specs.declared.cell.CoreCell.{CoreCell};
ghost use Rattle.cube_core.specs.declared.jobs.Job.{Job};
ghost use Rattle.cube_core.specs.declared.jobs.JobAnswer.{JobAnswer};
ghost use Rattle.cube_journal.specs.declared.journal_entry.AbortCause.{AbortCause};
ghost use Rattle.cube_journal.specs.declared.journal_entry.JournalEntry.{JournalEntry};
ghost use Rattle.cube_values.specs.declared.snapshot.Snapshot.{Snapshot};
ghost use Rattle.session_snapshots.specs.KnownHolds.{HoldsRolledBack, HoldsWriter};
ghost use Rattle.mail_cell.specs.declared.answer.Fetched.{Fetched};

use cube_core::LinkedShard;

/// Before its first call a session has left nothing. With one call more on the desk a client's own calls have left what
/// that call leaves besides, and no more.
pub fn desk_calls_leave_entries<S: LinkedShard>()
    ensures none { (cells : List (CoreCell S)) (caller client : ℕ)
        → Tells S.fits S.stands S.says cells caller client nothing_behind }
    ensures desk { (cells : List (CoreCell S)) (caller client : ℕ) (own : List CoreEntry)
        (entries : List JournalEntry) (epoch : ℕ) (c : DeskCall) (said : DeskAnswer)
        → IsClientOf S.fits S.stands S.says cells caller client
        → OwnCallsLeave S.fits S.stands S.says cells caller client own entries
        → KnowsEnd S.fits S.stands S.says cells caller client own epoch c
        → OwnCallsLeave S.fits S.stands S.says cells caller client
        (own ++ desk_entry caller c said ∷ []) (entries ++ desk_leaves client epoch c said) }
{}

/// A session that holds a writer, also one that every shard has taken back, knows the epoch at which a call ends it.
pub fn writers_know_their_epochs<S: LinkedShard>()
    ensures commit { (cells : List (CoreCell S)) (caller session number statement : ℕ)
        (own : List CoreEntry) (s : Snapshot)
        → HoldsWriter S.fits S.stands S.says cells caller session own s
        → KnowsEnd S.fits S.stands S.says cells caller session own s.epoch
        (call.Commit number statement) }
    ensures abort { (cells : List (CoreCell S)) (caller session number statement : ℕ)
        (cause : AbortCause) (own : List CoreEntry) (s : Snapshot)
        → HoldsRolledBack S.fits S.stands S.says cells caller session own s
        → KnowsEnd S.fits S.stands S.says cells caller session own s.epoch
        (call.AbortEnd number statement cause) }
{}

/// Calls on the names and on mails leave no entries.
pub fn calls_leave_no_entries<S: LinkedShard>()
    ensures names { (cells : List (CoreCell S)) (caller client : ℕ) (own : List CoreEntry)
        (entries : List JournalEntry) (c : NamesCall) (said : NamesAnswer)
        → IsClientOf S.fits S.stands S.says cells caller client
        → OwnCallsLeave S.fits S.stands S.says cells caller client own entries
        → OwnCallsLeave S.fits S.stands S.says cells caller client
        (own ++ names_entry caller c said ∷ []) entries }
    ensures post { (cells : List (CoreCell S)) (caller client number cell : ℕ)
        (own : List CoreEntry) (entries : List JournalEntry) (job : Job)
        → IsClientOf S.fits S.stands S.says cells caller client
        → IsMailAt S.fits S.stands S.says cells number cell
        → OwnCallsLeave S.fits S.stands S.says cells caller client own entries
        → OwnCallsLeave S.fits S.stands S.says cells caller client
        (own ++ post_entry caller client cell job ∷ []) entries }
    ensures ask { (cells : List (CoreCell S)) (caller client number cell : ℕ)
        (own : List CoreEntry) (entries : List JournalEntry) (fetched : Fetched JobAnswer)
        → IsClientOf S.fits S.stands S.says cells caller client
        → IsMailAt S.fits S.stands S.says cells number cell
        → OwnCallsLeave S.fits S.stands S.says cells caller client own entries
        → OwnCallsLeave S.fits S.stands S.says cells caller client
        (own ++ ask_entry caller client cell fetched ∷ []) entries }
    ensures fetch { (cells : List (CoreCell S)) (caller client number cell : ℕ)
        (own now : List CoreEntry) (entries : List JournalEntry) (said : JobAnswer)
        → IsClientOf S.fits S.stands S.says cells caller client
        → IsMailAt S.fits S.stands S.says cells number cell
        → OwnCallsLeave S.fits S.stands S.says cells caller client own entries
        → HasFetched caller client cell said own now
        → OwnCallsLeave S.fits S.stands S.says cells caller client now entries }
{}
