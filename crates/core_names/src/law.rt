//! The laws of codes that a session's caller gives.

ghost use Rattle.std.specs.Prelude.{ℕ, List, [], ◌++◌, replicate, All};
ghost use Rattle.cube_journal.specs.declared.journal_entry.JournalEntry.{JournalEntry};
ghost use Rattle.cube_language.specs.declared.decl.Decl.{Decl};
ghost use Rattle.cube_language.specs.declared.decl.DimDecl.{DimDecl};
ghost use Rattle.cube_run.specs.RunRecords.{RunRecord};
ghost use Rattle.cube_values.specs.declared.row.CodedRow.{CodedRow};
ghost use Rattle.core_program.specs.Knowing.{IsClientOf, Knows};
ghost use Rattle.core_events.specs.Clients.{state_from_calls};
ghost use Rattle.core_events.specs.Fitting.{AreToldNames};
ghost use Rattle.core_names.specs.AskedNames.{GoOnByCopies, GoOnByNames};
ghost use Rattle.core_names.specs.CallsOnNames.{LeavesByNames};
ghost use Rattle.core_names.specs.KnownNumbers.{AreNumbersTold, HasToldNumber, TextsByDim};
ghost use Rattle.core_names.specs.NamesInTheEnd.{MayLeaveNames};
ghost use Rattle.core_states.specs.CorePasts.{CorePast};
ghost use Rattle.core_states.specs.OwnCalls.{OwnCallsLeave};
ghost use Rattle.core_states.specs.RunsFrom.{GoesOn};
ghost use Rattle.core_program.specs.CoreFits.{CoreEntry};
ghost use Rattle.core_states.specs.LeftBehind.{LeavesBehind};
ghost use Rattle.cube_core.specs.declared.cell.CoreCell.{CoreCell};
ghost use Rattle.known_cubes.specs.KnownCubes.{IsToldOfCube, OpenWithStorableCubes};
ghost use Rattle.session_snapshots.specs.KnownHolds.{HoldsTheSame};
ghost use Rattle.row_encoding.specs.CodedInserts.{HasNumbers};

use core_states::Besides;
use cube_core::LinkedShard;

/// What a session holds it still holds after calls on the names alone, and these leave no entries
/// in the journal.
pub fn names_calls_keep_what_is_held<S: LinkedShard>()
    ensures holds { (cells : List (CoreCell S)) (caller session : ℕ) (own now : List CoreEntry)
        → IsClientOf S.fits S.stands S.says cells caller session → GoOnByNames caller own now
        → HoldsTheSame S.fits S.stands S.says session cells caller own cells caller now }
    ensures entries { (cells : List (CoreCell S)) (caller session : ℕ)
        (own now : List CoreEntry) (entries : List JournalEntry)
        → IsClientOf S.fits S.stands S.says cells caller session → GoOnByNames caller own now
        → OwnCallsLeave S.fits S.stands S.says cells caller session own entries
        → OwnCallsLeave S.fits S.stands S.says cells caller session now entries }
{}

/// Calls on the names alone leave no entries, and those that copy names are plain calls, which leave
/// nothing behind them.
pub fn names_calls_leave_no_entries<S: LinkedShard>()
    ensures names { (cells : List (CoreCell S)) (caller session : ℕ) (own now : List CoreEntry)
        → IsClientOf S.fits S.stands S.says cells caller session → GoOnByNames caller own now
        → LeavesByNames S.fits S.stands S.says cells caller session own now }
    ensures copies { (cells : List (CoreCell S)) (caller session : ℕ) (own now : List CoreEntry)
        → IsClientOf S.fits S.stands S.says cells caller session → GoOnByCopies caller own now
        → LeavesBehind S.fits S.stands S.says cells caller session own now [] }
{}

/// The numbers that were given are those of names that the session was told of, so that it may put
/// rows that have them.
pub fn given_numbers_may_be_put<S: LinkedShard>()
    ensures { (cells : List (CoreCell S)) (caller session : ℕ) (own : List CoreEntry)
        (name : List ℕ) (place : ℕ) (d : Decl) (rows : List CodedRow)
        → IsClientOf S.fits S.stands S.says cells caller session
        → OpenWithStorableCubes S.fits S.stands S.says cells → IsToldOfCube own name place d
        → All (HasNumbers (HasToldNumber own place) d) rows
        → Knows S.fits S.stands S.says cells caller session own (λ o calls.
        All (λ row. AreToldNames o place (state_from_calls o session calls) row.coords) rows) }
{}

/// The names on record of a run that goes on from what is behind a session are among those that its
/// own calls may leave.
pub fn runs_may_leave_their_names<S: LinkedShard, B: Besides>()
    ensures { (asked : B) (cells : List (CoreCell S)) (caller session : ℕ) (past : CorePast) (run : RunRecord)
        → GoesOn S.fits S.stands S.says cells caller session (B.claim asked) past run
        → MayLeaveNames S.fits S.stands S.says cells caller past.own run.names }
{}

/// Where no text is known the numbers of all that are known were told, and what was told stays told.
pub fn known_numbers_stay_told()
    ensures none { (own : List CoreEntry) (place count : ℕ) (dims : List DimDecl)
        → AreNumbersTold own place dims (replicate count []) }
    ensures later { (own more : List CoreEntry) (place : ℕ) (dims : List DimDecl)
        (known : TextsByDim) → AreNumbersTold own place dims known
        → AreNumbersTold (own ++ more) place dims known }
{}
