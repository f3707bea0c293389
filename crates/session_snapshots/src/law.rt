//! The law of plain notes.

ghost use Rattle.std.specs.Prelude.{ℕ, List};
ghost use Rattle.cube_journal.specs.declared.note.Note.{Note};
ghost use Rattle.core_program.specs.CoreFits.{CoreEntry};
ghost use Rattle.cube_core.specs.declared.cell.CoreCell.{CoreCell};
ghost use Rattle.session_snapshots.specs.SessionCalls.{IsPlainNote, MayLeaveNote};

use cube_core::LinkedShard;

/// A session may leave a plain note whatever it knows.
pub fn plain_notes_are_allowed<S: LinkedShard>()
    ensures { (cells : List (CoreCell S)) (caller session : ℕ) (own : List CoreEntry)
        (note : Note) → IsPlainNote session note
        → MayLeaveNote S.fits S.stands S.says cells caller session own note }
{}
