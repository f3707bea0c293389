//! The law of the flusher before its first call.

ghost use Rattle.std.specs.Prelude.{ℕ, List, [], false};
ghost use Rattle.core_program.specs.Flushing.{KnowsPart};
ghost use Rattle.cube_core.specs.declared.cell.CoreCell.{CoreCell};
ghost use Rattle.flusher_mail.specs.FlusherMail.{HasNoFlush};

use cube_core::LinkedShard;

/// Before its first call the flusher has no FLUSH in hand and no round, and has not lost the store.
pub fn the_flusher_begins_free<S: LinkedShard>()
    ensures { (cells : List (CoreCell S)) (caller : ℕ)
        → KnowsPart S.fits S.stands S.says cells caller [] (HasNoFlush false) }
{}
