//! Refusals at the desk.

ghost use Rattle.std.specs.Prelude.{◌≡◌, ◌≢◌, false, OnOk, OnErr, None};
ghost use Rattle.cube_journal.specs.Refusals.{code};
ghost use Rattle.cube_journal.specs.declared.journal_entry.JournalEntry.TheVariants as entry;
ghost use Rattle.cube_journal.specs.declared.reply.Reply.TheVariants as reply;
ghost use Rattle.aosi_desk.specs.Desks.{desk_with_entry, is_cube_code, opening_of};
ghost use Rattle.session_desk.specs.Executed.{IfReplied, OnStopped};
ghost use Rattle.session_desk.specs.FileReplies.{IsRefusedUnread, SpeaksOfNoFile};
ghost use Rattle.session_desk.specs.Moves.{MovesOn};

use crate::answered::Answered;
use crate::session::SESSION;
use aosi_desk::Desk;
use cube_journal::{Note, Refusal, Reply};
use std::alloc::AllocError;

/// Adds the entry of a refusal that neither the list of cubes nor the store is the cause of. The only error is
/// out of memory.
pub(crate) fn note_refusal(desk: &mut Desk, statement: u32, code: u32) -> Result<(), AllocError>
    requires cubes { is_cube_code code ≡ false }
    requires store { code ≢ 17 }
    ensures opening { opening_of desk.new ≡ opening_of desk.old }
    ensures desk { OnOk result (desk.new
        ≡ desk_with_entry desk.old (entry.Refused 1 statement code)) }
    ensures same { OnErr result (desk.new ≡ desk.old) }
    ensures moves { MovesOn None desk.old desk.new }
{
    let _counters = desk.note(&Note::Refused {
        session: SESSION,
        statement,
        code,
    })?;
    Ok(())
}

/// Adds the entry of a refusal that neither the list of cubes nor the store is the cause of, and answers it.
pub fn refuse(desk: &mut Desk, statement: u32, refusal: Refusal) -> Answered
    requires cubes { is_cube_code (code refusal) ≡ false }
    requires store { code refusal ≢ 17 }
    ensures opening { opening_of desk.new ≡ opening_of desk.old }
    ensures said { IfReplied result (λ said. said ≡ reply.Refused refusal) }
    ensures desk { IfReplied result (λ said. desk.new
        ≡ desk_with_entry desk.old (entry.Refused 1 statement (code refusal))) }
    ensures same { OnStopped result (desk.new ≡ desk.old) }
    ensures no_file { SpeaksOfNoFile (reply.Refused refusal) → IfReplied result SpeaksOfNoFile }
    ensures unread { SpeaksOfNoFile (reply.Refused refusal) → IfReplied result IsRefusedUnread }
    ensures cubes { desk.new.cubes ≡ desk.old.cubes }
    ensures moves { MovesOn None desk.old desk.new }
{
    match note_refusal(desk, statement, refusal.code()) {
        Ok(()) => Answered::Replied(Reply::Refused { refusal }),
        Err(_) => Answered::Stopped,
    }
}
