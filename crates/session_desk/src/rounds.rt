//! Rounds without a store: nothing is written, and LSE advances all the same.

ghost use Rattle.std.specs.Prelude.{◌≡◌, true, None, OnOk, OnErr};
ghost use Rattle.std.specs.Bool.{OnTrue};
ghost use Rattle.cube_journal.specs.Legal.{MayAskRound, WasFlushed, WasSafe};
ghost use Rattle.aosi_desk.specs.State.{state_of};
ghost use Rattle.cube_journal.specs.declared.journal_entry.JournalEntry.TheVariants as entry;
ghost use Rattle.aosi_desk.specs.Desks.{desk_with_entry, opening_of};
ghost use Rattle.session_desk.specs.AtDesk.{KeepsServing, desk_with_entries};
ghost use Rattle.session_desk.specs.Entries.{HasFollowed, HasNotes, round_entries};
ghost use Rattle.session_desk.specs.Moves.{MovesOn};

use crate::refusing::note_refusal;
use crate::session::SESSION;
use aosi_desk::{Desk, RoundAnswer, RoundEnd};
use cube_journal::{Note, Refusal};
use std::alloc::AllocError;

/// Makes a round up to the target, if there is anything to keep. The only error is out of memory.
pub(crate) fn make_round(desk: &mut Desk) -> Result<(), AllocError>
    requires { MayAskRound (state_of desk.old.register) }
    ensures opening { opening_of desk.new ≡ opening_of desk.old }
    ensures made { OnOk result (desk.new
        ≡ desk_with_entries desk.old (round_entries (state_of desk.old.register))) }
    ensures same { OnErr result (desk.new ≡ desk.old) }
    ensures cubes { desk.new.cubes ≡ desk.old.cubes }
    ensures moves { MovesOn None desk.old desk.new }
{
    match desk.round_open()? {
        RoundAnswer::Nothing { .. } => {}
        RoundAnswer::Target { epoch, .. } => desk.round_close(epoch, RoundEnd::Safe),
    }
    Ok(())
}

/// Notes the refusal for want of memory. False where the journal has no memory for that.
fn note_no_memory(desk: &mut Desk, statement: u32) -> bool
    ensures opening { opening_of desk.new ≡ opening_of desk.old }
    ensures noted { OnTrue result (desk.new
        ≡ desk_with_entry desk.old (entry.Refused 1 statement 16)) }
    ensures kept { KeepsServing desk.old desk.new }
    ensures moves { MovesOn None desk.old desk.new }
{
    match note_refusal(desk, statement, Refusal::NoMemory.code()) {
        Ok(()) => true,
        Err(_) => false,
    }
}

/// Notes a purge at the latest safe epoch. False where the journal has no memory for it.
fn note_purge(desk: &mut Desk, statement: u32, epoch: u64) -> bool
    requires { WasSafe desk.old.register.safe 1 epoch desk.old.register.journal }
    ensures opening { opening_of desk.new ≡ opening_of desk.old }
    ensures noted { OnTrue result (desk.new
        ≡ desk_with_entry desk.old (entry.Purged 1 statement epoch)) }
    ensures kept { KeepsServing desk.old desk.new }
    ensures moves { MovesOn None desk.old desk.new }
{
    let purged = Note::Purged {
        session: SESSION,
        statement,
        epoch,
    };
    match desk.note(&purged) {
        Ok(_) => true,
        Err(_) => false,
    }
}

/// Notes what FLUSH and then PURGE note, once a round is made. False where the journal has no memory for it.
fn note_round(desk: &mut Desk, statement: u32) -> bool
    requires { WasFlushed 1 desk.old.register.journal }
    ensures opening { opening_of desk.new ≡ opening_of desk.old }
    ensures noted { OnTrue result (HasNotes statement desk.old desk.new) }
    ensures kept { KeepsServing desk.old desk.new }
    ensures moves { MovesOn None desk.old desk.new }
{
    let flushed = Note::Flushed {
        session: SESSION,
        statement,
    };
    match desk.note(&flushed) {
        Ok(counters) => note_purge(desk, statement, counters.lse),
        Err(_) => false,
    }
}

/// Does what FLUSH and then PURGE do, after a commit. False where the journal has no memory for a note.
fn round_after_commit(desk: &mut Desk, statement: u32) -> bool
    requires { MayAskRound (state_of desk.old.register) }
    ensures opening { opening_of desk.new ≡ opening_of desk.old }
    ensures followed { OnTrue result (HasFollowed statement true desk.old desk.new) }
    ensures kept { KeepsServing desk.old desk.new }
    ensures moves { MovesOn None desk.old desk.new }
{
    match make_round(desk) {
        Ok(()) => note_round(desk, statement),
        Err(_) => note_no_memory(desk, statement),
    }
}

/// Does so where a round is due. False where the journal has no memory for a note.
pub fn follow_commit(desk: &mut Desk, statement: u32, is_due: bool) -> bool
    requires { MayAskRound (state_of desk.old.register) }
    ensures opening { opening_of desk.new ≡ opening_of desk.old }
    ensures followed { OnTrue result (HasFollowed statement is_due desk.old desk.new) }
    ensures kept { KeepsServing desk.old desk.new }
    ensures moves { MovesOn None desk.old desk.new }
{
    if is_due {
        round_after_commit(desk, statement)
    } else {
        true
    }
}
