//! The register: the journal with its counters, the open snapshots and the open round.
ghost use Rattle.std.specs.Prelude.{◌≡◌, ℕ, ◌+◌, ◌^◌, ◌≤◌, [], None, Some, IfOk, OnErr};
ghost use Rattle.cube_journal.specs.declared.journal_entry.JournalEntry.TheVariants as entry;
ghost use Rattle.cube_journal.specs.Counters.{held_by, counters, lce};
ghost use Rattle.cube_journal.specs.Entries.{note_entry};
ghost use Rattle.cube_journal.specs.Legal.{CountersAllow, CountersAllowAll, HoldsReader, MayAskRound};
ghost use Rattle.cube_journal.specs.Order.{IsInOrder};
ghost use Rattle.linked_roll.specs.Members.{items};
ghost use Rattle.aosi_desk.specs.Holds.{Rise};
ghost use Rattle.aosi_desk.specs.State.{state_of, with_entry, writer_snapshot, reader_snapshot, IsWriting, round_answer, end_entry, after_begin, after_read, after_commit, after_abort, after_cube, after_answer};

use crate::answer::{RoundAnswer, RoundEnd};
use crate::fields::Fields;
use cube_journal::{
    AbortCause, Counters, JournalEntry, Note, OpenSnapshot, legal_journals_are_in_order,
    one_more_entry,
};
use cube_values::{EpochList, Snapshot};
use linked_roll::Roll;
use std::alloc::{AllocError, Global};
use std::marker::Model;

/// How many sessions there are at most.
pub const MOST_SESSIONS: u32 = 16;

/// The greatest holder number.
pub const MOST_HOLDERS: u32 = 48;

/// The journal with its counters. Contracts see the epoch that was safe when the run began, the number of
/// sessions, and the journal. Each call takes constant time, but what gives the pending epochs.
#[derive(Drop)]
pub struct Register {
    fields: Fields,
    sessions: u32,
    safe: u64,
}

impl Model for Register {
    ghost use Rattle.aosi_desk.specs.State.{RegisterState};

    ghost Value = { RegisterState };

    ghost use Rattle.aosi_desk.specs.Fits.{contents, FitsJournal, HasRoomFor};

    ghost view = { λ r. record {
      safe = r.safe;
      sessions = r.sessions;
      journal = r.fields.journal.items;
    } };

    ghost invariant = { λ r. FitsJournal (contents r.fields) r.sessions r.safe
        × HasRoomFor r.fields 0 };
}

impl Register {
    /// A register of a run that begins where all up to `safe` is kept. The only error is want of memory.
    pub fn new(alloc: Global, sessions: u32, safe: u64) -> Result<Register, AllocError>
        requires some { 1 ≤ sessions }
        requires most { sessions ≤ MOST_SESSIONS }
        requires safe { safe ≤ 2 ^ 61 }
        ensures { IfOk result (λ r. r ≡ record { safe = safe; sessions = sessions; journal = [] }) }
    {
        Ok(Register {
            fields: Fields::new(alloc, safe)?,
            sessions,
            safe,
        })
    }

    /// Opens the writer of a session. Its memory is also that of the entry that ends it.
    pub fn open_write(&mut self, session: u32, statement: u32) -> Result<Snapshot, AllocError>
        requires low { 1 ≤ session }
        requires high { session ≤ self.old.sessions }
        requires free { held_by (state_of self.old).snapshots session ≡ None }
        ensures snapshot { IfOk result (λ s. s ≡ writer_snapshot (state_of self.old)) }
        ensures journal { IfOk result (λ s. self.new ≡ after_begin self.old session statement s) }
        ensures same { OnErr result (self.new ≡ self.old) }
    {
        self.fields.reserve(2)?;
        one_more_entry();
        let snapshot = self.fields.next_writer();
        let bound = self.fields.lce();
        self.fields.begin(OpenSnapshot {
            session,
            bound,
            snapshot: snapshot.copy(),
        });
        self.fields.add(JournalEntry::Begin {
            session,
            statement,
            epoch: snapshot.epoch,
            deps: snapshot.deps.copy(),
        });
        Ok(snapshot)
    }

    /// Opens the reader of a session or a holder number. Its memory is also that of the entry that ends it.
    pub fn open_read(&mut self, session: u32, statement: u32) -> Result<Snapshot, AllocError>
        requires low { 1 ≤ session }
        requires high { session ≤ MOST_HOLDERS }
        requires free { held_by (state_of self.old).snapshots session ≡ None }
        ensures snapshot { IfOk result (λ s. s ≡ reader_snapshot (state_of self.old)) }
        ensures journal { IfOk result (λ s. self.new ≡ after_read self.old session statement s) }
        ensures same { OnErr result (self.new ≡ self.old) }
    {
        self.fields.reserve(2)?;
        one_more_entry();
        let epoch = self.fields.lce();
        let snapshot = Snapshot {
            epoch,
            deps: EpochList::new(),
            own: false,
        };
        self.fields.read(OpenSnapshot {
            session,
            bound: epoch,
            snapshot: snapshot.copy(),
        });
        self.fields.add(JournalEntry::Read {
            session,
            statement,
            epoch,
        });
        Ok(snapshot)
    }

    /// Ends the writer of a session; what it wrote stays.
    pub fn commit(&mut self, session: u32, statement: u32)
        requires { IsWriting (state_of self.old) session }
        ensures { self.new ≡ after_commit self.old session statement }
    {
        one_more_entry();
        let epoch = self.fields.end_writer(session);
        self.fields.add(JournalEntry::Committed {
            session,
            statement,
            epoch,
        });
    }

    /// Ends the writer of a session; nothing that it wrote stays.
    pub fn abort_end(&mut self, session: u32, statement: u32, cause: AbortCause)
        requires { IsWriting (state_of self.old) session }
        ensures { self.new ≡ after_abort self.old session statement cause }
    {
        one_more_entry();
        let epoch = self.fields.end_writer(session);
        self.fields.add(JournalEntry::Aborted {
            session,
            statement,
            epoch,
            cause,
        });
    }

    /// Ends the reader of a session or a holder number.
    pub fn close_read(&mut self, session: u32, statement: u32)
        requires { HoldsReader (state_of self.old) session }
        ensures { self.new ≡ with_entry self.old (entry.ReadEnd session statement) }
    {
        one_more_entry();
        self.fields.end_reader(session);
        self.fields
            .add(JournalEntry::ReadEnd { session, statement });
    }

    /// Adds the entry of a note, and gives the counters at its place.
    pub fn note(&mut self, note: &Note) -> Result<Counters, AllocError>
        requires { CountersAllow self.old.safe self.old.journal (note_entry note.now) }
        ensures counters { IfOk result (λ c. c ≡ counters self.old.safe self.old.journal) }
        ensures journal { IfOk result (λ c. self.new ≡ with_entry self.old (note_entry note.now)) }
        ensures same { OnErr result (self.new ≡ self.old) }
    {
        self.fields.reserve(1)?;
        one_more_entry();
        let counters = self.fields.counters();
        self.fields.add(note.entry());
        Ok(counters)
    }

    /// Takes an epoch that is finished at once, for a cube that is made.
    pub fn take_epoch(&mut self, session: u32, statement: u32) -> Result<u64, AllocError>
        requires { held_by (state_of self.old).snapshots session ≡ None }
        ensures epoch { IfOk result (λ epoch. epoch ≡ (state_of self.old).ec) }
        ensures journal { IfOk result (λ e. self.new ≡ after_cube self.old session statement e) }
        ensures same { OnErr result (self.new ≡ self.old) }
    {
        self.fields.reserve(1)?;
        one_more_entry();
        let epoch = self.fields.ec;
        self.fields.ec = epoch + 1;
        self.fields.add(JournalEntry::Cube {
            session,
            statement,
            epoch,
        });
        Ok(epoch)
    }

    /// Opens a round up to the target, where that is above the latest safe epoch. Its memory is also that of
    /// the entry that closes it.
    pub fn round_open(&mut self) -> Result<RoundAnswer, AllocError>
        requires { MayAskRound (state_of self.old) }
        ensures answer { IfOk result (λ answer. answer ≡ round_answer (state_of self.old)) }
        ensures journal { IfOk result (λ answer. self.new ≡ after_answer self.old answer) }
        ensures same { OnErr result (self.new ≡ self.old) }
    {
        self.fields.reserve(2)?;
        one_more_entry();
        legal_journals_are_in_order();
        let from = self.fields.lse;
        let epoch = self.fields.target();
        if epoch == from {
            self.fields.add(JournalEntry::Idle { epoch });
            return Ok(RoundAnswer::Nothing { epoch });
        }
        self.fields.round = Some(epoch);
        self.fields.add(JournalEntry::Round { epoch });
        Ok(RoundAnswer::Target { from, epoch })
    }

    /// Closes the open round.
    pub fn round_close(&mut self, epoch: u64, end: RoundEnd)
        requires { (state_of self.old).round ≡ Some epoch }
        ensures { self.new ≡ with_entry self.old (end_entry epoch end) }
    {
        one_more_entry();
        self.fields.close_round(epoch, end);
        let entry = match end {
            RoundEnd::Safe => JournalEntry::Safe { epoch },
            RoundEnd::Lost(cause) => JournalEntry::RoundLost { epoch, cause },
        };
        self.fields.add(entry);
    }

    /// The counters.
    pub fn counters(&self) -> Counters
        ensures { result ≡ counters self.now.safe self.now.journal }
    {
        self.fields.counters()
    }

    /// Whether a round was lost to the disk.
    pub fn store_failed(&self) -> bool
        ensures { result ≡ (state_of self.now).store_failed }
    {
        self.fields.store_failed
    }

    /// The journal.
    pub fn journal(&self) -> &[JournalEntry]
        ensures journal { result.now ≡ self.now.journal }
        ensures legal { CountersAllowAll self.now.safe [] self.now.journal }
    {
        self.fields.journal.as_slice()
    }

    /// Hands the journal out.
    pub fn into_journal(self) -> Vec<JournalEntry>
        ensures { result.items ≡ self.journal }
    {
        self.fields.journal
    }

    /// The open snapshots in the order of opening.
    pub fn open_roll(&self) -> &Roll<OpenSnapshot>
        ensures { items result.now.members ≡ (state_of self.now).snapshots }
    {
        &self.fields.snapshots
    }

    /// The pending epochs in the order of opening. They rise.
    pub fn pending_roll(&self) -> &Roll<u64>
        ensures items { items result.now.members ≡ (state_of self.now).pending }
        ensures rise { Rise 0 (items result.now.members) (state_of self.now).ec }
    {
        &self.fields.pending
    }

    /// A law: EC is above LCE; from LSE over the bounds of the open snapshots, in the order of opening, up to
    /// LCE no number falls; and the open round's target is not above them.
    pub fn is_in_order(&self)
        ensures { IsInOrder (state_of self.now) }
    {
        legal_journals_are_in_order();
        let _journal = self.fields.journal.as_slice();
    }
}
