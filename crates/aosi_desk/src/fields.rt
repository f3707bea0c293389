//! The fields of a register, with calls that change some of them. The register says how they agree.
ghost use Rattle.std.specs.Prelude.{◌≡◌, ◌+◌, ◌<◌, ◌≤◌, ◌^◌, true, false, OnOk, IfOk, length, vec_capacity, replicate};
ghost use Rattle.linked_roll.specs.Members.{items};
ghost use Rattle.aosi_desk.specs.Holds.{hold_of, is_writer, is_reader, Rise};
ghost use Rattle.aosi_desk.specs.declared.hold.Hold.TheVariants.{Free};
ghost use Rattle.aosi_desk.specs.Fits.{contents, lce_of, target_of, next_snapshot, with_last, HasTickets, HasRoomFor, opening_contents, counters_of, without_round, BeginsSnapshot, Reads, EndsWriter, EndsReader};

use crate::answer::RoundEnd;
use crate::counted::{push, remove};
use crate::hold::Hold;
use cube_journal::{Counters, JournalEntry, LostCause, OpenSnapshot};
use cube_values::{EpochList, Snapshot};
use linked_roll::Roll;
use std::alloc::{AllocError, Global};

/// What a register keeps.
#[derive(Drop)]
pub(crate) struct Fields {
    pub(crate) journal: Vec<JournalEntry>,
    pub(crate) ec: u64,
    pub(crate) lse: u64,
    /// The open snapshots in the order of opening.
    pub(crate) snapshots: Roll<OpenSnapshot>,
    /// The pending epochs in the order of opening.
    pub(crate) pending: Roll<u64>,
    /// What each session and holder number holds.
    pub(crate) holds: Vec<Hold>,
    /// The target of the open round.
    pub(crate) round: Option<u64>,
    pub(crate) store_failed: bool,
}

impl Fields {
    /// The fields of an empty journal.
    pub(crate) fn new(alloc: Global, safe: u64) -> Result<Fields, AllocError>
        requires { safe ≤ 2 ^ 61 }
        ensures { IfOk result (λ f. contents f ≡ opening_contents safe) }
    {
        Ok(Fields {
            journal: Vec::new(alloc),
            ec: safe + 1,
            lse: safe,
            snapshots: Roll::new(alloc),
            pending: Roll::new(alloc),
            holds: free_holds(alloc)?,
            round: None,
            store_failed: false,
        })
    }

    /// Makes room for so many entries beside those that will end what is open, and for a snapshot.
    pub(crate) fn reserve(&mut self, entries: usize) -> Result<(), AllocError>
        requires small { entries ≤ 2 }
        requires owed { HasRoomFor self.old 0 }
        ensures same { contents self.new ≡ contents self.old }
        ensures owed { HasRoomFor self.new 0 }
        ensures room { OnOk result (HasRoomFor self.new entries) }
        ensures spare { OnOk result (1 ≤ self.new.snapshots.spare) }
        ensures spare_pending { OnOk result (1 ≤ self.new.pending.spare) }
    {
        let round = if self.round.is_some() { 1 } else { 0 };
        self.journal
            .reserve(self.snapshots.len() + round + entries)?;
        self.snapshots.reserve(1)?;
        self.pending.reserve(1)
    }

    /// The latest committed epoch.
    pub(crate) fn lce(&self) -> u64
        requires { Rise 0 (items self.now.pending.members) self.now.ec }
        ensures { result ≡ lce_of (contents self.now) }
    {
        match self.pending.front() {
            Some(epoch) => *epoch - 1,
            None => self.ec - 1,
        }
    }

    /// The target of a round.
    pub(crate) fn target(&self) -> u64
        requires { Rise 0 (items self.now.pending.members) self.now.ec }
        ensures { result ≡ target_of (contents self.now) }
    {
        match self.snapshots.front() {
            Some(oldest) => oldest.bound,
            None => self.lce(),
        }
    }

    /// The pending epochs.
    pub(crate) fn pending_list(&self) -> EpochList
        requires { length (items self.now.pending.members) ≤ 16 }
        ensures { result ≡ items self.now.pending.members }
    {
        let mut epochs = EpochList::new();
        for epoch in self.pending.items() {
            epochs.push(*epoch);
        }
        epochs
    }

    /// The snapshot of a writer that opens next.
    pub(crate) fn next_writer(&self) -> Snapshot
        requires { length (items self.now.pending.members) ≤ 16 }
        ensures { result ≡ next_snapshot (contents self.now) }
    {
        Snapshot {
            epoch: self.ec,
            deps: self.pending_list(),
            own: true,
        }
    }

    /// The counters.
    pub(crate) fn counters(&self) -> Counters
        requires few { length (items self.now.pending.members) ≤ 16 }
        requires rise { Rise 0 (items self.now.pending.members) self.now.ec }
        ensures { result ≡ counters_of (contents self.now) }
    {
        Counters {
            ec: self.ec,
            lce: self.lce(),
            lse: self.lse,
            pending: self.pending_list(),
        }
    }

    /// Appends an entry.
    pub(crate) fn add(&mut self, entry: JournalEntry)
        requires { length self.old.journal.items < vec_capacity self.old.journal }
        ensures contents { contents self.new ≡ with_last (contents self.old) entry }
        ensures capacity { vec_capacity self.new.journal ≡ vec_capacity self.old.journal }
    {
        self.journal.push_reserved(entry);
    }

    /// Opens a writer's snapshot, whose epoch is the next.
    pub(crate) fn begin(&mut self, snapshot: OpenSnapshot)
        requires session { snapshot.session < length self.old.holds.items }
        requires spare { 1 ≤ self.old.snapshots.spare }
        requires spare_pending { 1 ≤ self.old.pending.spare }
        requires next { self.old.ec + 1 < 2 ^ 64 }
        ensures begins { BeginsSnapshot (contents self.old) (contents self.new) snapshot }
        ensures capacity { vec_capacity self.new.journal ≡ vec_capacity self.old.journal }
    {
        let session = snapshot.session as usize;
        let ticket = push(&mut self.snapshots, snapshot);
        let pending = push(&mut self.pending, self.ec);
        self.holds[session] = Hold::Writer { ticket, pending };
        self.ec += 1;
    }

    /// Opens a reader's snapshot.
    pub(crate) fn read(&mut self, snapshot: OpenSnapshot)
        requires session { snapshot.session < length self.old.holds.items }
        requires spare { 1 ≤ self.old.snapshots.spare }
        ensures reads { Reads (contents self.old) (contents self.new) snapshot }
        ensures capacity { vec_capacity self.new.journal ≡ vec_capacity self.old.journal }
    {
        let session = snapshot.session as usize;
        let ticket = push(&mut self.snapshots, snapshot);
        self.holds[session] = Hold::Reader(ticket);
    }

    /// Ends the writer of a session and gives its epoch.
    pub(crate) fn end_writer(&mut self, session: u32) -> u64
        requires session { session < length self.old.holds.items }
        requires writer { is_writer (hold_of self.old.holds.items session) ≡ true }
        requires fits { HasTickets (contents self.old) session }
        ensures ends { EndsWriter (contents self.old) (contents self.new) session result }
        ensures capacity { vec_capacity self.new.journal ≡ vec_capacity self.old.journal }
    {
        match self.holds[session as usize] {
            Hold::Writer { ticket, pending } => {
                self.holds[session as usize] = Hold::Free;
                let _snapshot = remove(&mut self.snapshots, ticket);
                remove(&mut self.pending, pending)
            }
            Hold::Free | Hold::Reader(_) => unreachable!(),
        }
    }

    /// Closes the round of the epoch.
    pub(crate) fn close_round(&mut self, epoch: u64, end: RoundEnd)
        ensures contents { contents self.new ≡ without_round (contents self.old) epoch end }
        ensures capacity { vec_capacity self.new.journal ≡ vec_capacity self.old.journal }
    {
        self.round = None;
        match end {
            RoundEnd::Safe => self.lse = epoch,
            RoundEnd::Lost(LostCause::Disk) => self.store_failed = true,
            RoundEnd::Lost(LostCause::Memory) => {}
        }
    }

    /// Ends the reader of a session.
    pub(crate) fn end_reader(&mut self, session: u32)
        requires session { session < length self.old.holds.items }
        requires reader { is_reader (hold_of self.old.holds.items session) ≡ true }
        requires fits { HasTickets (contents self.old) session }
        ensures ends { EndsReader (contents self.old) (contents self.new) session }
        ensures capacity { vec_capacity self.new.journal ≡ vec_capacity self.old.journal }
    {
        match self.holds[session as usize] {
            Hold::Reader(ticket) => {
                self.holds[session as usize] = Hold::Free;
                let _snapshot = remove(&mut self.snapshots, ticket);
            }
            Hold::Free | Hold::Writer { .. } => unreachable!(),
        }
    }
}

// Nothing held by each session and holder number, and for the number 0.
fn free_holds(alloc: Global) -> Result<Vec<Hold>, AllocError>
    ensures { IfOk result (λ holds. holds.items ≡ replicate 49 Free) }
{
    let mut holds = Vec::with_capacity(alloc, 49)?;
    for _number in 0..49u32 {
        holds.push(Hold::Free)?;
    }
    Ok(holds)
}
