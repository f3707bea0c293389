//! What a journal has come to, entry by entry.

ghost use Rattle.std.specs.Prelude.{◌≡◌, ◌+◌, ◌-◌, ◌^◌, ◌<◌, ◌≤◌, ◌++◌, ◌∷◌, [], true, false, not, ◌==◌, filter, fold, min, IfOk};
ghost use Rattle.cube_journal.specs.Counters.{JournalState, journal_state, state_after, ec_after, pending_after, lse_after, snapshots_without, snapshots_after, round_after, store_failed_after, lce, target, oldest_bound, counters_in, opening_state};

use crate::entries::takes_epoch;
use cube_journal::{JournalEntry, LostCause, OpenSnapshot};
use cube_values::{EpochList, Snapshot};
use std::alloc::{AllocError, Global};
use std::marker::Model;

/// What a journal has come to. Contracts see it as the state that the definitions speak of.
#[derive(Debug, Drop)]
pub struct State {
    pub ec: u64,
    pub pending: Vec<u64>,
    pub lse: u64,
    pub snapshots: Vec<OpenSnapshot>,
    pub round: Option<u64>,
    pub store_failed: bool,
}

impl Model for State {
    ghost use Rattle.cube_journal.specs.Counters.{JournalState};

    ghost Value = { JournalState };

    ghost view = { λ s. record {
      ec = s.ec;
      pending = s.pending.items;
      lse = s.lse;
      snapshots = s.snapshots.items;
      round = s.round;
      store_failed = s.store_failed;
    } };
}

/// What a journal has come to that began with this safe epoch. The only error is that memory runs out.
pub fn state_of(alloc: Global, safe: u64, journal: &[JournalEntry]) -> Result<State, AllocError>
    requires { safe ≤ 2 ^ 61 }
    ensures { IfOk result (λ s. s ≡ journal_state safe journal.now) }
{
    if journal.len() as u64 >= 1 << 62 {
        return Err(AllocError);
    }
    let mut state = opening_state(alloc, safe);
    for entry in journal {
        state = state_after(alloc, state, entry)?;
    }
    Ok(state)
}

/// How a run begins.
pub fn opening_state(alloc: Global, safe: u64) -> State
    requires { safe ≤ 2 ^ 61 }
    ensures { result ≡ opening_state safe }
{
    State {
        ec: safe + 1,
        pending: Vec::new(alloc),
        lse: safe,
        snapshots: Vec::new(alloc),
        round: None,
        store_failed: false,
    }
}

/// What one more entry makes of it.
pub fn state_after(alloc: Global, state: State, entry: &JournalEntry) -> Result<State, AllocError>
    requires { state.ec < 2 ^ 63 }
    ensures { IfOk result (λ s. s ≡ state_after state entry.now) }
{
    let bound = state.lce();
    Ok(State {
        ec: ec_after(state.ec, entry),
        pending: pending_after(alloc, state.pending, entry)?,
        lse: lse_after(state.lse, entry),
        snapshots: snapshots_after(alloc, bound, state.snapshots, entry)?,
        round: round_after(state.round, entry),
        store_failed: store_failed_after(state.store_failed, entry),
    })
}

impl State {
    /// The latest committed epoch.
    pub fn lce(&self) -> u64
        ensures { result ≡ lce self.now }
    {
        least(self.ec, self.pending.as_slice()).saturating_sub(1)
    }

    /// Up to which epoch a round would go.
    pub fn target(&self) -> u64
        ensures { result ≡ target self.now }
    {
        match self.snapshots.as_slice() {
            [] => self.lce(),
            [first, ..] => first.bound,
        }
    }
}

fn least(first: u64, epochs: &[u64]) -> u64
    ensures { result ≡ fold min first epochs.now }
{
    let mut least = first;
    for epoch in epochs {
        least = least.min(*epoch);
    }
    least
}

fn ec_after(ec: u64, entry: &JournalEntry) -> u64
    requires { ec < 2 ^ 63 }
    ensures { result ≡ ec_after ec entry.now }
{
    if takes_epoch(entry) { ec + 1 } else { ec }
}

fn pending_after(
    alloc: Global,
    pending: Vec<u64>,
    entry: &JournalEntry,
) -> Result<Vec<u64>, AllocError>
    ensures { IfOk result (λ after. after.items ≡ pending_after pending.items entry.now) }
{
    match entry {
        JournalEntry::Begin { epoch, .. } => with_epoch(pending, *epoch),
        JournalEntry::Committed { epoch, .. } => epochs_without(alloc, *epoch, pending.as_slice()),
        JournalEntry::Aborted { epoch, .. } => epochs_without(alloc, *epoch, pending.as_slice()),
        _ => Ok(pending),
    }
}

fn with_epoch(pending: Vec<u64>, epoch: u64) -> Result<Vec<u64>, AllocError>
    ensures { IfOk result (λ more. more.items ≡ pending.items ++ epoch ∷ []) }
{
    let mut more = pending;
    more.push(epoch)?;
    Ok(more)
}

fn epochs_without(alloc: Global, epoch: u64, pending: &[u64]) -> Result<Vec<u64>, AllocError>
    ensures { IfOk result (λ left. left.items ≡ filter (λ e. not (e == epoch)) pending.now) }
{
    let mut left = Vec::new(alloc);
    for e in pending {
        if *e != epoch {
            left.push(*e)?;
        }
    }
    Ok(left)
}

pub fn lse_after(lse: u64, entry: &JournalEntry) -> u64
    ensures { result ≡ lse_after lse entry.now }
{
    match entry {
        JournalEntry::Safe { epoch } => *epoch,
        _ => lse,
    }
}

fn snapshots_after(
    alloc: Global,
    bound: u64,
    snapshots: Vec<OpenSnapshot>,
    entry: &JournalEntry,
) -> Result<Vec<OpenSnapshot>, AllocError>
    ensures { IfOk result (λ after. after.items ≡ snapshots_after bound snapshots.items entry.now) }
{
    match entry {
        JournalEntry::Begin {
            session,
            epoch,
            deps,
            ..
        } => with_snapshot(snapshots, *session, bound, writer(*epoch, deps)),
        JournalEntry::Read { session, epoch, .. } => {
            with_snapshot(snapshots, *session, bound, reader(*epoch))
        }
        JournalEntry::ReadEnd { session, .. } => snapshots_without(
            alloc,
            *session,
            snapshots.as_slice(),
        ),
        JournalEntry::Committed { session, .. } => snapshots_without(
            alloc,
            *session,
            snapshots.as_slice(),
        ),
        JournalEntry::Aborted { session, .. } => snapshots_without(
            alloc,
            *session,
            snapshots.as_slice(),
        ),
        _ => Ok(snapshots),
    }
}

fn writer(epoch: u64, deps: &EpochList) -> Snapshot
    ensures { result ≡ record { epoch = epoch; deps = deps.now; own = true } }
{
    Snapshot {
        epoch,
        deps: deps.copy(),
        own: true,
    }
}

fn reader(epoch: u64) -> Snapshot
    ensures { result ≡ record { epoch = epoch; deps = []; own = false } }
{
    Snapshot {
        epoch,
        deps: EpochList::new(),
        own: false,
    }
}

fn with_snapshot(
    snapshots: Vec<OpenSnapshot>,
    session: u32,
    bound: u64,
    snapshot: Snapshot,
) -> Result<Vec<OpenSnapshot>, AllocError>
    ensures { IfOk result (λ more. more.items
        ≡ snapshots.items
        ++ (record { session = session; bound = bound; snapshot = snapshot }) ∷ []) }
{
    let mut more = snapshots;
    more.push(OpenSnapshot {
        session,
        bound,
        snapshot,
    })?;
    Ok(more)
}

fn snapshots_without(
    alloc: Global,
    session: u32,
    snapshots: &[OpenSnapshot],
) -> Result<Vec<OpenSnapshot>, AllocError>
    ensures { IfOk result (λ left. left.items ≡ snapshots_without session snapshots.now) }
{
    let mut left = Vec::new(alloc);
    for o in snapshots {
        if o.session != session {
            left.push(copy_of(o))?;
        }
    }
    Ok(left)
}

fn copy_of(o: &OpenSnapshot) -> OpenSnapshot
    ensures { result ≡ o.now }
{
    OpenSnapshot {
        session: o.session,
        bound: o.bound,
        snapshot: o.snapshot.copy(),
    }
}

fn round_after(round: Option<u64>, entry: &JournalEntry) -> Option<u64>
    ensures { result ≡ round_after round entry.now }
{
    match entry {
        JournalEntry::Round { epoch } => Some(*epoch),
        JournalEntry::Safe { .. } => None,
        JournalEntry::RoundLost { .. } => None,
        _ => round,
    }
}

fn store_failed_after(failed: bool, entry: &JournalEntry) -> bool
    ensures { result ≡ store_failed_after failed entry.now }
{
    match entry {
        JournalEntry::RoundLost {
            cause: LostCause::Disk,
            ..
        } => true,
        _ => failed,
    }
}
