//! Whether a run can leave a journal.

ghost use Rattle.std.specs.Prelude.{◌≡◌, ◌^◌, ◌≤◌, ◌↔◌, [], IsTrue, IfOk, None};
ghost use Rattle.std.specs.Option.{option_copied};
ghost use Rattle.cube_journal.specs.Counters.{held_by, journal_state};
ghost use Rattle.cube_journal.specs.Legal.{MayBegin, MayRead, MayMakeCube, HoldsWriter, HoldsReader, MayAskRound, MayOpenRound, MayIdle, CountersAllow, CountersAllowAll, IsLegal};

use crate::cubes::is_legal_by_cubes;
use crate::since::{was_flushed, was_safe};
use crate::state::{State, opening_state, state_after};
use cube_journal::{JournalEntry, OpenSnapshot};
use cube_values::{Snapshot, Text};
use std::alloc::{AllocError, Global};

/// Whether a run can leave this journal that began with this safe epoch and with cubes of these names. For
/// each entry there is the name of the cube that its statement speaks of, or any name where it speaks of
/// none. The only error is that memory runs out.
pub fn is_legal(
    alloc: Global,
    safe: u64,
    cubes: &[Text],
    names: &[Text],
    journal: &[JournalEntry],
) -> Result<bool, AllocError>
    requires { safe ≤ 2 ^ 61 }
    ensures { IfOk result (λ legal. IsTrue legal ↔ IsLegal safe cubes.now names.now journal.now) }
{
    let by_counters = is_legal_by_counters(alloc, safe, journal)?;
    let by_cubes = is_legal_by_cubes(alloc, cubes, names, journal)?;
    Ok(by_counters && by_cubes)
}

/// Whether each entry agrees with the counters, the snapshots and the rounds of the entries before it.
pub fn is_legal_by_counters(
    alloc: Global,
    safe: u64,
    journal: &[JournalEntry],
) -> Result<bool, AllocError>
    requires { safe ≤ 2 ^ 61 }
    ensures { IfOk result (λ legal. IsTrue legal ↔ CountersAllowAll safe [] journal.now) }
{
    if journal.len() as u64 >= 1 << 62 {
        return Err(AllocError);
    }
    let mut state = opening_state(alloc, safe);
    for (place, entry) in journal.iter().enumerate() {
        let (before, _) = journal.split_at(place);
        if !counters_allow(safe, &state, before, entry) {
            return Ok(false);
        }
        state = state_after(alloc, state, entry)?;
    }
    Ok(true)
}

/// Whether the entries before a place, which have come to this state, allow the entry there.
fn counters_allow(safe: u64, state: &State, before: &[JournalEntry], entry: &JournalEntry) -> bool
    requires { state.now ≡ journal_state safe before.now }
    ensures { IsTrue result ↔ CountersAllow safe before.now entry.now }
{
    match entry {
        JournalEntry::Begin {
            session,
            epoch,
            deps,
            ..
        } => may_begin(state, *session, *epoch, deps.as_slice()),
        JournalEntry::Read { session, epoch, .. } => may_read(state, *session, *epoch),
        JournalEntry::ReadEnd { session, .. } => holds_reader(state, *session),
        JournalEntry::Committed { session, epoch, .. } => holds_writer(state, *session, *epoch),
        JournalEntry::Aborted { session, epoch, .. } => holds_writer(state, *session, *epoch),
        JournalEntry::Refused { code, .. } => *code != 17 || state.store_failed,
        JournalEntry::Cleared { .. } => true,
        JournalEntry::Show { .. } => true,
        JournalEntry::Flushed { session, .. } => was_flushed(*session, before),
        JournalEntry::Purged { session, epoch, .. } => was_safe(safe, *session, *epoch, before),
        JournalEntry::Cube { session, epoch, .. } => may_make_cube(state, *session, *epoch),
        JournalEntry::Round { epoch } => may_open_round(state, *epoch),
        JournalEntry::Idle { epoch } => may_idle(state, *epoch),
        JournalEntry::Safe { epoch } => state.round == Some(*epoch),
        JournalEntry::RoundLost { epoch, .. } => state.round == Some(*epoch),
    }
}

/// The snapshot that a session holds.
fn held_by(snapshots: &[OpenSnapshot], session: u32) -> Option<&Snapshot>
    ensures { option_copied result ≡ held_by snapshots.now session }
{
    let mut left = snapshots;
    'snapshots: while let [o, rest @ ..] = left {
        if o.session == session {
            return Some(&o.snapshot);
        }
        left = rest;
    }
    None
}

fn is_free(state: &State, session: u32) -> bool
    ensures { IsTrue result ↔ (held_by state.now.snapshots session ≡ None) }
{
    held_by(state.snapshots.as_slice(), session).is_none()
}

fn may_begin(state: &State, session: u32, epoch: u64, deps: &[u64]) -> bool
    ensures { IsTrue result ↔ MayBegin state.now session epoch deps.now }
{
    epoch == state.ec && deps == state.pending.as_slice() && is_free(state, session)
}

fn may_read(state: &State, session: u32, epoch: u64) -> bool
    ensures { IsTrue result ↔ MayRead state.now session epoch }
{
    epoch == state.lce() && is_free(state, session)
}

fn may_make_cube(state: &State, session: u32, epoch: u64) -> bool
    ensures { IsTrue result ↔ MayMakeCube state.now session epoch }
{
    epoch == state.ec && is_free(state, session)
}

fn holds_writer(state: &State, session: u32, epoch: u64) -> bool
    ensures { IsTrue result ↔ HoldsWriter state.now session epoch }
{
    match held_by(state.snapshots.as_slice(), session) {
        Some(snapshot) => snapshot.own && snapshot.epoch == epoch,
        None => false,
    }
}

fn holds_reader(state: &State, session: u32) -> bool
    ensures { IsTrue result ↔ HoldsReader state.now session }
{
    match held_by(state.snapshots.as_slice(), session) {
        Some(snapshot) => !snapshot.own,
        None => false,
    }
}

fn may_ask_round(state: &State) -> bool
    ensures { IsTrue result ↔ MayAskRound state.now }
{
    state.round.is_none() && !state.store_failed
}

fn may_open_round(state: &State, epoch: u64) -> bool
    ensures { IsTrue result ↔ MayOpenRound state.now epoch }
{
    may_ask_round(state) && epoch == state.target() && state.lse < epoch
}

fn may_idle(state: &State, epoch: u64) -> bool
    ensures { IsTrue result ↔ MayIdle state.now epoch }
{
    may_ask_round(state) && epoch == state.target() && epoch == state.lse
}
