//! Tables of calls: what waits for a pending epoch, deps, the target of rounds, and sixteen sessions at once.
ghost use Rattle.std.specs.Prelude.{◌≡◌, ◌≤◌, ◌^◌, IfOk};
ghost use Rattle.aosi_desk.specs.State.{state_of};

use crate::states::{is_free, is_reading, is_writing, may_ask};
use aosi_desk::{MOST_HOLDERS, MOST_SESSIONS, Register, RoundEnd};
use cube_journal::{AbortCause, Counters, JournalEntry, LostCause, Note};
use plain_journal::{State, state_of};
use std::alloc::{AllocError, Global};
use std::mem::size_of;
use std::process::Abort;

// A register with the number of its sessions and the epoch that was safe when it began.
#[derive(Drop)]
struct Trial {
    register: Register,
    sessions: u32,
    safe: u64,
    ghost of_sessions: { register.sessions ≡ sessions },
    ghost since: { register.safe ≡ safe },
    ghost low: { safe ≤ 2 ^ 61 },
}

fn opening(alloc: Global, sessions: u32, safe: u64) -> Result<Trial, AllocError>
    requires some { 1 ≤ sessions }
    requires most { sessions ≤ MOST_SESSIONS }
    requires safe { safe ≤ 2 ^ 61 }
{
    Ok(Trial {
        register: Register::new(alloc, sessions, safe)?,
        sessions,
        safe,
    })
}

// What the journal has come to, by the plain program.
fn plain(alloc: Global, trial: &Trial) -> Result<State, AllocError>
    ensures { IfOk result (λ s. s ≡ state_of trial.now.register) }
{
    state_of(alloc, trial.safe, trial.register.journal())
}

// A call of a register.
#[derive(Clone, Copy)]
enum Call {
    Write(u32),
    Read(u32),
    Commit(u32),
    Abort(u32),
    Close(u32),
    Cube(u32),
    Open,
    Safe,
    Lost,
}

// Makes a call where it may be made, and says whether it was.
fn make(alloc: Global, trial: &mut Trial, call: Call, at: u32) -> Result<bool, AllocError> {
    let state = plain(alloc, trial)?;
    let sessions = trial.sessions;
    match call {
        Call::Write(session) if 1 <= session && session <= sessions && is_free(&state, session) => {
            let _snapshot = trial.register.open_write(session, at)?;
        }
        Call::Read(session)
            if 1 <= session && session <= MOST_HOLDERS && is_free(&state, session) => {
            let _snapshot = trial.register.open_read(session, at)?;
        }
        Call::Commit(session) if is_writing(&state, session) => {
            trial.register.commit(session, at);
        }
        Call::Abort(session) if is_writing(&state, session) => {
            trial.register.abort_end(session, at, AbortCause::Asked);
        }
        Call::Close(session) if is_reading(&state, session) => {
            trial.register.close_read(session, at);
        }
        Call::Cube(session) if is_free(&state, session) => {
            let _epoch = trial.register.take_epoch(session, at)?;
        }
        Call::Open if may_ask(&state) => {
            let _answer = trial.register.round_open()?;
        }
        Call::Safe => match state.round {
            Some(epoch) => trial.register.round_close(epoch, RoundEnd::Safe),
            None => return Ok(false),
        },
        Call::Lost => match state.round {
            Some(epoch) => {
                trial
                    .register
                    .round_close(epoch, RoundEnd::Lost(LostCause::Memory));
            }
            None => return Ok(false),
        },
        _ => return Ok(false),
    }
    Ok(true)
}

// The counters of a journal, counted anew.
#[derive(Drop)]
struct Recount {
    ec: u64,
    lce: u64,
    lse: u64,
    pending: Vec<u64>,
}

fn count_anew(alloc: Global, safe: u64, journal: &[JournalEntry]) -> Result<Recount, AllocError> {
    let mut taken = 0u64;
    let mut lse = safe;
    let mut pending: Vec<u64> = Vec::new(alloc);
    for entry in journal {
        match entry {
            JournalEntry::Begin { epoch, .. } => {
                taken = taken.wrapping_add(1);
                pending.push(*epoch)?;
            }
            JournalEntry::Cube { .. } => taken = taken.wrapping_add(1),
            JournalEntry::Committed { epoch, .. } | JournalEntry::Aborted { epoch, .. } => {
                pending.retain(|e| *e != *epoch);
            }
            JournalEntry::Safe { epoch } => lse = *epoch,
            _ => {}
        }
    }
    let ec = safe.wrapping_add(taken).wrapping_add(1);
    let least = pending.iter().copied().min().unwrap_or(ec);
    Ok(Recount {
        ec,
        lce: least.wrapping_sub(1),
        lse,
        pending,
    })
}

fn are_counted(counters: &Counters, counted: &Recount) -> bool {
    counters.ec == counted.ec
        && counters.lce == counted.lce
        && counters.lse == counted.lse
        && counters.pending.as_slice() == counted.pending.as_slice()
}

// Whether the register has the counters of its journal.
fn is_as_counted(alloc: Global, trial: &Trial) -> Result<bool, AllocError> {
    let counted = count_anew(alloc, trial.safe, trial.register.journal())?;
    Ok(are_counted(&trial.register.counters(), &counted))
}

// Makes a call, and says whether it could be made and left the counters of the journal.
fn goes_well(alloc: Global, trial: &mut Trial, call: Call, at: u32) -> Result<bool, AllocError> {
    if make(alloc, trial, call, at)? {
        return is_as_counted(alloc, trial);
    }
    Ok(false)
}

/// What committed waits for an older epoch that is pending.
const COMMITS: &str = "\
write 1|2 0 0
write 2|3 0 0
commit 2|3 0 0
read 2|3 0 0
close 2|3 0 0
commit 1|3 2 0
read 2|3 2 0";

/// The target is the bound of the snapshot that was opened first.
const TARGETS: &str = "\
write 1|2 0 0
commit 1|2 1 0
read 3|2 1 0
write 2|3 1 0
commit 2|3 2 0
open|3 2 0
safe|3 2 1
open|3 2 1
close 3|3 2 1
open|3 2 1
lost|3 2 1
open|3 2 1
safe|3 2 2";

/// An epoch of a cube is never pending, and an aborted one is finished.
const CUBES: &str = "\
cube 4|2 1 0
write 4|3 1 0
cube 5|4 1 0
abort 4|4 3 0";

fn call_of(word: &str, session: u32) -> Option<Call> {
    match word {
        "write" => Some(Call::Write(session)),
        "read" => Some(Call::Read(session)),
        "commit" => Some(Call::Commit(session)),
        "abort" => Some(Call::Abort(session)),
        "close" => Some(Call::Close(session)),
        "cube" => Some(Call::Cube(session)),
        _ => None,
    }
}

fn call_in(text: &str) -> Option<Call> {
    match text.split_once(' ') {
        Some((word, session)) => call_of(word, session.parse::<u32>().ok()?),
        None => match text {
            "open" => Some(Call::Open),
            "safe" => Some(Call::Safe),
            "lost" => Some(Call::Lost),
            _ => None,
        },
    }
}

// A row of a table: a call, with EC, LCE and LSE after it.
#[derive(Clone, Copy)]
struct Row {
    call: Call,
    ec: u64,
    lce: u64,
    lse: u64,
}

fn row_in(row: &str) -> Option<Row> {
    let (call, counters) = row.split_once('|')?;
    let (ec, counters) = counters.split_once(' ')?;
    let (lce, lse) = counters.split_once(' ')?;
    Some(Row {
        call: call_in(call)?,
        ec: ec.parse::<u64>().ok()?,
        lce: lce.parse::<u64>().ok()?,
        lse: lse.parse::<u64>().ok()?,
    })
}

fn has_counters(trial: &Trial, row: Row) -> bool {
    let counters = trial.register.counters();
    counters.ec == row.ec && counters.lce == row.lce && counters.lse == row.lse
}

// Whether the call of a row goes well and leaves its counters. A row that cannot be read is the error.
fn goes_as_told(alloc: Global, trial: &mut Trial, row: &str, at: u32) -> Result<bool, AllocError> {
    let row = row_in(row).ok_or(AllocError)?;
    let goes_well = goes_well(alloc, trial, row.call, at)?;
    Ok(goes_well && has_counters(trial, row))
}

fn check_table(rt: &impl Abort, alloc: Global, table: &str) {
    let mut trial = opening(alloc, MOST_SESSIONS, 0).expect(rt, "memory");
    let mut at = 0u32;
    for row in table.lines() {
        at = at.wrapping_add(1);
        assert!(rt;
            goes_as_told(alloc, &mut trial, row, at) == Ok(true),
            "{row} at {at}"
        );
    }
}

#[test]
fn tables_of_calls(rt: HostRuntime) {
    check_table(&rt, rt.alloc(), COMMITS);
    check_table(&rt, rt.alloc(), TARGETS);
    check_table(&rt, rt.alloc(), CUBES);
}

// A session opens a writer, and one of its holder numbers a reader.
fn opens_both(alloc: Global, trial: &mut Trial, session: u32) -> Result<bool, AllocError> {
    let holder = session.wrapping_add(16);
    let writes = make(alloc, trial, Call::Write(session), 1)?;
    Ok(writes && goes_well(alloc, trial, Call::Read(holder), 1)?)
}

// The writer ends, by a commit in each other turn, and then the reader.
fn ends_both(
    alloc: Global,
    trial: &mut Trial,
    session: u32,
    turn: u32,
) -> Result<bool, AllocError> {
    let holder = session.wrapping_add(16);
    let end = if turn % 2 == 0 {
        Call::Commit(session)
    } else {
        Call::Abort(session)
    };
    let ends = make(alloc, trial, end, 2)?;
    Ok(ends && goes_well(alloc, trial, Call::Close(holder), 2)?)
}

// Sixteen sessions open both, and end them in an order that takes the sessions by steps of a number.
fn all_go_well(alloc: Global, trial: &mut Trial, step: u32) -> Result<bool, AllocError> {
    for session in 1..=16u32 {
        if !opens_both(alloc, trial, session)? {
            return Ok(false);
        }
    }
    for turn in 0..16u32 {
        let session = (turn.wrapping_mul(step) % 16).wrapping_add(1);
        if !ends_both(alloc, trial, session, turn)? {
            return Ok(false);
        }
    }
    Ok(trial.register.counters().lce == 23)
}

fn sixteen_go_well(alloc: Global, step: u32) -> Result<bool, AllocError> {
    let mut trial = opening(alloc, MOST_SESSIONS, 7)?;
    let go_well = all_go_well(alloc, &mut trial, step)?;
    Ok(go_well && trial.register.into_journal().len() == 64)
}

#[test]
fn sixteen_at_once(rt: HostRuntime) {
    // Each number has no factor in common with 16.
    for step in [1u32, 3, 5, 15] {
        assert!(rt; sixteen_go_well(rt.alloc(), step) == Ok(true), "by {step}");
    }
}

// Session 1 commits while session 2 writes, and session 3 opens a writer behind it.
fn three_writers(alloc: Global, trial: &mut Trial) -> Result<bool, AllocError> {
    Ok(
        make(alloc, trial, Call::Write(1), 1)?
            && make(alloc, trial, Call::Write(2), 1)?
            && make(alloc, trial, Call::Commit(1), 2)?
            && make(alloc, trial, Call::Write(3), 1)?,
    )
}

// Whether a note shows the two epochs that are pending.
fn shows_pending(trial: &mut Trial) -> Result<bool, AllocError> {
    let counters = trial.register.note(&Note::Show {
        session: 1,
        statement: 3,
    })?;
    Ok(counters.pending.as_slice() == [2, 3].as_slice())
}

// How many deps each writer of a journal has.
fn numbers_of_deps(alloc: Global, journal: &[JournalEntry]) -> Result<Vec<usize>, AllocError> {
    let mut deps: Vec<usize> = Vec::new(alloc);
    for entry in journal {
        if let JournalEntry::Begin { deps: own, .. } = entry {
            deps.push(own.as_slice().len())?;
        }
    }
    Ok(deps)
}

fn has_deps(alloc: Global, trial: &Trial) -> Result<bool, AllocError> {
    let deps = numbers_of_deps(alloc, trial.register.journal())?;
    Ok(deps.as_slice() == [0, 1, 1].as_slice())
}

fn has_rolls(trial: &Trial) -> bool {
    trial.register.open_roll().len() == 2
        && trial.register.pending_roll().front().copied() == Some(2)
}

#[test]
fn deps_and_notes(rt: HostRuntime) {
    let alloc = rt.alloc();
    let mut trial = opening(alloc, 3, 0).expect(&rt, "memory");
    assert!(rt; three_writers(alloc, &mut trial) == Ok(true));
    assert!(rt; shows_pending(&mut trial) == Ok(true));
    assert!(rt; has_deps(alloc, &trial) == Ok(true));
    assert!(rt; has_rolls(&trial));
    assert!(rt; size_of::<Register>() <= 320);
}
