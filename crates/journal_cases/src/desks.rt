//! Calls of a desk beside the plain program over its journal, and the list of cubes.
ghost use Rattle.std.specs.Prelude.{◌≡◌, None, IfOk, IsTrue};
ghost use Rattle.cube_journal.specs.Counters.{held_by};
ghost use Rattle.cube_language.specs.Cubes.{IsStorable};
ghost use Rattle.aosi_desk.specs.State.{state_of};

use crate::states::{is_free, is_reading, is_writing, may_ask};
use aosi_desk::{CubeAnswer, CubeFound, Desk, RoundEnd};
use cube_journal::AbortCause;
use cube_language::Decl;
use cube_schema::{DimDecls, Names, Schema, check};
use cube_values::Text;
use plain_journal::{State, is_legal, state_of};
use std::alloc::{AllocError, Global};
use std::mem::size_of;

// A desk of sixteen sessions over a store that keeps all up to 7, and for each entry of its journal the name of
// the cube that its statement speaks of, or none.
#[derive(Drop)]
struct Trial {
    desk: Desk,
    names: Vec<Text>,
    ghost sessions: { desk.register.sessions ≡ 16 },
    ghost safe: { desk.register.safe ≡ 7 },
}

fn cube(alloc: Global, name: &str) -> Result<Decl, AllocError> {
    let mut metrics = Names::new(alloc);
    metrics.push(Text::new(alloc, "hits")?)?;
    Ok(Decl {
        name: Text::new(alloc, name)?,
        dims: DimDecls::new(alloc),
        metrics,
    })
}

// The declaration of a cube, which can be stored.
fn storable_cube(alloc: Global, name: &str) -> Result<Decl, AllocError>
    ensures { IfOk result (λ decl. IsStorable decl) }
{
    let decl = cube(alloc, name)?;
    match check(alloc, &decl) {
        Ok(_) => Ok(decl),
        Err(_) => Err(AllocError),
    }
}

fn schema(alloc: Global, name: &str) -> Result<Schema, AllocError> {
    let decl = cube(alloc, name)?;
    check(alloc, &decl).map_err(|_| AllocError)
}

// A desk with the cube `visits`.
fn opening(alloc: Global) -> Result<Trial, AllocError> {
    let cubes = [schema(alloc, "visits")?];
    Ok(Trial {
        desk: Desk::new(alloc, 16, &cubes, 7)?,
        names: Vec::new(alloc),
    })
}

// What the journal has come to, by the plain program.
fn plain(alloc: Global, trial: &Trial) -> Result<State, AllocError>
    ensures { IfOk result (λ s. s ≡ state_of trial.now.desk.register) }
{
    state_of(alloc, 7, trial.desk.journal())
}

// A call of a desk that speaks of no cube.
#[derive(Clone, Copy)]
enum Call {
    Write(u32),
    Read(u32),
    Commit(u32),
    Abort(u32),
    Close(u32),
    Open,
    Safe,
}

// Makes a call where it may be made, and says whether it was.
fn make(alloc: Global, trial: &mut Trial, call: Call) -> Result<bool, AllocError> {
    let state = plain(alloc, trial)?;
    match call {
        Call::Write(session) if 1 <= session && session <= 16 && is_free(&state, session) => {
            let _snapshot = trial.desk.open_write(session, 1)?;
        }
        Call::Read(session) if 1 <= session && session <= 48 && is_free(&state, session) => {
            let _snapshot = trial.desk.open_read(session, 1)?;
        }
        Call::Commit(session) if is_writing(&state, session) => trial.desk.commit(session, 2),
        Call::Abort(session) if is_writing(&state, session) => {
            trial.desk.abort_end(session, 2, AbortCause::Asked);
        }
        Call::Close(session) if is_reading(&state, session) => trial.desk.close_read(session, 2),
        Call::Open if may_ask(&state) => {
            let _answer = trial.desk.round_open()?;
        }
        Call::Safe => match state.round {
            Some(epoch) => trial.desk.round_close(epoch, RoundEnd::Safe),
            None => return Ok(false),
        },
        _ => return Ok(false),
    }
    trial.names.push(Text::new(alloc, "")?)?;
    Ok(true)
}

// Whether a session holds no snapshot.
fn may_make_cube(alloc: Global, trial: &Trial, session: u32) -> Result<bool, AllocError>
    ensures { IfOk result (λ may. IsTrue may
        → held_by (state_of trial.now.desk.register).snapshots session ≡ None) }
{
    let state = plain(alloc, trial)?;
    Ok(is_free(&state, session))
}

// Asks for a cube where the session holds no snapshot.
fn created(
    alloc: Global,
    trial: &mut Trial,
    session: u32,
    name: &str,
) -> Result<Option<CubeAnswer>, AllocError> {
    if !may_make_cube(alloc, trial, session)? {
        return Ok(None);
    }
    let decl = storable_cube(alloc, name)?;
    let answer = trial.desk.create_cube(session, 1, decl)?;
    trial.names.push(Text::new(alloc, name)?)?;
    Ok(Some(answer))
}

// The place of the cube of a name.
fn place(alloc: Global, trial: &mut Trial, name: &str) -> Result<Option<u32>, AllocError> {
    match trial.desk.find_cube(1, 1, name)? {
        CubeFound::Found { place, decl: _ } => Ok(Some(place)),
        CubeFound::Unknown => {
            trial.names.push(Text::new(alloc, name)?)?;
            Ok(None)
        }
    }
}

fn has_counters(desk: &Desk, state: &State) -> bool {
    let counters = desk.counters();
    counters.ec == state.ec
        && counters.lce == state.lce()
        && counters.lse == state.lse
        && counters.pending.as_slice() == state.pending.as_slice()
}

fn has_snapshots(desk: &Desk, state: &State) -> bool {
    let oldest = state.snapshots.first().map(|o| o.bound);
    desk.open_roll().front().map(|o| o.bound) == oldest
        && desk.open_roll().len() == state.snapshots.len()
}

// Whether the desk has what its journal has come to.
fn is_as_plain(alloc: Global, trial: &Trial) -> Result<bool, AllocError> {
    let state = plain(alloc, trial)?;
    Ok(has_counters(&trial.desk, &state) && has_snapshots(&trial.desk, &state))
}

fn legal(alloc: Global, trial: &Trial) -> Result<bool, AllocError> {
    let cubes = [Text::new(alloc, "visits")?];
    is_legal(
        alloc,
        7,
        &cubes,
        trial.names.as_slice(),
        trial.desk.journal(),
    )
}

// A session opens a writer, and one of its holder numbers a reader.
fn opens_both(alloc: Global, trial: &mut Trial, session: u32) -> Result<bool, AllocError> {
    let holder = session.wrapping_add(32);
    Ok(
        make(alloc, trial, Call::Write(session))?
            && make(alloc, trial, Call::Read(holder))?
            && is_as_plain(alloc, trial)?,
    )
}

// The writer ends, by a commit in each other turn, and the reader.
fn ends_both(
    alloc: Global,
    trial: &mut Trial,
    session: u32,
    turn: u32,
) -> Result<bool, AllocError> {
    let holder = session.wrapping_add(32);
    let end = if turn % 2 == 0 {
        Call::Commit(session)
    } else {
        Call::Abort(session)
    };
    Ok(make(alloc, trial, end)? && make(alloc, trial, Call::Close(holder))?)
}

// A round is asked for. The last snapshot holds the target back.
fn asks_round(alloc: Global, trial: &mut Trial, is_last: bool) -> Result<bool, AllocError> {
    Ok(
        make(alloc, trial, Call::Open)?
            && make(alloc, trial, Call::Safe)? == is_last
            && is_as_plain(alloc, trial)?,
    )
}

// Sixteen sessions open both, and end them in an order that takes the sessions by steps of a number.
fn all_go_well(alloc: Global, trial: &mut Trial, step: u32) -> Result<bool, AllocError> {
    for session in 1..=16u32 {
        if !opens_both(alloc, trial, session)? {
            return Ok(false);
        }
    }
    for turn in 0..16u32 {
        let session = (turn.wrapping_mul(step) % 16).wrapping_add(1);
        if !ends_both(alloc, trial, session, turn)? || !asks_round(alloc, trial, turn == 15)? {
            return Ok(false);
        }
    }
    Ok(trial.desk.counters().lse == 23)
}

fn sixteen_go_well(alloc: Global, step: u32) -> Result<bool, AllocError> {
    let mut trial = opening(alloc)?;
    let go_well = all_go_well(alloc, &mut trial, step)? && legal(alloc, &trial)?;
    Ok(go_well && trial.desk.into_journal().len() == 81)
}

#[test]
fn sixteen_at_once(rt: HostRuntime) {
    // Each number has no factor in common with 16.
    for step in [1u32, 7, 15] {
        assert!(rt; sixteen_go_well(rt.alloc(), step) == Ok(true), "by {step}");
    }
}

/// How many cubes a desk has after its first.
fn cubes_after_first(alloc: Global, desk: &Desk) -> Result<usize, AllocError> {
    let count = desk.cubes_from(alloc, 0)?.len();
    if count == 0 {
        return Ok(0);
    }
    Ok(desk.cubes_from(alloc, 1)?.len())
}

// Whether a cube is at this place.
fn is_at(
    alloc: Global,
    trial: &mut Trial,
    name: &str,
    wanted: Option<u32>,
) -> Result<bool, AllocError> {
    Ok(place(alloc, trial, name)? == wanted)
}

// Whether this is answered where a session asks for a cube.
fn is_answered(
    alloc: Global,
    trial: &mut Trial,
    session: u32,
    name: &str,
    wanted: CubeAnswer,
) -> Result<bool, AllocError> {
    Ok(created(alloc, trial, session, name)? == Some(wanted))
}

// As many cubes as a desk can have beside its first.
const NAMES: &str = "c00 c01 c02 c03 c04 c05 c06 c07 c08 c09 c10 c11 c12 c13 c14";

fn all_are_made(alloc: Global, trial: &mut Trial) -> Result<bool, AllocError> {
    let mut count = 0u32;
    for name in NAMES.split(' ') {
        let made = CubeAnswer::Created {
            epoch: u64::from(count).wrapping_add(8),
            place: count.wrapping_add(1),
        };
        if !is_answered(alloc, trial, 2, name, made)? {
            return Ok(false);
        }
        count = count.wrapping_add(1);
    }
    Ok(count == 15)
}

fn no_more_is_made(alloc: Global, trial: &mut Trial) -> Result<bool, AllocError> {
    Ok(
        is_answered(alloc, trial, 3, "c07", CubeAnswer::Exists)?
            && is_answered(alloc, trial, 3, "visits", CubeAnswer::Exists)?
            && is_answered(alloc, trial, 3, "c15", CubeAnswer::TooMany)?,
    )
}

fn has_sixteen(alloc: Global, trial: &Trial) -> Result<bool, AllocError> {
    Ok(
        trial.desk.counters().lce == 22
            && cubes_after_first(alloc, &trial.desk)? == 15
            && legal(alloc, trial)?,
    )
}

#[test]
fn cubes(rt: HostRuntime) {
    let alloc = rt.alloc();
    let mut trial = opening(alloc).expect(&rt, "memory");
    assert!(rt; is_at(alloc, &mut trial, "visits", Some(0)) == Ok(true));
    assert!(rt; is_at(alloc, &mut trial, "c14", None) == Ok(true));
    assert!(rt; all_are_made(alloc, &mut trial) == Ok(true));
    assert!(rt; no_more_is_made(alloc, &mut trial) == Ok(true));
    assert!(rt; is_at(alloc, &mut trial, "c14", Some(15)) == Ok(true));
    assert!(rt; has_sixteen(alloc, &trial) == Ok(true));
    assert!(rt; size_of::<Desk>() <= 48);
}
