//! What a session holds in a state of the plain program, and whether a round may be asked for there.
ghost use Rattle.std.specs.Prelude.{◌≡◌, IsTrue, None};
ghost use Rattle.std.specs.Option.{option_map};
ghost use Rattle.cube_journal.specs.Counters.{held_by};
ghost use Rattle.cube_journal.specs.Legal.{HoldsReader, MayAskRound};
ghost use Rattle.aosi_desk.specs.State.{IsWriting};

use cube_journal::OpenSnapshot;
use plain_journal::State;

// Whether the session holds a writer or a reader.
fn held(snapshots: &[OpenSnapshot], session: u32) -> Option<bool>
    ensures { result ≡ option_map (λ h. h.own) (held_by snapshots.now session) }
{
    let mut left = snapshots;
    'snapshots: while let [first, rest @ ..] = left {
        if first.session == session {
            return Some(first.snapshot.own);
        }
        left = rest;
    }
    None
}

/// Whether the session or the holder number holds no snapshot.
pub fn is_free(state: &State, session: u32) -> bool
    ensures { IsTrue result → held_by state.now.snapshots session ≡ None }
{
    held(state.snapshots.as_slice(), session).is_none()
}

/// Whether the session holds a writer.
pub fn is_writing(state: &State, session: u32) -> bool
    ensures { IsTrue result → IsWriting state.now session }
{
    matches!(held(state.snapshots.as_slice(), session), Some(true))
}

/// Whether the session or the holder number holds a reader.
pub fn is_reading(state: &State, session: u32) -> bool
    ensures { IsTrue result → HoldsReader state.now session }
{
    matches!(held(state.snapshots.as_slice(), session), Some(false))
}

/// Whether a round may be asked for.
pub fn may_ask(state: &State) -> bool
    ensures { IsTrue result → MayAskRound state.now }
{
    state.round.is_none() && !state.store_failed
}
