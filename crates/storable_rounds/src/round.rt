//! A round as a whole.
ghost use Rattle.std.specs.Prelude.{◌≡◌, ◌↔◌, IsTrue};
ghost use Rattle.following_rounds.specs.FollowingRounds.{IsStorableRound};

use crate::names::names_fit;
use crate::rows::rows_fit;
use cube_rounds::Round;

// Epochs below this one have bytes in a store.
const MOST_EPOCH: u64 = 1 << 63;

/// Whether a store has bytes for the round. It looks at each value of it.
pub fn is_storable(round: &Round) -> bool
    ensures { IsTrue result ↔ IsStorableRound round.now }
{
    let cubes = round.cubes.as_slice();
    names_fit(cubes);
    rows_fit(cubes);
    round.epoch < MOST_EPOCH
}
