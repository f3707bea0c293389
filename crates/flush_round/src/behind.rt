//! Behind what of the store the next round comes.
ghost use Rattle.std.specs.Prelude.{◌≡◌, ◌≤◌, length};
ghost use Rattle.flush_round.specs.KeptRounds.{counts_before, shapes_before};

use cube_values::{CubeShape, Sequence};
use round_store::Store;

/// The shapes of the cubes behind which the next round comes.
pub(crate) fn shapes_before(store: &Store) -> &[CubeShape]
    requires { store.now.declared ≤ length store.now.cubes }
    ensures { result.now ≡ shapes_before store.now }
{
    let shapes = store.shapes();
    if store.wants_whole() {
        let (declared, _) = shapes.split_at(store.declared() as usize);
        declared
    } else {
        shapes
    }
}

/// How many names these cubes have before the next round.
pub(crate) fn counts_before(store: &Store) -> &[Sequence<u64>]
    ensures { result.now ≡ counts_before store.now }
{
    if store.wants_whole() {
        &[]
    } else {
        store.counts().as_slice()
    }
}
