//! Whether a run can go on from what a store keeps.

ghost use Rattle.std.specs.Prelude.{◌≡◌, ◌≤◌, MatchOption, length};
ghost use Rattle.opened_store.specs.Causes.{FitsRun, IsUnfit};
ghost use Rattle.opened_store.specs.Differences.{DifferFirstAt};

use crate::fault::StoreFault;
use crate::same_cubes::is_same_cube;
use cube_schema::Schema;
use store_reading::Kept;

/// The first place at which two lists of cubes differ or one of them ends.
fn first_difference(cubes: &[Schema], others: &[Schema]) -> Option<usize>
    ensures { MatchOption result (cubes.now ≡ others.now)
        (λ place. DifferFirstAt place cubes.now others.now) }
{
    let mut place = 0;
    'cubes: while place < cubes.len() && place < others.len() {
        if !is_same_cube(cubes[place].decl(), others[place].decl()) {
            return Some(place);
        }
        place += 1;
    }
    if cubes.len() == others.len() {
        None
    } else {
        Some(place)
    }
}

/// Why a run over these cubes cannot go on from what is kept.
pub(crate) fn fault_of_kept(kept: &Kept, cubes: &[Schema]) -> Option<StoreFault>
    requires { kept.now.declared ≤ length kept.now.cubes }
    ensures { MatchOption result (FitsRun cubes.now kept.now) (IsUnfit cubes.now kept.now) }
{
    let (header, _) = kept.cubes.as_slice().split_at(kept.declared as usize);
    if let Some(place) = first_difference(header, cubes) {
        return Some(StoreFault::SchemaDiffers {
            place: place as u64,
        });
    }
    if kept.epoch > 1 << 61 {
        return Some(StoreFault::EpochsSpent { epoch: kept.epoch });
    }
    None
}
