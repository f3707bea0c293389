//! The first name that stands before already.

ghost use Rattle.std.specs.Prelude.{IfOk};
ghost use Rattle.cube_schema.specs.Repeats.{IsFirstRepeat, names_lent};

use std::alloc::{AllocError, Global};
use std::collections::BTreeSet;

/// The place of the first name that stands before already. The time taken is that of a sort.
pub(crate) fn first_repeat(alloc: Global, names: &[&str]) -> Result<Option<usize>, AllocError>
    ensures { IfOk result (λ found. IsFirstRepeat (names_lent names.now) found) }
{
    let mut before = BTreeSet::new(alloc);
    'names: for (place, name) in names.iter().enumerate() {
        if !before.insert(*name)? {
            return Ok(Some(place));
        }
    }
    Ok(None)
}
