//! The deletions that wait for bricks.

ghost use Rattle.std.specs.Prelude.{◌≡◌, filter};
ghost use Rattle.brick_map.specs.Waiting.{is_above, is_of_other};

use crate::deletion::Deletion;

// Whether a deletion is of another epoch.
fn is_of_other(deletion: &Deletion, epoch: u64) -> bool
    ensures { result ≡ is_of_other epoch deletion.now }
{
    deletion.epoch != epoch
}

// Whether a deletion is above an epoch.
fn is_above(deletion: &Deletion, epoch: u64) -> bool
    ensures { result ≡ is_above epoch deletion.now }
{
    deletion.epoch > epoch
}

/// Forgets the deletions of an epoch.
pub fn forget_epoch(recent: &mut Vec<Deletion>, epoch: u64)
    ensures { recent.new.items ≡ filter (is_of_other epoch) recent.old.items }
{
    recent.retain(|deletion| is_of_other(deletion, epoch));
}

/// Forgets the deletions up to an epoch.
pub fn forget_up_to(recent: &mut Vec<Deletion>, epoch: u64)
    ensures { recent.new.items ≡ filter (is_above epoch) recent.old.items }
{
    recent.retain(|deletion| is_above(deletion, epoch));
}
