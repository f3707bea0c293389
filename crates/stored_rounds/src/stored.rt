//! A store on its two disks.

use round_store::Store;
use std::alloc::Global;

/// Makes the rounds of a core and keeps them in a store, on the two disks that it stands on.
#[derive(Drop)]
pub struct StoredRounds<D> {
    pub store: Store,
    pub first: D,
    pub second: D,
    pub alloc: Global,
}
