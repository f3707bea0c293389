//! What a statement or a transaction sees.

ghost use Rattle.std.specs.Prelude.{◌≡◌, ◌↔◌, IsTrue};
ghost use Rattle.cube_values.specs.Sees.{sees, CanSee, admissible, IsAdmissible};

use crate::epoch_list::EpochList;

/// A snapshot. A reader has the latest committed epoch and no deps. A writer has its own epoch, and as
/// deps the epochs that were pending when it opened.
#[derive(Debug, Drop)]
pub struct Snapshot {
    pub epoch: u64,
    pub deps: EpochList,
    /// Whether it is a writer's.
    pub own: bool,
}

impl Snapshot {
    /// Whether it sees what the epoch wrote.
    pub fn sees(&self, epoch: u64) -> bool
        ensures value { result ≡ sees self.now epoch }
        ensures meaning { IsTrue result ↔ CanSee self.now epoch }
    {
        epoch <= self.epoch && !self.deps.contains(epoch)
    }

    /// Whether a purge at the epoch changes no row that it sees.
    pub fn admissible(&self, epoch: u64) -> bool
        ensures value { result ≡ admissible self.now epoch }
        ensures meaning { IsTrue result ↔ IsAdmissible self.now epoch }
    {
        if self.own {
            epoch < self.epoch && self.deps.all_above(epoch)
        } else {
            epoch <= self.epoch && self.deps.as_slice().is_empty()
        }
    }

    /// The same snapshot. It takes no memory.
    pub fn copy(&self) -> Snapshot
        ensures { result ≡ self.now }
    {
        Snapshot {
            epoch: self.epoch,
            deps: self.deps.copy(),
            own: self.own,
        }
    }
}
