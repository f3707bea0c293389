//! A short list of epochs.

ghost use Rattle.std.specs.Prelude.{◌≡◌, ◌<◌, ◌↔◌, ◌++◌, ◌==◌, ◌≤◌, [], ◌∷◌, length, IsTrue, Contains, All, nat_lt};
ghost use Rattle.std.specs.List.{list_any, list_all};

use arrayvec::ArrayVec;
use std::marker::Model;

/// Epochs, at most sixteen of them, since at most sixteen sessions are open at once. Contracts see
/// it as a list.
#[derive(Debug, Drop)]
pub struct EpochList {
    epochs: ArrayVec<u64, 16>,
}

impl Model for EpochList {
    ghost use Rattle.std.specs.Prelude.{ℕ, ◌≤◌, List, length};
    ghost use Rattle.cube_values.specs.declared.epoch_list.TheConstants.EpochList.{MOST};

    ghost Value = { List ℕ };

    ghost view = { λ l. l.epochs.items };

    ghost invariant = { λ l. length l.epochs.items ≤ MOST };
}

impl EpochList {
    /// How many epochs it can hold.
    pub const MOST: usize = 16;

    /// An empty list.
    pub fn new() -> EpochList
        ensures { result ≡ [] }
    {
        EpochList {
            epochs: ArrayVec::new(),
        }
    }

    /// Whether no epoch can be appended.
    pub fn is_full(&self) -> bool
        ensures { IsTrue result ↔ (length self.now ≡ EpochList.MOST) }
    {
        self.epochs.is_full()
    }

    /// Appends an epoch.
    pub fn push(&mut self, epoch: u64)
        requires { length self.old < EpochList.MOST }
        ensures { self.new ≡ self.old ++ epoch ∷ [] }
    {
        self.epochs.push(epoch);
    }

    /// Whether the epoch is in the list.
    pub fn contains(&self, epoch: u64) -> bool
        ensures found { IsTrue result ↔ Contains self.now epoch }
        ensures value { result ≡ list_any (λ e. e == epoch) self.now }
    {
        self.epochs.as_slice().contains(&epoch)
    }

    /// Whether every epoch of the list is above this one.
    pub fn all_above(&self, epoch: u64) -> bool
        ensures meaning { IsTrue result ↔ All (λ e. epoch < e) self.now }
        ensures value { result ≡ list_all (λ e. nat_lt epoch e) self.now }
    {
        self.epochs.as_slice().iter().all(|e| epoch < *e)
    }

    /// The epochs.
    pub fn as_slice(&self) -> &[u64]
        ensures items { result.now ≡ self.now }
        ensures most { length self.now ≤ EpochList.MOST }
    {
        self.epochs.as_slice()
    }

    /// The same list. It takes no memory.
    pub fn copy(&self) -> EpochList
        ensures { result ≡ self.now }
    {
        let mut epochs = ArrayVec::new();
        for epoch in self.epochs.as_slice() {
            epochs.push(*epoch);
        }
        EpochList { epochs }
    }
}
