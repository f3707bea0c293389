//! A store that stands on two disks.

ghost use Rattle.std.specs.Prelude.{◌≡◌, ◌&&◌, map};
ghost use Rattle.cube_schema.specs.Schemas.{cube_of};
ghost use Rattle.round_store.specs.States.{wants_whole};

use crate::data::StoreData;
use cube_rounds::NameCounts;
use cube_values::CubeShape;
use std::alloc::Global;
use std::marker::Model;
use store_reading::StorePlace;

/// How many rounds a file has before another one is begun.
pub const FILE_ROUNDS: u64 = 64;

/// A store of two files: where its current file ends, and what it has to know of its cubes.
#[derive(Drop)]
pub struct Store {
    pub(crate) alloc: Global,
    pub(crate) data: StoreData,
    pub(crate) declared: u32,
    pub(crate) rounds: u64,
    pub(crate) place: StorePlace,
    pub(crate) shut: bool,
}

impl Model for Store {
    ghost use Rattle.round_store.specs.States.{StoreState};

    ghost Value = { StoreState };

    ghost view = { λ s. record {
      cubes = s.data.cubes;
      declared = s.declared;
      rounds = s.rounds;
      counts = s.data.counts;
      place = s.place;
      shut = s.shut;
    } };
}

impl Store {
    /// Whether the next round is whole: it has everything from epoch 0 on and all names and cubes, and
    /// goes to the other file. So it is where the current file has version 1, or 64 rounds and a
    /// generation below 2^61.
    pub fn wants_whole(&self) -> bool
        ensures { result ≡ wants_whole self.now }
    {
        self.place.generation == 0
            || (self.rounds >= FILE_ROUNDS && self.place.generation < 1 << 61)
    }

    /// The shapes of the cubes.
    pub fn shapes(&self) -> &[CubeShape]
        ensures { result.now ≡ map cube_of self.now.cubes }
    {
        self.data.shapes()
    }

    /// How many names each dimension of each cube has; 0 for a dimension of numbers.
    pub fn counts(&self) -> &NameCounts
        ensures { result.now ≡ self.now.counts }
    {
        self.data.counts()
    }

    /// How many of the cubes are the header's.
    pub fn declared(&self) -> u32
        ensures { result ≡ self.now.declared }
    {
        self.declared
    }
}
