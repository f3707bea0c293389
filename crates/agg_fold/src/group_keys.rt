//! The keys of groups, each with its place.

ghost use Rattle.std.specs.Prelude.{◌≡◌, ◌++◌, ◌<◌, true, false, [], ◌∷◌, length, slice_get, Some, IfOk, OnOk, OnErr};

use indexmap::IndexSet;
use std::alloc::{AllocError, Global};
use std::marker::Model;

/// The keys of groups, by coordinates, in the order in which they came. A key is found without a walk over
/// the others. Contracts see the list of the keys.
#[derive(Drop)]
pub struct GroupKeys {
    // None before the first key: groups without keys are small, and take no memory.
    keys: Option<Box<IndexSet<Vec<u32>>>>,
    alloc: Global,
}

impl Model for GroupKeys {
    ghost use Rattle.std.specs.Prelude.{ℕ, List, [], map, bytes_eq, IfSome};
    ghost use Rattle.std.specs.Option.{option_map_or};
    ghost use Rattle.std.specs.HashSet.{IsUnique};

    ghost Value = { List (List ℕ) };

    ghost view = { λ g. option_map_or (λ keys. map (λ k. k.items) keys.value.keys) g.keys [] };

    ghost invariant = { λ g. IfSome g.keys (λ keys. IsUnique (λ x y. bytes_eq x.items y.items) keys.value) };
}

impl GroupKeys {
    ghost use Rattle.agg_fold.specs.Places.{is_among, IsPlaceOf};

    /// No keys.
    pub fn new(alloc: Global) -> GroupKeys
        ensures { result ≡ [] }
    {
        GroupKeys { keys: None, alloc }
    }

    /// How many keys there are.
    pub fn len(&self) -> usize
        ensures { result ≡ length self.now }
    {
        match &self.keys {
            Some(keys) => keys.len(),
            None => 0,
        }
    }

    /// The key at a place.
    pub fn at(&self, place: usize) -> &[u32]
        requires { place < length self.now }
        ensures { slice_get self.now place ≡ Some result.now }
    {
        match &self.keys {
            Some(keys) => keys.as_slice()[place].as_slice(),
            None => unreachable!(),
        }
    }

    /// The place of a key, None where it is not among the keys.
    pub fn find(&self, key: &[u32]) -> Option<usize>
        ensures { IsPlaceOf self.now key.now result }
    {
        match &self.keys {
            Some(keys) => keys.get_index_of(key),
            None => None,
        }
    }

    /// Adds a key that is not among the keys.
    pub fn push(&mut self, key: &[u32]) -> Result<(), AllocError>
        requires { is_among self.old key.now ≡ false }
        ensures ok { OnOk result (self.new ≡ self.old ++ key.now ∷ []) }
        ensures err { OnErr result (self.new ≡ self.old) }
    {
        let owned = Vec::from_slice(self.alloc, key)?;
        match &mut self.keys {
            Some(keys) => {
                keys.insert(owned)?;
            }
            None => {
                let mut keys = IndexSet::new(self.alloc);
                keys.insert(owned)?;
                self.keys = Some(Box::new(self.alloc, keys)?);
            }
        }
        Ok(())
    }

    /// The same keys.
    pub fn copy(&self) -> Result<GroupKeys, AllocError>
        ensures { IfOk result (λ keys. keys ≡ self.now) }
    {
        let mut keys = GroupKeys::new(self.alloc);
        'keys: for place in 0..self.len() {
            keys.push(self.at(place))?;
        }
        Ok(keys)
    }
}
