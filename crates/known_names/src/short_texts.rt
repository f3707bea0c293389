//! Short texts with their codes, in a table by the hashes of the texts.
//!
//! What stands in the table is so; what is so need not stand in it, where no slot is free or the text is long.
//! A short text stands in the slot itself, so a look-up mostly touches one line of memory.

ghost use Rattle.std.specs.Prelude.{◌≡◌, ◌↔◌, ℕ, ◌<◌, List, length, Some, IfOk, IfSome, IsTrue};
ghost use Rattle.known_names.specs.KnownTexts.{code_of_known};
ghost use Rattle.known_names.specs.ShortKeys.{IsShortText};
ghost use Rattle.known_names.specs.Slots.{AreRight, IsRight, slot_key};

use crate::short_keys::ShortKey;
use std::alloc::{AllocError, Global};

/// In how many slots, one after the other, a text may stand.
const TRIES: usize = 8;

/// How many slots there are at first. They are doubled from there, so their number is a power of two.
const FIRST_SLOTS: usize = 64;

/// There are at least so many slots for each text.
const SLOTS_PER_TEXT: usize = 2;

/// The key of a short text, and its code. Where the length is 0 the slot is free. The key's numbers stand
/// beside the code, so that a slot takes 24 bytes.
#[derive(Clone, Copy)]
pub(crate) struct Slot {
    head: u64,
    tail: u64,
    len: u32,
    code: u32,
}

impl Slot {
    /// A slot of a key with a code.
    fn new(key: &ShortKey, code: u32) -> Slot
        ensures key { slot_key result ≡ key.now }
        ensures code { result.code ≡ code }
    {
        Slot {
            head: key.head,
            tail: key.tail,
            len: key.len,
            code,
        }
    }

    /// The key that it holds.
    #[inline(always)]
    fn key(&self) -> ShortKey
        ensures { result ≡ slot_key self.now }
    {
        ShortKey {
            head: self.head,
            tail: self.tail,
            len: self.len,
        }
    }
}

/// A slot that holds no text.
const FREE: Slot = Slot {
    head: 0,
    tail: 0,
    len: 0,
    code: 0,
};

/// The table. The hasher's seed is fixed: whoever chooses the texts can prepare some of one hash, of which most
/// then do not stand in it.
#[derive(Drop)]
pub(crate) struct ShortTexts {
    slots: Vec<Slot>,
}

impl ShortTexts {
    /// No slots.
    #[tactic(auto, using(crate::proofs::Slots::none_right))]
    pub(crate) fn new(alloc: Global) -> ShortTexts
        ensures { (known : List (List ℕ × ℕ)) → AreRight known result.slots.items }
    {
        ShortTexts {
            slots: Vec::new(alloc),
        }
    }

    /// So many free slots.
    fn free(alloc: Global, count: usize) -> Result<ShortTexts, AllocError>
        ensures { IfOk result (λ table. (known : List (List ℕ × ℕ))
            → AreRight known table.slots.items) }
    {
        let mut slots = Vec::with_capacity(alloc, count)?;
        'slots: for _slot in 0..count {
            slots.push(FREE)?;
        }
        Ok(ShortTexts { slots })
    }

    /// The place of a hash's slot at a try.
    #[inline(always)]
    fn place(&self, hash: u64, tried: usize) -> usize {
        (hash as usize).wrapping_add(tried) & self.slots.len().wrapping_sub(1)
    }

    /// The code of a text that stands in the table.
    #[inline(always)]
    pub(crate) fn find(&self, text: &[u8]) -> Option<u32>
        ensures { IfSome result (λ code. (known : List (List ℕ × ℕ))
            → AreRight known self.now.slots.items → code_of_known known text.now ≡ Some code) }
    {
        let key = ShortKey::of(text)?;
        let hash = key.hash();
        for tried in 0..TRIES {
            let place = self.place(hash, tried);
            if place >= self.slots.len() {
                return None;
            }
            let slot = &self.slots[place];
            if slot.key() == key {
                return Some(slot.code);
            }
            if slot.len == 0 {
                return None;
            }
        }
        None
    }

    /// The first free slot for a hash.
    fn free_place(&self, hash: u64) -> Option<usize>
        ensures { IfSome result (λ place. place < length self.now.slots.items) }
    {
        for tried in 0..TRIES {
            let place = self.place(hash, tried);
            if place < self.slots.len() && self.slots[place].len == 0 {
                return Some(place);
            }
        }
        None
    }

    /// Puts a slot's text and code into the first free slot for the text, where there is one. One that is free
    /// changes nothing.
    #[tactic(auto, using(crate::proofs::Slots::right_set))]
    fn put(&mut self, slot: Slot)
        ensures { (known : List (List ℕ × ℕ)) → AreRight known self.old.slots.items
            → IsRight known slot → AreRight known self.new.slots.items }
    {
        if slot.len == 0 {
            return;
        }
        let Some(place) = self.free_place(slot.key().hash()) else {
            return;
        };
        self.slots[place] = slot;
    }

    /// Notes the code of a text, where it is short and a slot is free.
    pub(crate) fn note(&mut self, text: &[u8], code: u32)
        ensures { (known : List (List ℕ × ℕ)) → AreRight known self.old.slots.items
            → code_of_known known text.now ≡ Some code → AreRight known self.new.slots.items }
    {
        let Some(key) = ShortKey::of(text) else {
            return;
        };
        self.put(Slot::new(&key, code));
    }

    /// Twice as many slots, with what stands in these.
    fn doubled(&self) -> Result<ShortTexts, AllocError>
        ensures { IfOk result (λ more. (known : List (List ℕ × ℕ))
            → AreRight known self.now.slots.items → AreRight known more.slots.items) }
    {
        let count = self.slots.len().saturating_mul(2).max(FIRST_SLOTS);
        let mut more = ShortTexts::free(*self.slots.allocator(), count)?;
        'slots: for i in 0..self.slots.len() {
            more.put(self.slots[i]);
        }
        Ok(more)
    }

    /// Makes more slots where there are too few for one text more than so many.
    pub(crate) fn make_room(&mut self, texts: usize) -> Result<(), AllocError>
        ensures { (known : List (List ℕ × ℕ)) → AreRight known self.old.slots.items
            → AreRight known self.new.slots.items }
    {
        if self.slots.len() / SLOTS_PER_TEXT <= texts {
            *self = self.doubled()?;
        }
        Ok(())
    }
}
