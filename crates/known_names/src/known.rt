//! The list of texts and codes, and how a text is found in it.

ghost use Rattle.std.specs.Prelude.{◌≡◌, [], None, Some, OnOk, OnErr};
ghost use Rattle.known_names.specs.KnownTexts.{code_of_known, with_text, HasDistinctTexts};

use crate::short_texts::ShortTexts;
use indexmap::IndexMap;
use std::alloc::{AllocError, Global};
use std::marker::Model;

/// Distinct texts of a dimension, each with the code that its dictionary gave, in the order in which they
/// were learned. Codes are never taken back, so one that was learned stays right.
///
/// A text is found by its bytes, without a `String` and a test for UTF-8: a short one stands with its code in a
/// table, and any that does not stand there is asked of the map.
#[derive(Drop)]
pub struct Known {
    texts: IndexMap<Vec<u8>, u32>,
    short: ShortTexts,
}

impl Model for Known {
    ghost use Rattle.std.specs.Prelude.{ℕ, List, bytes_eq, vec_items};
    ghost use Rattle.std.specs.HashMap.{IsUnique};
    ghost use Rattle.known_names.specs.KnownTexts.{texts_of};
    ghost use Rattle.known_names.specs.Slots.{AreRight};

    ghost Value = { List (List ℕ × ℕ) };

    ghost view = { λ k. texts_of vec_items k.texts.entries };

    ghost invariant = { λ k. IsUnique (λ a b. bytes_eq (vec_items a) (vec_items b)) k.texts
        × AreRight (texts_of vec_items k.texts.entries) k.short.slots.items };
}

impl Known {
    /// No text.
    pub fn new(alloc: Global) -> Known
        ensures { result ≡ [] }
    {
        Known {
            texts: IndexMap::new(alloc),
            short: ShortTexts::new(alloc),
        }
    }

    /// The code of a text, None where it is not known.
    pub fn find(&self, text: &[u8]) -> Option<u32>
        ensures code { result ≡ code_of_known self.now text.now }
        ensures distinct { HasDistinctTexts self.now }
    {
        if let Some(code) = self.short.find(text) {
            return Some(code);
        }
        self.texts.get(text).copied()
    }

    /// Learns the code of a text. A text that is known keeps the code that it has. Only where a text is not
    /// known may memory be wanted, and then nothing changes.
    pub fn learn(&mut self, text: &[u8], code: u32) -> Result<(), AllocError>
        ensures learned { OnOk result (self.new ≡ with_text self.old text.now code) }
        ensures err { OnErr result (self.new ≡ self.old) }
        ensures wanted { OnErr result (code_of_known self.old text.now ≡ None) }
    {
        if let Some(_known) = self.find(text) {
            return Ok(());
        }
        self.add(text, code)
    }

    /// Adds a text that is not known. Where memory is wanted nothing changes.
    fn add(&mut self, text: &[u8], code: u32) -> Result<(), AllocError>
        requires { code_of_known self.old text.now ≡ None }
        ensures added { OnOk result (self.new ≡ with_text self.old text.now code) }
        ensures err { OnErr result (self.new ≡ self.old) }
    {
        self.short.make_room(self.texts.len())?;
        let owned = Vec::from_slice(*self.texts.allocator(), text)?;
        self.texts.insert(owned, code)?;
        self.short.note(text, code);
        Ok(())
    }
}
