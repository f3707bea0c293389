//! Dictionaries in one memory give texts their codes.

ghost use Rattle.std.specs.Prelude.{◌≡◌, ℕ, ◌<◌, ◌≤◌, true, List, length, IfOk, IfSome};
ghost use Rattle.row_encoding.specs.DictsAsEncoder.{MayEndWith, Suit, HasName, HaveNothingElse, MayHaveGiven, nothing_else};

use crate::encoder::Encoder;
use cube_schema::Schema;
use names_dict::{Code, Dicts};
use std::alloc::AllocError;

impl Encoder for Dicts {
    ghost may_end = { MayEndWith };

    ghost suits = { Suit };

    ghost has_name = { HasName };

    ghost has_given = { MayHaveGiven };

    ghost keeps = { HaveNothingElse };

    fn encode(
        &mut self,
        place: u32,
        cube: &Schema,
        dim: u32,
        text: &str,
    ) -> Result<Code, AllocError> {
        Dicts::encode(self, place, dim, cube.cube_shape(), text)
    }

    ghost carries_on = { nothing_else };
}
