//! What a round has of a brick.

ghost use Rattle.std.specs.Prelude.{◌≡◌, length};
ghost use Rattle.cube_values.specs.EpochsVector.{IsVector};

use cube_values::{CodedRows, Entries, Entry, Sequence};
use std::marker::Model;

/// A brick's number, some entries of its vector of epochs, and the rows that these entries appended.
/// The entries are a vector over just these rows: places are counted among them.
#[derive(Debug, Drop)]
pub struct RoundBrick {
    brick: u64,
    entries: Entries,
    rows: CodedRows,
}

impl Model for RoundBrick {
    ghost use Rattle.std.specs.Prelude.{length};
    ghost use Rattle.cube_values.specs.EpochsVector.{IsVector};
    ghost use Rattle.cube_rounds.specs.Bricks.{BrickPart};

    ghost Value = { BrickPart };

    ghost view = { λ b. record { brick = b.brick; entries = b.entries; rows = b.rows.rows } };

    ghost invariant = { λ b. IsVector b.entries (length b.rows.rows) };
}

impl RoundBrick {
    /// A brick of this number with entries over these rows. It takes no memory.
    pub fn new(brick: u64, entries: Entries, rows: CodedRows) -> RoundBrick
        requires { IsVector entries (length rows.rows) }
        ensures { result ≡ record { brick = brick; entries = entries; rows = rows.rows } }
    {
        RoundBrick {
            brick,
            entries,
            rows,
        }
    }

    /// The brick's number.
    pub fn brick(&self) -> u64
        ensures { result ≡ self.now.brick }
    {
        self.brick
    }

    /// The entries in order. They are a vector over the rows.
    pub fn entries(&self) -> &[Entry]
        ensures items { result.now ≡ self.now.entries }
        ensures vector { IsVector self.now.entries (length self.now.rows) }
    {
        self.entries.as_slice()
    }

    /// The rows that the entries appended.
    pub fn rows(&self) -> &CodedRows
        ensures { result.now.rows ≡ self.now.rows }
    {
        &self.rows
    }
}

/// Bricks of one cube, by rising number.
pub type RoundBrickList = Sequence<RoundBrick>;
