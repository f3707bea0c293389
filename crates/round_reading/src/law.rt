//! What follows from the definitions, for whoever reasons with them.

ghost use Rattle.round_reading.specs.Spellings.{RoundsAreApart};
ghost use Rattle.sha2.specs.Sha256.{sha256};

use cube_schema::a_text_declares_or_has_one_fault;

/// A round has one spelling, and no round's bytes are the beginning of another's.
pub fn rounds_have_one_spelling()
    ensures { RoundsAreApart sha256 }
{
    a_text_declares_or_has_one_fault();
}
