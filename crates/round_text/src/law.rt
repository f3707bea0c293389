//! What follows from the definitions, for whoever reasons with them.

ghost use Rattle.round_text.specs.TextLengths.{CanonicalTextsAreShort};

/// A canonical text has fewer than 2^32 bytes, since a text has at most sixteen cubes, a cube sixteen dimensions
/// and sixteen metrics, and a name 64 bytes.
pub fn canonical_texts_are_short()
    ensures { CanonicalTextsAreShort }
{}
