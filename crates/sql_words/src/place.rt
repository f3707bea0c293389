//! The bytes of a token.

ghost use Rattle.std.specs.Prelude.{◌≡◌};
ghost use Rattle.cube_language.specs.Tokens.{token_bytes};
ghost use Rattle.sql_words.specs.Places.{StandsIn};

use cube_language::Token;

/// The bytes of a token that stands in a text, as text. They are not copied.
#[tactic(auto, using(crate::proofs::TokensStand::start_is_boundary, crate::proofs::TokensStand::end_is_boundary))]
pub fn token_text<'a>(text: &'a str, token: &Token) -> &'a str
    requires { StandsIn text.now token.now }
    ensures { result.now ≡ token_bytes text.now token.now }
{
    &text[token.start..token.end]
}
