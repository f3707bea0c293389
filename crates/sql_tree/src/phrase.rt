//! The parts of statements that lists have, and the lists of them.

ghost use Rattle.std.specs.Prelude.{◌≡◌, List, IfOk};
ghost use Rattle.cube_language.specs.declared.symbol.Symbol.{Symbol};
ghost use Rattle.sql_tree.specs.Places.{AreIn, IsRest};
ghost use Rattle.sql_tree.specs.Reading.{ReadsAs, Readout, enclosed, listed, read_name, read_number, read_value};

use crate::head::Sign;
use crate::read::{Miss, after, name, number, sign, value};
use cube_language::Token;
use cube_values::{CallError, Sequence, Text, Value};
use std::alloc::Global;

/// A part of a statement that is read from its tokens.
pub(crate) trait Phrase: Sized {
    /// How it is read from symbols.
    ghost reading: { List Symbol → Readout Self };

    /// The part that stands first, and the tokens behind it.
    fn part<'a>(alloc: Global, text: &str, tokens: &'a [Token]) -> Result<(Self, &'a [Token]), Miss>
        requires { AreIn text.now tokens.now }
        ensures read { ReadsAs reading text.now tokens.now result }
        ensures rest { IfOk result (λ x. IsRest text.now tokens.now x.1.now) };
}

impl Phrase for Text {
    ghost reading = { read_name };

    fn part<'a>(
        alloc: Global,
        text: &str,
        tokens: &'a [Token],
    ) -> Result<(Text, &'a [Token]), Miss> {
        name(alloc, text, tokens)
    }
}

impl Phrase for Value {
    ghost reading = { read_value };

    fn part<'a>(
        alloc: Global,
        text: &str,
        tokens: &'a [Token],
    ) -> Result<(Value, &'a [Token]), Miss> {
        value(alloc, text, tokens)
    }
}

impl Phrase for i64 {
    ghost reading = { read_number };

    fn part<'a>(
        _alloc: Global,
        text: &str,
        tokens: &'a [Token],
    ) -> Result<(i64, &'a [Token]), Miss> {
        number(text, tokens)
    }
}

// For how many parts there is room at first: those of most lists.
const USUAL_PARTS: usize = 4;

/// Parts with a sign between each two, one at least, and the tokens behind them.
pub(crate) fn listed<'a, T: Phrase + Drop>(
    alloc: Global,
    text: &str,
    tokens: &'a [Token],
    between: Sign,
) -> Result<(Sequence<T>, &'a [Token]), Miss>
    requires { AreIn text.now tokens.now }
    ensures read { ReadsAs (listed between T.reading) text.now tokens.now result }
    ensures rest { IfOk result (λ x. IsRest text.now tokens.now x.1.now) }
{
    let mut parts = Sequence::from_vec(Vec::with_capacity(alloc, USUAL_PARTS)?);
    let mut left = tokens;
    'parts: loop {
        let (part, rest) = T::part(alloc, text, left)?;
        parts.push(part)?;
        match after(text, rest, between) {
            Some(behind) => left = behind,
            None => return Ok((parts, rest)),
        }
    }
}

/// `(part, ..)`, and the tokens behind it.
#[tactic(auto, unfolding(crate::specs::Reading::enclosed))]
pub(crate) fn enclosed<'a, T: Phrase + Drop>(
    alloc: Global,
    text: &str,
    tokens: &'a [Token],
) -> Result<(Sequence<T>, &'a [Token]), Miss>
    requires { AreIn text.now tokens.now }
    ensures read { ReadsAs (enclosed T.reading) text.now tokens.now result }
    ensures rest { IfOk result (λ x. IsRest text.now tokens.now x.1.now) }
{
    let inside = sign(text, tokens, Sign::Open)?;
    let (parts, behind) = listed(alloc, text, inside, Sign::Comma)?;
    let rest = sign(text, behind, Sign::Close)?;
    Ok((parts, rest))
}
