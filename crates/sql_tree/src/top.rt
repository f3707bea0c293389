//! HAVING, ORDER BY and LIMIT, read from tokens.

ghost use Rattle.std.specs.Prelude.{◌≡◌, IfOk};
ghost use Rattle.cube_language.specs.Symbols.{symbols_of};
ghost use Rattle.sql_tree.specs.Places.{AreIn, IsRest};
ghost use Rattle.sql_tree.specs.Reading.{ReadsAs, bound_behind, read_bound, read_direction, read_having, read_key, read_keys, read_limit, read_order, read_test};

use crate::head::{Operator, Sign};
use crate::item::{aggregate, item};
use crate::phrase::{Phrase, enclosed, listed};
use crate::read::{Miss, after, count, number, sign};
use crate::symbol::{direction_in, operator_in};
use cube_language::{Direction, Keyword, Test, Tests, Token, WrittenKey, WrittenKeys};
use cube_values::{Bound, CallError};
use std::alloc::Global;

/// A bound behind its operator, and the tokens behind it.
fn bounded<'a>(
    alloc: Global,
    text: &str,
    tokens: &'a [Token],
    operator: Operator,
) -> Result<(Bound, &'a [Token]), Miss>
    requires { AreIn text.now tokens.now }
    ensures read { ReadsAs (bound_behind operator) text.now tokens.now result }
    ensures rest { IfOk result (λ x. IsRest text.now tokens.now x.1.now) }
{
    match operator {
        Operator::Equal => {
            let (wanted, rest) = number(text, tokens)?;
            Ok((Bound::Equal(wanted), rest))
        }
        Operator::In => {
            let (wanted, rest) = enclosed(alloc, text, tokens)?;
            Ok((Bound::In(wanted), rest))
        }
        Operator::Between => {
            let (first, behind) = number(text, tokens)?;
            let behind = sign(text, behind, Sign::Keyword(Keyword::And))?;
            let (last, rest) = number(text, behind)?;
            Ok((Bound::Between(first, last), rest))
        }
    }
}

/// A bound, and the tokens behind it.
#[tactic(auto, unfolding(crate::specs::Reading::read_bound))]
fn bound<'a>(alloc: Global, text: &str, tokens: &'a [Token]) -> Result<(Bound, &'a [Token]), Miss>
    requires { AreIn text.now tokens.now }
    ensures read { ReadsAs read_bound text.now tokens.now result }
    ensures rest { IfOk result (λ x. IsRest text.now tokens.now x.1.now) }
{
    let [first, behind @ ..] = tokens else {
        return Err(CallError::Fault(0));
    };
    match operator_in(text, first) {
        Some(operator) => bounded(alloc, text, behind, operator),
        None => Err(CallError::Fault(tokens.len())),
    }
}

impl Phrase for Test {
    ghost reading = { read_test };

    #[tactic(auto, unfolding(crate::specs::Reading::read_test))]
    fn part<'a>(
        alloc: Global,
        text: &str,
        tokens: &'a [Token],
    ) -> Result<(Test, &'a [Token]), Miss> {
        let (item, behind) = aggregate(alloc, text, tokens)?;
        let (bound, rest) = bound(alloc, text, behind)?;
        Ok((Test { item, bound }, rest))
    }
}

/// `HAVING test AND ..`, none where it does not come, and the tokens behind it.
#[tactic(auto, unfolding(crate::specs::Reading::read_having, crate::specs::Reading::optional))]
pub(crate) fn having<'a>(
    alloc: Global,
    text: &str,
    tokens: &'a [Token],
) -> Result<(Tests, &'a [Token]), Miss>
    requires { AreIn text.now tokens.now }
    ensures read { ReadsAs read_having text.now tokens.now result }
    ensures rest { IfOk result (λ x. IsRest text.now tokens.now x.1.now) }
{
    match after(text, tokens, Sign::Keyword(Keyword::Having)) {
        Some(behind) => listed(alloc, text, behind, Sign::Keyword(Keyword::And)),
        None => Ok((Tests::new(alloc), tokens)),
    }
}

/// The direction that is written first, if any is, and the tokens behind it.
#[tactic(auto, unfolding(crate::specs::Reading::read_direction))]
fn direction<'a>(text: &str, tokens: &'a [Token]) -> (Direction, &'a [Token])
    requires { AreIn text.now tokens.now }
    ensures read { read_direction (symbols_of text.now tokens.now)
        ≡ Ok (result.0, symbols_of text.now result.1.now) }
    ensures rest { IsRest text.now tokens.now result.1.now }
{
    let [first, rest @ ..] = tokens else {
        return (Direction::Unsaid, tokens);
    };
    match direction_in(text, first) {
        Some(direction) => (direction, rest),
        None => (Direction::Unsaid, tokens),
    }
}

impl Phrase for WrittenKey {
    ghost reading = { read_key };

    #[tactic(auto, unfolding(crate::specs::Reading::read_key))]
    fn part<'a>(
        alloc: Global,
        text: &str,
        tokens: &'a [Token],
    ) -> Result<(WrittenKey, &'a [Token]), Miss> {
        let (item, behind) = item(alloc, text, tokens)?;
        let (direction, rest) = direction(text, behind);
        Ok((WrittenKey { item, direction }, rest))
    }
}

/// `BY key, ..`, and the tokens behind it.
#[tactic(auto, unfolding(crate::specs::Reading::read_keys))]
fn keys<'a>(
    alloc: Global,
    text: &str,
    tokens: &'a [Token],
) -> Result<(WrittenKeys, &'a [Token]), Miss>
    requires { AreIn text.now tokens.now }
    ensures read { ReadsAs read_keys text.now tokens.now result }
    ensures rest { IfOk result (λ x. IsRest text.now tokens.now x.1.now) }
{
    let behind = sign(text, tokens, Sign::Keyword(Keyword::By))?;
    listed(alloc, text, behind, Sign::Comma)
}

/// `ORDER BY key, ..`, no key where it does not come, and the tokens behind it.
#[tactic(auto, unfolding(crate::specs::Reading::read_order, crate::specs::Reading::optional))]
pub(crate) fn order<'a>(
    alloc: Global,
    text: &str,
    tokens: &'a [Token],
) -> Result<(WrittenKeys, &'a [Token]), Miss>
    requires { AreIn text.now tokens.now }
    ensures read { ReadsAs read_order text.now tokens.now result }
    ensures rest { IfOk result (λ x. IsRest text.now tokens.now x.1.now) }
{
    match after(text, tokens, Sign::Keyword(Keyword::Order)) {
        Some(behind) => keys(alloc, text, behind),
        None => Ok((WrittenKeys::new(alloc), tokens)),
    }
}

/// `LIMIT count`, no limit where it does not come, and the tokens behind it.
#[tactic(auto, unfolding(crate::specs::Reading::read_limit, crate::specs::Reading::read_some_count, crate::specs::Reading::optional))]
pub(crate) fn limit<'a>(text: &str, tokens: &'a [Token]) -> Result<(Option<u64>, &'a [Token]), Miss>
    requires { AreIn text.now tokens.now }
    ensures read { ReadsAs read_limit text.now tokens.now result }
    ensures rest { IfOk result (λ x. IsRest text.now tokens.now x.1.now) }
{
    match after(text, tokens, Sign::Keyword(Keyword::Limit)) {
        Some(behind) => {
            let (most, rest) = count(text, behind)?;
            Ok((Some(most), rest))
        }
        None => Ok((None, tokens)),
    }
}
