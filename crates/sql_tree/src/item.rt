//! Tuples and items, read from tokens.

ghost use Rattle.std.specs.Prelude.{◌≡◌, IfOk};
ghost use Rattle.sql_tree.specs.Places.{AreIn, IsRest};
ghost use Rattle.sql_tree.specs.Reading.{ReadsAs, Skips, Aggregated, item_behind, read_aggregate, read_item, read_metric, read_star, read_tuple};

use crate::head::{Aggregate, Sign};
use crate::phrase::{Phrase, enclosed};
use crate::read::{Miss, name, sign};
use crate::symbol::aggregate_in;
use cube_language::{Item, Token};
use cube_values::{CallError, Text, Values};
use std::alloc::Global;

impl Phrase for Values {
    ghost reading = { read_tuple };

    #[tactic(auto, unfolding(crate::specs::Reading::read_tuple))]
    fn part<'a>(
        alloc: Global,
        text: &str,
        tokens: &'a [Token],
    ) -> Result<(Values, &'a [Token]), Miss> {
        enclosed(alloc, text, tokens)
    }
}

/// The metric in `(metric)`, and the tokens behind it.
#[tactic(auto, unfolding(crate::specs::Reading::read_metric))]
fn metric<'a>(alloc: Global, text: &str, tokens: &'a [Token]) -> Result<(Text, &'a [Token]), Miss>
    requires { AreIn text.now tokens.now }
    ensures read { ReadsAs read_metric text.now tokens.now result }
    ensures rest { IfOk result (λ x. IsRest text.now tokens.now x.1.now) }
{
    let inside = sign(text, tokens, Sign::Open)?;
    let (metric, behind) = name(alloc, text, inside)?;
    let rest = sign(text, behind, Sign::Close)?;
    Ok((metric, rest))
}

/// The tokens behind `(*)`.
#[tactic(auto, unfolding(crate::specs::Reading::read_star))]
fn star<'a>(text: &str, tokens: &'a [Token]) -> Result<&'a [Token], Miss>
    requires { AreIn text.now tokens.now }
    ensures read { Skips read_star text.now tokens.now result }
    ensures rest { IfOk result (λ rest. IsRest text.now tokens.now rest.now) }
{
    let inside = sign(text, tokens, Sign::Open)?;
    let behind = sign(text, inside, Sign::Star)?;
    sign(text, behind, Sign::Close)
}

/// An item behind the word of its aggregate, and the tokens behind it.
fn aggregated<'a>(
    alloc: Global,
    text: &str,
    tokens: &'a [Token],
    aggregate: Aggregate,
) -> Result<(Item, &'a [Token]), Miss>
    requires { AreIn text.now tokens.now }
    ensures read { ReadsAs (item_behind (Aggregated aggregate)) text.now tokens.now result }
    ensures rest { IfOk result (λ x. IsRest text.now tokens.now x.1.now) }
{
    match aggregate {
        Aggregate::Sum => {
            let (metric, rest) = metric(alloc, text, tokens)?;
            Ok((Item::Sum(metric), rest))
        }
        Aggregate::Min => {
            let (metric, rest) = metric(alloc, text, tokens)?;
            Ok((Item::Min(metric), rest))
        }
        Aggregate::Max => {
            let (metric, rest) = metric(alloc, text, tokens)?;
            Ok((Item::Max(metric), rest))
        }
        Aggregate::Avg => {
            let (metric, rest) = metric(alloc, text, tokens)?;
            Ok((Item::Avg(metric), rest))
        }
        Aggregate::Count => {
            let rest = star(text, tokens)?;
            Ok((Item::CountAll, rest))
        }
    }
}

/// An aggregate, and the tokens behind it.
#[tactic(auto, unfolding(crate::specs::Reading::read_aggregate))]
pub(crate) fn aggregate<'a>(
    alloc: Global,
    text: &str,
    tokens: &'a [Token],
) -> Result<(Item, &'a [Token]), Miss>
    requires { AreIn text.now tokens.now }
    ensures read { ReadsAs read_aggregate text.now tokens.now result }
    ensures rest { IfOk result (λ x. IsRest text.now tokens.now x.1.now) }
{
    let [first, behind @ ..] = tokens else {
        return Err(CallError::Fault(0));
    };
    match aggregate_in(text, first) {
        Some(aggregate) => aggregated(alloc, text, behind, aggregate),
        None => Err(CallError::Fault(tokens.len())),
    }
}

/// An item, and the tokens behind it.
#[tactic(auto, unfolding(crate::specs::Reading::read_item, crate::specs::Reading::read_name))]
pub(crate) fn item<'a>(
    alloc: Global,
    text: &str,
    tokens: &'a [Token],
) -> Result<(Item, &'a [Token]), Miss>
    requires { AreIn text.now tokens.now }
    ensures read { ReadsAs read_item text.now tokens.now result }
    ensures rest { IfOk result (λ x. IsRest text.now tokens.now x.1.now) }
{
    let [first, behind @ ..] = tokens else {
        return Err(CallError::Fault(0));
    };
    match aggregate_in(text, first) {
        Some(aggregate) => aggregated(alloc, text, behind, aggregate),
        None => {
            let (name, rest) = name(alloc, text, tokens)?;
            Ok((Item::Plain(name), rest))
        }
    }
}

impl Phrase for Item {
    ghost reading = { read_item };

    fn part<'a>(
        alloc: Global,
        text: &str,
        tokens: &'a [Token],
    ) -> Result<(Item, &'a [Token]), Miss> {
        item(alloc, text, tokens)
    }
}
