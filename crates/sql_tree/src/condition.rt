//! Conditions, read from tokens.

ghost use Rattle.std.specs.Prelude.{◌≡◌, IfOk};
ghost use Rattle.sql_tree.specs.Places.{AreIn, IsRest};
ghost use Rattle.sql_tree.specs.Reading.{ReadsAs, cond_behind, read_cond, read_where};

use crate::head::{Operator, Sign};
use crate::phrase::{Phrase, enclosed, listed};
use crate::read::{Miss, after, name, sign, value};
use crate::symbol::operator_in;
use cube_language::{Cond, Conds, Keyword, Token};
use cube_values::{CallError, Text};
use std::alloc::Global;

/// A condition behind its name and its operator, and the tokens behind it.
#[tactic(auto, unfolding(crate::specs::Reading::read_tuple))]
fn compared<'a>(
    alloc: Global,
    text: &str,
    tokens: &'a [Token],
    name: Text,
    operator: Operator,
) -> Result<(Cond, &'a [Token]), Miss>
    requires { AreIn text.now tokens.now }
    ensures read { ReadsAs (cond_behind name operator) text.now tokens.now result }
    ensures rest { IfOk result (λ x. IsRest text.now tokens.now x.1.now) }
{
    match operator {
        Operator::Equal => {
            let (wanted, rest) = value(alloc, text, tokens)?;
            Ok((Cond::Equal(name, wanted), rest))
        }
        Operator::In => {
            let (wanted, rest) = enclosed(alloc, text, tokens)?;
            Ok((Cond::In(name, wanted), rest))
        }
        Operator::Between => {
            let (first, behind) = value(alloc, text, tokens)?;
            let behind = sign(text, behind, Sign::Keyword(Keyword::And))?;
            let (last, rest) = value(alloc, text, behind)?;
            Ok((Cond::Between(name, first, last), rest))
        }
    }
}

/// A condition, and the tokens behind it.
#[tactic(auto, unfolding(crate::specs::Reading::read_cond))]
fn condition<'a>(
    alloc: Global,
    text: &str,
    tokens: &'a [Token],
) -> Result<(Cond, &'a [Token]), Miss>
    requires { AreIn text.now tokens.now }
    ensures read { ReadsAs read_cond text.now tokens.now result }
    ensures rest { IfOk result (λ x. IsRest text.now tokens.now x.1.now) }
{
    let (name, left) = name(alloc, text, tokens)?;
    let [first, behind @ ..] = left else {
        return Err(CallError::Fault(0));
    };
    match operator_in(text, first) {
        Some(operator) => compared(alloc, text, behind, name, operator),
        None => Err(CallError::Fault(left.len())),
    }
}

impl Phrase for Cond {
    ghost reading = { read_cond };

    fn part<'a>(
        alloc: Global,
        text: &str,
        tokens: &'a [Token],
    ) -> Result<(Cond, &'a [Token]), Miss> {
        condition(alloc, text, tokens)
    }
}

/// `WHERE cond AND ..`, none where it does not come, and the tokens behind it.
#[tactic(auto, unfolding(crate::specs::Reading::read_where, crate::specs::Reading::optional))]
pub(crate) fn conditions<'a>(
    alloc: Global,
    text: &str,
    tokens: &'a [Token],
) -> Result<(Conds, &'a [Token]), Miss>
    requires { AreIn text.now tokens.now }
    ensures read { ReadsAs read_where text.now tokens.now result }
    ensures rest { IfOk result (λ x. IsRest text.now tokens.now x.1.now) }
{
    match after(text, tokens, Sign::Keyword(Keyword::Where)) {
        Some(behind) => listed(alloc, text, behind, Sign::Keyword(Keyword::And)),
        None => Ok((Conds::new(alloc), tokens)),
    }
}
