//! The parts of a statement that are one symbol, read from its tokens.

ghost use Rattle.std.specs.Prelude.{◌≡◌, false, IfOk, IfSome, IfNone};
ghost use Rattle.cube_language.specs.Symbols.{symbols_of};
ghost use Rattle.sql_tree.specs.Places.{AreIn, BeginsWith, IsRest};
ghost use Rattle.sql_tree.specs.Reading.{ReadsAs, Skips, expect, stands_first, read_count, read_name, read_number, read_size, read_text, read_value};

use crate::head::Sign;
use crate::symbol::{count_in, is_sign, name_in, number_in, size_in, text_in, value_in};
use cube_language::Token;
use cube_values::{CallError, Text, Value};
use std::alloc::Global;

/// Why tokens are not read: how many are left from the first that does not fit, 0 where they end too
/// early; or want of memory.
pub(crate) type Miss = CallError<usize>;

/// The tokens behind a sign, where it stands first.
pub(crate) fn after<'a>(text: &str, tokens: &'a [Token], wanted: Sign) -> Option<&'a [Token]>
    requires { AreIn text.now tokens.now }
    ensures some { IfSome result (λ rest. BeginsWith wanted text.now tokens.now rest.now) }
    ensures none { IfNone result (stands_first wanted (symbols_of text.now tokens.now) ≡ false) }
{
    match tokens {
        [first, rest @ ..] if is_sign(text, first, wanted) => Some(rest),
        _ => None,
    }
}

/// The tokens behind a sign that is wanted first.
#[tactic(auto, unfolding(crate::specs::Reading::expect))]
pub(crate) fn sign<'a>(text: &str, tokens: &'a [Token], wanted: Sign) -> Result<&'a [Token], Miss>
    requires { AreIn text.now tokens.now }
    ensures read { Skips (expect wanted) text.now tokens.now result }
    ensures rest { IfOk result (λ rest. IsRest text.now tokens.now rest.now) }
{
    match tokens {
        [first, rest @ ..] if is_sign(text, first, wanted) => Ok(rest),
        _ => Err(CallError::Fault(tokens.len())),
    }
}

/// The name that stands first, and the tokens behind it.
#[tactic(auto, unfolding(crate::specs::Reading::read_name))]
pub(crate) fn name<'a>(
    alloc: Global,
    text: &str,
    tokens: &'a [Token],
) -> Result<(Text, &'a [Token]), Miss>
    requires { AreIn text.now tokens.now }
    ensures read { ReadsAs read_name text.now tokens.now result }
    ensures rest { IfOk result (λ x. IsRest text.now tokens.now x.1.now) }
{
    let [first, rest @ ..] = tokens else {
        return Err(CallError::Fault(0));
    };
    match name_in(text, first) {
        Some(name) => Ok((Text::new(alloc, name)?, rest)),
        None => Err(CallError::Fault(tokens.len())),
    }
}

/// The value that stands first, and the tokens behind it.
#[tactic(auto, unfolding(crate::specs::Reading::read_value))]
pub(crate) fn value<'a>(
    alloc: Global,
    text: &str,
    tokens: &'a [Token],
) -> Result<(Value, &'a [Token]), Miss>
    requires { AreIn text.now tokens.now }
    ensures read { ReadsAs read_value text.now tokens.now result }
    ensures rest { IfOk result (λ x. IsRest text.now tokens.now x.1.now) }
{
    let [first, rest @ ..] = tokens else {
        return Err(CallError::Fault(0));
    };
    match value_in(alloc, text, first)? {
        Some(value) => Ok((value, rest)),
        None => Err(CallError::Fault(tokens.len())),
    }
}

/// The text in quotes that stands first, and the tokens behind it.
#[tactic(auto, unfolding(crate::specs::Reading::read_text))]
pub(crate) fn path<'a>(
    alloc: Global,
    text: &str,
    tokens: &'a [Token],
) -> Result<(Text, &'a [Token]), Miss>
    requires { AreIn text.now tokens.now }
    ensures read { ReadsAs read_text text.now tokens.now result }
    ensures rest { IfOk result (λ x. IsRest text.now tokens.now x.1.now) }
{
    let [first, rest @ ..] = tokens else {
        return Err(CallError::Fault(0));
    };
    match text_in(alloc, text, first)? {
        Some(text) => Ok((text, rest)),
        None => Err(CallError::Fault(tokens.len())),
    }
}

/// The number without a minus sign that stands first, and the tokens behind it.
#[tactic(auto, unfolding(crate::specs::Reading::read_count))]
pub(crate) fn count<'a>(text: &str, tokens: &'a [Token]) -> Result<(u64, &'a [Token]), Miss>
    requires { AreIn text.now tokens.now }
    ensures read { ReadsAs read_count text.now tokens.now result }
    ensures rest { IfOk result (λ x. IsRest text.now tokens.now x.1.now) }
{
    let [first, rest @ ..] = tokens else {
        return Err(CallError::Fault(0));
    };
    match count_in(text, first) {
        Some(n) => Ok((n, rest)),
        None => Err(CallError::Fault(tokens.len())),
    }
}

/// The number that stands first, and the tokens behind it.
#[tactic(auto, unfolding(crate::specs::Reading::read_number))]
pub(crate) fn number<'a>(text: &str, tokens: &'a [Token]) -> Result<(i64, &'a [Token]), Miss>
    requires { AreIn text.now tokens.now }
    ensures read { ReadsAs read_number text.now tokens.now result }
    ensures rest { IfOk result (λ x. IsRest text.now tokens.now x.1.now) }
{
    let [first, rest @ ..] = tokens else {
        return Err(CallError::Fault(0));
    };
    match number_in(text, first) {
        Some(n) => Ok((n, rest)),
        None => Err(CallError::Fault(tokens.len())),
    }
}

/// The number of 32 bits without a sign that stands first, and the tokens behind it.
#[tactic(auto, unfolding(crate::specs::Reading::read_size))]
pub(crate) fn size<'a>(text: &str, tokens: &'a [Token]) -> Result<(u32, &'a [Token]), Miss>
    requires { AreIn text.now tokens.now }
    ensures read { ReadsAs read_size text.now tokens.now result }
    ensures rest { IfOk result (λ x. IsRest text.now tokens.now x.1.now) }
{
    let [first, rest @ ..] = tokens else {
        return Err(CallError::Fault(0));
    };
    match size_in(text, first) {
        Some(n) => Ok((n, rest)),
        None => Err(CallError::Fault(tokens.len())),
    }
}
